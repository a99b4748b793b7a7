//! The law of replies. The call does nothing.
ghost use Rattle.reply_text.specs.Laws.{ShowsWellFormulas};

use typed_tables::typed_tables;

/// The formulas that the reply to an event shows are well, so that each reply has a text.
pub fn shows_well_formulas()
    ensures { ShowsWellFormulas }
{
    typed_tables();
}
