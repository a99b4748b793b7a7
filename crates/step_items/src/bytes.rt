//! Words and parts of a line.
ghost use Rattle.std.specs.Prelude.{◌≡◌};
ghost use Rattle.step_items.specs.Items.{behind_first};

use session_lines::{after_blanks, behind_word};

/// What follows the first word, from the next one on.
pub fn behind_first(words: &[u8]) -> &[u8]
    ensures { result.now ≡ behind_first words.now }
{
    after_blanks(behind_word(words))
}
