//! Pieces of texts.
ghost use Rattle.std.specs.Prelude.{◌≡◌, ◌++◌, ◌∷◌, OnOk, string_bytes};
ghost use Rattle.std.specs.Fmt.{decimal};
ghost use Rattle.reply_text.specs.Statuses.{line};

use formula_core::OutOfMemory;
use std::fmt::Write;

/// Adds words.
pub fn add_words(out: &mut String, words: &str) -> Result<(), OutOfMemory>
    ensures { OnOk result (string_bytes out.new ≡ string_bytes out.old ++ words.now) }
{
    out.push_str(words)?;
    Ok(())
}

/// Adds words and a line feed.
pub fn add_line(out: &mut String, words: &str) -> Result<(), OutOfMemory>
    ensures { OnOk result (string_bytes out.new ≡ string_bytes out.old ++ line words.now) }
{
    out.push_str(words)?;
    out.push_str("\n")?;
    Ok(())
}

/// Adds a number.
pub fn add_number(out: &mut String, number: u64) -> Result<(), OutOfMemory>
    ensures { OnOk result (string_bytes out.new ≡ string_bytes out.old ++ decimal number) }
{
    write!(out, "{number}")?;
    Ok(())
}
