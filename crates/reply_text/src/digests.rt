//! The texts of digests.
ghost use Rattle.std.specs.Prelude.{◌≡◌, ◌++◌, ◌∷◌, [], ◌<◌, OnOk, string_bytes};
ghost use Rattle.reply_text.specs.Digests.{hex_digit, hex_pair, hex_text};
ghost use Rattle.reply_text.specs.Statuses.{line};

use crate::pieces::add_words;
use formula_core::OutOfMemory;

/// The lower-case hexadecimal digit of a number below 16.
fn hex_digit(value: u8) -> u8
    requires { value < 16 }
    ensures digit { result ≡ hex_digit value }
    ensures ascii { result < 128 }
{
    if value < 10 {
        b'0' + value
    } else {
        b'a' - 10 + value
    }
}

fn add_digit(out: &mut String, value: u8) -> Result<(), OutOfMemory>
    requires { value < 16 }
    ensures { OnOk result (string_bytes out.new ≡ string_bytes out.old ++ hex_digit value ∷ []) }
{
    out.push(hex_digit(value) as char)?;
    Ok(())
}

fn add_byte(out: &mut String, byte: u8) -> Result<(), OutOfMemory>
    ensures { OnOk result (string_bytes out.new ≡ string_bytes out.old ++ hex_pair byte) }
{
    add_digit(out, byte / 16)?;
    add_digit(out, byte % 16)
}

/// Adds each byte in two digits, and a line feed.
pub fn add_digest(out: &mut String, bytes: &[u8]) -> Result<(), OutOfMemory>
    ensures { OnOk result (string_bytes out.new ≡ string_bytes out.old ++ line (hex_text bytes.now)) }
{
    for byte in bytes {
        add_byte(out, *byte)?;
    }
    add_words(out, "\n")
}
