//! Lines and columns.

ghost use Rattle.std.specs.Prelude.{◌≡◌, ◌<◌, ◌≤◌, ◌+◌, ◌^◌, length, take};
ghost use Rattle.component_tokens.specs.Positions.{continues_character, behind_byte, position_in_text};

/// A line and a column, each from 1. A column is one character.
#[derive(Clone, Copy, Debug, PartialEq, Eq)]
pub struct Position {
    pub line: usize,
    pub column: usize,
}

/// Whether the byte goes on with a character that an earlier one begins.
fn goes_on(byte: u8) -> bool
    ensures { result ≡ continues_character byte }
{
    128 <= byte && byte < 192
}

fn behind_byte(before: Position, byte: u8) -> Position
    requires line { before.line < 2 ^ 63 + 1 }
    requires column { before.column < 2 ^ 63 + 1 }
    ensures { result ≡ behind_byte before byte }
{
    if byte == b'\n' {
        Position {
            line: before.line + 1,
            column: 1,
        }
    } else if goes_on(byte) {
        before
    } else {
        Position {
            line: before.line,
            column: before.column + 1,
        }
    }
}

/// The line and the column of a byte place in a text.
pub fn position_of(text: &str, at: usize) -> Position
    requires { at ≤ length text.now }
    ensures { result ≡ position_in_text text.now at }
{
    let mut position = Position { line: 1, column: 1 };
    for byte in &text.as_bytes()[..at] {
        position = behind_byte(position, *byte);
    }
    position
}
