ghost use Rattle.std.specs.Prelude.{◌≡◌, ◌≤◌, length};
ghost use Rattle.formula_core.specs.Texts.{begins_with_blank};
ghost use Rattle.session_lines.specs.Words.{after_blanks, length_to_blank, first_word, behind_word};

use math_tokens::blank_length;

/// What follows the blanks at the front of a line.
pub fn after_blanks(line: &[u8]) -> &[u8]
    ensures { result.now ≡ after_blanks line.now }
{
    let mut rest = line;
    let mut blank = blank_length(rest);
    while 0 < blank {
        rest = &rest[blank..];
        blank = blank_length(rest);
    }
    rest
}

fn begins_with_blank(line: &[u8]) -> bool
    ensures { result ≡ begins_with_blank line.now }
{
    blank_length(line) > 0
}

/// How many bytes stand before the first blank of a line.
fn word_length(line: &[u8]) -> usize
    ensures place { result ≡ length_to_blank line.now }
    ensures within { result ≤ length line.now }
{
    for at in 0..line.len() {
        if begins_with_blank(&line[at..]) {
            return at;
        }
    }
    line.len()
}

/// The bytes before the first blank of a line.
pub fn first_word(line: &[u8]) -> &[u8]
    ensures { result.now ≡ first_word line.now }
{
    line.split_at(word_length(line)).0
}

/// What stands from the first blank of a line on.
pub fn behind_word(line: &[u8]) -> &[u8]
    ensures { result.now ≡ behind_word line.now }
{
    line.split_at(word_length(line)).1
}
