//! Heading lines and their names.
ghost use Rattle.std.specs.Prelude.{◌≡◌, IfSome, true};
ghost use Rattle.std.specs.List.{prefix_len};
ghost use Rattle.std.specs.Option.{option_map};
ghost use Rattle.formula_core.specs.Names.{is_in_word, is_identifier};
ghost use Rattle.check_input.specs.Headings.{is_blank_text, past_blanks, goes_on_with_prime, name_in_front, is_heading_word, heading_of};

use formula_core::{is_identifier, is_in_word};
use math_tokens::blank_length;

/// How many bytes each of the words `context` and `machine` has.
const HEADING_WORD_LENGTH: usize = 7;

/// The name of a heading line, as a text.
pub fn heading_name(line: &str) -> Option<&str>
    ensures heading { option_map (λ name. name.now) result ≡ heading_of line.now }
    ensures identifier { IfSome result (λ name. is_identifier name.now ≡ true) }
{
    let name = heading_of(line.as_bytes())?;
    Some(text_of(name))
}

/// The text that an identifier is.
fn text_of(word: &[u8]) -> &str
    requires { is_identifier word.now ≡ true }
    ensures { result.now ≡ word.now }
{
    let Ok(text) = std::str::from_utf8(word) else {
        unreachable!()
    };
    text
}

/// The name of a heading line.
pub fn heading_of(line: &[u8]) -> Option<&[u8]>
    ensures { option_map (λ name. name.now) result ≡ heading_of line.now }
{
    let (word, rest) = line.split_at(line.len().min(HEADING_WORD_LENGTH));
    let behind = past_blanks(rest);
    if is_heading_word(word) && behind.len() < rest.len() {
        name_in_front(behind)
    } else {
        None
    }
}

fn is_heading_word(word: &[u8]) -> bool
    ensures { result ≡ is_heading_word word.now }
{
    word == "context".as_bytes() || word == "machine".as_bytes()
}

/// The name with which the text begins: its longest word, if that isn't reserved and has no prime behind it.
fn name_in_front(text: &[u8]) -> Option<&[u8]>
    ensures { option_map (λ name. name.now) result ≡ name_in_front text.now }
{
    let (word, rest) = text.split_at(word_length(text));
    if is_identifier(word) && !goes_on_with_prime(rest) {
        Some(word)
    } else {
        None
    }
}

/// How many characters of words the text begins with.
fn word_length(text: &[u8]) -> usize
    ensures { result ≡ prefix_len is_in_word text.now }
{
    text.iter().take_while(|c| is_in_word(**c)).count()
}

fn goes_on_with_prime(text: &[u8]) -> bool
    ensures { result ≡ goes_on_with_prime text.now }
{
    match text {
        [b'\'', ..] => true,
        _ => false,
    }
}

pub fn is_blank_text(bytes: &[u8]) -> bool
    ensures { result ≡ is_blank_text bytes.now }
{
    past_blanks(bytes).is_empty()
}

/// What stands behind the blanks with which the bytes begin.
fn past_blanks(bytes: &[u8]) -> &[u8]
    ensures { result.now ≡ past_blanks bytes.now }
{
    let mut rest = bytes;
    let mut blank = blank_length(rest);
    while 0 < blank {
        rest = &rest[blank..];
        blank = blank_length(rest);
    }
    rest
}
