//! The longest token at the front of a text.

ghost use Rattle.std.specs.Prelude.{◌≡◌, ◌≤◌, ◌^◌, length, IsTrue, MatchOption, pos};
ghost use Rattle.std.specs.List.{prefix_len};
ghost use Rattle.formula_core.specs.Names.{starts_word, is_in_word};
ghost use Rattle.math_tokens.specs.Lexemes.{is_digit, value_of};
ghost use Rattle.math_tokens.specs.Private.{are_groups, word_length, name_length, table, HasLexeme, choice};

use crate::signs::longest_form;
use formula_core::is_in_word;

/// What a token is.
#[derive(Clone, Copy, Debug, PartialEq, Eq)]
pub enum Lexeme {
    Sign(u8),
    Word,
    Primed,
    Number,
}

fn starts_word(c: u8) -> bool
    ensures { result ≡ starts_word c }
{
    c.is_ascii_alphabetic() || c == b'_'
}

/// How many bytes at the front are part of one word.
fn run_length(bytes: &[u8]) -> usize
    ensures within { result ≤ length bytes.now }
    ensures value { result ≡ prefix_len is_in_word bytes.now }
{
    let mut n = 0;
    while n < bytes.len() && is_in_word(bytes[n]) {
        n += 1;
    }
    n
}

fn word_length(bytes: &[u8]) -> usize
    ensures { result ≡ word_length bytes.now }
{
    match bytes {
        [first, rest @ ..] => {
            if starts_word(*first) {
                1 + run_length(rest)
            } else {
                0
            }
        }
        [] => 0,
    }
}

fn digits_length(bytes: &[u8]) -> usize
    ensures { result ≡ prefix_len is_digit bytes.now }
{
    let mut n = 0;
    while n < bytes.len() && bytes[n].is_ascii_digit() {
        n += 1;
    }
    n
}

/// How many bytes at the front are a word, with a prime directly after it.
fn name_length(bytes: &[u8], word: usize) -> usize
    requires { word ≡ word_length bytes.now }
    ensures { result ≡ name_length bytes.now }
{
    if 0 < word && word < bytes.len() && bytes[word] == b'\'' {
        word + 1
    } else {
        word
    }
}

fn choose(
    sign: Option<(usize, u8)>,
    word: usize,
    name: usize,
    digits: usize,
) -> Option<(usize, Lexeme)>
    ensures { result ≡ choice sign word name digits }
{
    if let Some((len, number)) = sign {
        if name <= len && digits <= len {
            return Some((len, Lexeme::Sign(number)));
        }
    }
    if name < digits {
        Some((digits, Lexeme::Number))
    } else if word < name {
        Some((name, Lexeme::Primed))
    } else if 0 < word {
        Some((word, Lexeme::Word))
    } else {
        None
    }
}

/// The longest token at the front of a text: how many bytes it has, and what it is.
pub fn longest_lexeme(
    forms: &[(&str, u8)],
    starts: &[u8; 257],
    bytes: &[u8],
) -> Option<(usize, Lexeme)>
    requires { IsTrue (are_groups forms.now 0 starts.now) }
    ensures { HasLexeme (table forms.now) bytes.now result }
{
    let sign = longest_form(forms, starts, bytes);
    let word = word_length(bytes);
    let name = name_length(bytes, word);
    let digits = digits_length(bytes);
    choose(sign, word, name, digits)
}

const MOST: u128 = 170141183460469231731687303715884105727;

/// The value of a run of digits, where it is below 2^127.
pub fn number(digits: &[u8]) -> Option<i128>
    ensures { MatchOption result (2 ^ 127 ≤ value_of digits.now) (λ n. n ≡ pos (value_of digits.now)) }
{
    let mut value: u128 = 0;
    for digit in digits {
        let last = digit.saturating_sub(b'0') as u128;
        if value > (MOST - last) / 10 {
            return None;
        }
        value = value * 10 + last;
    }
    Some(value as i128)
}
