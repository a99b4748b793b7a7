//! Numbers of a command.
ghost use Rattle.std.specs.Prelude.{◌≡◌, ◌<◌, ◌≤◌, ◌-◌, ◌^◌, pos, neg_ℤ, min};
ghost use Rattle.std.specs.List.{list_all};
ghost use Rattle.std.specs.Option.{option_map};
ghost use Rattle.math_tokens.specs.Lexemes.{is_digit, is_digits, value_of};
ghost use Rattle.step_items.specs.Numbers.{number_at_most, multiplier_of};

/// The least number of 128 bits, without its minus.
const LEAST: u128 = 170141183460469231731687303715884105728;

fn is_digit(c: u8) -> bool
    ensures { result ≡ is_digit c }
{
    c.is_ascii_digit()
}

fn are_digits(digits: &[u8]) -> bool
    ensures { result ≡ list_all is_digit digits.now }
{
    digits.iter().all(|c| is_digit(*c))
}

fn is_digits(word: &[u8]) -> bool
    ensures { result ≡ is_digits word.now }
{
    match word.split_first() {
        Some((first, rest)) => is_digit(*first) && are_digits(rest),
        None => false,
    }
}

/// The value of digits, or the greatest number of 128 bits where it is less.
fn value_of(digits: &[u8]) -> u128
    ensures { result ≡ min (value_of digits.now) (2 ^ 128 - 1) }
{
    let mut value: u128 = 0;
    for digit in digits {
        value = value
            .saturating_mul(10)
            .saturating_add(digit.saturating_sub(b'0') as u128);
    }
    value
}

/// The number that the word is in digits, where it is at most so much.
fn number_up_to(word: &[u8], most: u128) -> Option<u128>
    requires { most < 2 ^ 128 - 1 }
    ensures { result ≡ number_at_most most word.now }
{
    if !is_digits(word) {
        return None;
    }
    let value = value_of(word);
    if value <= most { Some(value) } else { None }
}

/// The number of 32 bits that the word is in digits.
pub fn number_of(word: &[u8]) -> Option<u32>
    ensures { result ≡ number_at_most 4294967295 word.now }
{
    match number_up_to(word, u32::MAX as u128) {
        Some(value) => Some(value as u32),
        None => None,
    }
}

/// The number of 8 bits that the word is in digits.
pub fn small_number_of(word: &[u8]) -> Option<u8>
    ensures { result ≡ number_at_most 255 word.now }
{
    match number_up_to(word, u8::MAX as u128) {
        Some(value) => Some(value as u8),
        None => None,
    }
}

/// The negated number.
fn negated(value: u128) -> i128
    requires { value ≤ 2 ^ 127 }
    ensures { result ≡ neg_ℤ (pos value) }
{
    if value == LEAST {
        return i128::MIN;
    }
    -(value as i128)
}

/// The number that the digits are behind a minus.
fn negative(digits: &[u8]) -> Option<i128>
    ensures { result ≡ option_map (λ n. neg_ℤ (pos n)) (number_at_most (2 ^ 127) digits.now) }
{
    match number_up_to(digits, LEAST) {
        Some(value) => Some(negated(value)),
        None => None,
    }
}

/// The number that the word is without a minus.
fn positive(word: &[u8]) -> Option<i128>
    ensures { result ≡ option_map pos (number_at_most (2 ^ 127 - 1) word.now) }
{
    match number_up_to(word, LEAST - 1) {
        Some(value) => Some(value as i128),
        None => None,
    }
}

/// The number of 128 bits that the word is in digits, with a minus before them or without.
pub fn multiplier_of(word: &[u8]) -> Option<i128>
    ensures { result ≡ multiplier_of word.now }
{
    match word {
        [] => None,
        [c, digits @ ..] => {
            if *c == b'-' {
                negative(digits)
            } else {
                positive(word)
            }
        }
    }
}
