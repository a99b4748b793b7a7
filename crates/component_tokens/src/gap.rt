//! Blanks and comments.

ghost use Rattle.std.specs.Prelude.{◌≡◌, ◌+◌, ◌≤◌, length, IfSome};
ghost use Rattle.component_tokens.specs.Gaps.{line_length, closes, closing, behind_slash, comment_in, gap_in};

use math_tokens::blank_length;

/// What a text begins with that is no token.
#[derive(Clone, Copy, Debug, PartialEq, Eq)]
pub enum Gap {
    /// Neither a blank nor a comment.
    Nothing,
    /// A blank or a comment of so many bytes.
    Bytes(usize),
    /// A comment without an end.
    OpenComment,
}

/// How many bytes stand before the end of the line.
fn line_length(bytes: &[u8]) -> usize
    ensures value { result ≡ line_length bytes.now }
    ensures within { result ≤ length bytes.now }
{
    let mut n = 0;
    while n < bytes.len() && bytes[n] != b'\n' {
        n += 1;
    }
    n
}

fn closes(bytes: &[u8]) -> bool
    ensures { result ≡ closes bytes.now }
{
    match bytes {
        [b'*', b'/', ..] => true,
        _ => false,
    }
}

/// How many bytes the first `*/` ends.
fn closing(bytes: &[u8]) -> Option<usize>
    ensures value { result ≡ closing bytes.now }
    ensures within { IfSome result (λ n. n ≤ 1 + length bytes.now) }
{
    for i in 0..bytes.len() {
        if closes(&bytes[i..]) {
            return Some(i + 2);
        }
    }
    None
}

/// What a `/` begins, by what stands behind it.
fn behind_slash(bytes: &[u8]) -> Gap
    ensures { result ≡ behind_slash bytes.now }
{
    match bytes {
        [b'/', rest @ ..] => Gap::Bytes(2 + line_length(rest)),
        [b'*', rest @ ..] => match closing(rest) {
            Some(length) => Gap::Bytes(2 + length),
            None => Gap::OpenComment,
        },
        _ => Gap::Nothing,
    }
}

fn comment_in(bytes: &[u8]) -> Gap
    ensures { result ≡ comment_in bytes.now }
{
    match bytes {
        [b'/', rest @ ..] => behind_slash(rest),
        _ => Gap::Nothing,
    }
}

/// The blank or the comment at the front of a text.
pub(crate) fn gap_in(bytes: &[u8]) -> Gap
    ensures { result ≡ gap_in bytes.now }
{
    let blank = blank_length(bytes);
    if 0 < blank {
        Gap::Bytes(blank)
    } else {
        comment_in(bytes)
    }
}
