//! Cuts a text at its heading lines.
ghost use Rattle.std.specs.Prelude.{◌≡◌, ◌+◌, ◌^◌, ◌<◌, ◌≤◌, ◌++◌, [], not, ◌==◌, length, IfSome, MatchOption, true};
ghost use Rattle.std.specs.List.{prefix_len};
ghost use Rattle.formula_core.specs.Names.{is_identifier};
ghost use Rattle.check_input.specs.Inputs.{line_feeds};
ghost use Rattle.check_input.specs.PrivateCutting.{BeginsWithLine, IsBehindPlain, front_of, parts_behind, numbered_from, numbered_by};

use crate::headings::{heading_name, heading_of};

/// A component in the text, with the line of its heading.
#[derive(Clone, Copy)]
pub struct Piece<'a> {
    pub line: u32,
    pub name: &'a str,
    pub text: &'a str,
}

/// Lines at the end of a text, the first of which has this number.
#[derive(Clone, Copy)]
pub struct Rest<'a> {
    pub line: u32,
    pub text: &'a str,
}

/// The first component in these lines, and the lines behind it.
pub fn next_piece<'a>(rest: Rest<'a>) -> Option<(Piece<'a>, Rest<'a>)>
    requires small { rest.line + length rest.text.now ≤ 67108865 }
    ensures pieces { numbered_by result ≡ numbered_from rest.entry.line rest.entry.text.now }
    ensures name { IfSome result (λ x. is_identifier x.0.name.now ≡ true) }
    ensures small { IfSome result (λ x. x.1.line + length x.1.text.now ≤ 67108865) }
    ensures shorter { IfSome result (λ x. length x.1.text.now < length rest.entry.text.now) }
{
    let (front, part) = split_front(rest.text);
    let (heading, behind) = first_line(part);
    let name = heading_name(heading)?;
    let next = from_heading(behind);
    let (text, _) = rest.text.split_at(rest.text.len() - next.len());
    let piece = Piece {
        line: rest.line + line_feeds(front),
        name,
        text,
    };
    let behind = Rest {
        line: rest.line + line_feeds(text),
        text: next,
    };
    Some((piece, behind))
}

/// The lines before the first heading line, and those from it on.
fn split_front(text: &str) -> (&str, &str)
    ensures whole { text.now ≡ result.0.now ++ result.1.now }
    ensures front { front_of text.now ≡ result.0.now }
    ensures behind { front_of result.1.now ≡ [] }
    ensures parts { parts_behind text.now ≡ parts_behind result.1.now }
{
    let part = from_heading(text);
    text.split_at(text.len() - part.len())
}

/// The lines from the first heading line on.
fn from_heading(text: &str) -> &str
    ensures passes { IsBehindPlain text.now result.now }
    ensures stops { front_of result.now ≡ [] }
{
    let mut rest = text;
    while let Some(behind) = past_plain_line(rest) {
        rest = behind;
    }
    rest
}

/// What stands behind the first line, if that is no heading line.
fn past_plain_line(text: &str) -> Option<&str>
    ensures cases { MatchOption result (front_of text.now ≡ []) (λ behind. IsBehindPlain text.now behind.now) }
    ensures shorter { IfSome result (λ behind. length behind.now < length text.now) }
{
    let (line, behind) = first_line(text);
    if line.is_empty() {
        return None;
    }
    match heading_of(line.as_bytes()) {
        Some(_) => None,
        None => Some(behind),
    }
}

/// The first line with its line feed, and what stands behind it.
fn first_line(text: &str) -> (&str, &str)
    ensures { BeginsWithLine text.now result.0.now result.1.now }
{
    text.split_at(text.len().min(bytes_before_feed(text.as_bytes()) + 1))
}

/// How many bytes stand before the first line feed.
fn bytes_before_feed(text: &[u8]) -> usize
    ensures { result ≡ prefix_len (λ c. not (c == 10)) text.now }
{
    text.iter().take_while(|c| **c != b'\n').count()
}

fn line_feeds(text: &str) -> u32
    requires { length text.now < 2 ^ 32 }
    ensures { result ≡ line_feeds text.now }
{
    text.as_bytes().iter().filter(|c| **c == b'\n').count() as u32
}
