//! Paths in trees, and places in formulas.
ghost use Rattle.std.specs.Prelude.{◌≡◌, ◌==◌, not, drop, IfOk};
ghost use Rattle.std.specs.List.{prefix_len};
ghost use Rattle.step_items.specs.Paths.{path_of};

use crate::numbers::number_of;
use formula_core::{List, OutOfMemory};
use sequent_core::Path;
use std::alloc::Global;

/// How many bytes stand before the first dot.
fn before_dot(bytes: &[u8]) -> usize
    ensures { result ≡ prefix_len (λ c. not (c == 46)) bytes.now }
{
    bytes.iter().take_while(|c| **c != b'.').count()
}

/// What follows a dot.
fn behind_dot(bytes: &[u8]) -> &[u8]
    ensures { result.now ≡ drop 1 bytes.now }
{
    match bytes {
        [_, rest @ ..] => rest,
        [] => bytes,
    }
}

/// The path that the word is: `-` for the root, else numbers with dots between them.
pub fn path_of(alloc: Global, word: &[u8]) -> Result<Option<Path>, OutOfMemory>
    ensures { IfOk result (λ path. path ≡ path_of word.now) }
{
    let mut numbers = Vec::new(alloc);
    if word == b"-".as_slice() {
        return Ok(Some(List::of(numbers)));
    }
    let mut rest = word;
    let mut at = before_dot(rest);
    while at < rest.len() {
        let (part, behind) = rest.split_at(at);
        let Some(number) = number_of(part) else {
            return Ok(None);
        };
        numbers.push(number)?;
        rest = behind_dot(behind);
        at = before_dot(rest);
    }
    let Some(number) = number_of(rest) else {
        return Ok(None);
    };
    numbers.push(number)?;
    Ok(Some(List::of(numbers)))
}
