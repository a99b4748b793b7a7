//! Reading of items.
ghost use Rattle.std.specs.Prelude.{◌≡◌, ◌≤◌, IfOk, drop, length};
ghost use Rattle.std.specs.Option.{option_map};
ghost use Rattle.step_items.specs.Items.{multiplied, hyp_item, name_item, law_item, lettered, item_in, written_items};
ghost use Rattle.step_items.specs.Private.{is_marked, before_mark};

use crate::bytes::behind_first;
use crate::item::Item;
use crate::numbers::{multiplier_of, number_of, small_number_of};
use crate::paths::path_of;
use formula_core::{List, OutOfMemory};
use formula_parse::read_name;
use session_lines::{after_blanks, first_word, only_word};
use std::alloc::Global;

/// A hypothesis, and its multiplier where a word follows.
fn multiplied(number: u32, rest: &[u8]) -> Option<Item>
    ensures { result ≡ multiplied number rest.now }
{
    if rest.is_empty() {
        return Some(Item::Hyp(number));
    }
    let multiplier = multiplier_of(only_word(rest)?)?;
    Some(Item::Multiplied(number, multiplier))
}

/// `h N` or `h N K`
fn hyp_item(words: &[u8]) -> Option<Item>
    ensures { result ≡ hyp_item words.now }
{
    match number_of(first_word(words)) {
        Some(number) => multiplied(number, behind_first(words)),
        None => None,
    }
}

/// `n NAME`
fn name_item(alloc: Global, words: &[u8]) -> Result<Option<Item>, OutOfMemory>
    ensures { IfOk result (λ item. item ≡ name_item words.now) }
{
    let Some(word) = only_word(words) else {
        return Ok(None);
    };
    match read_name(alloc, word)? {
        Some(name) => Ok(Some(Item::Fresh(name))),
        None => Ok(None),
    }
}

/// `w LAW PLACE`
fn law_item(alloc: Global, words: &[u8]) -> Result<Option<Item>, OutOfMemory>
    ensures { IfOk result (λ item. item ≡ law_item words.now) }
{
    let Some(law) = small_number_of(first_word(words)) else {
        return Ok(None);
    };
    let Some(word) = only_word(behind_first(words)) else {
        return Ok(None);
    };
    match path_of(alloc, word)? {
        Some(place) => Ok(Some(Item::Law(law, place))),
        None => Ok(None),
    }
}

fn copied(alloc: Global, bytes: &[u8]) -> Result<List<u8>, OutOfMemory>
    ensures { IfOk result (λ copy. copy ≡ bytes.now) }
{
    let mut copy = Vec::new(alloc);
    copy.extend_from_slice(bytes)?;
    Ok(List::of(copy))
}

/// An item by its letter and what follows it.
fn lettered(alloc: Global, letter: &[u8], rest: &[u8]) -> Result<Option<Item>, OutOfMemory>
    ensures { IfOk result (λ item. item ≡ lettered letter.now rest.now) }
{
    if letter == b"h".as_slice() {
        Ok(hyp_item(rest))
    } else if letter == b"n".as_slice() {
        name_item(alloc, rest)
    } else if letter == b"e".as_slice() {
        Ok(Some(Item::Expression(copied(alloc, rest)?)))
    } else if letter == b"p".as_slice() {
        Ok(Some(Item::Predicate(copied(alloc, rest)?)))
    } else if letter == b"w".as_slice() {
        law_item(alloc, rest)
    } else {
        Ok(None)
    }
}

/// The item that the bytes are.
fn item_of(alloc: Global, bytes: &[u8]) -> Result<Option<Item>, OutOfMemory>
    ensures { IfOk result (λ item. item ≡ item_in bytes.now) }
{
    let words = after_blanks(bytes);
    lettered(alloc, first_word(words), behind_first(words))
}

/// Whether a double semicolon stands in front.
fn is_marked(bytes: &[u8]) -> bool
    ensures { result ≡ is_marked bytes.now }
{
    match bytes {
        [c, d, ..] => *c == b';' && *d == b';',
        _ => false,
    }
}

/// How many bytes stand before the first double semicolon.
fn before_mark(bytes: &[u8]) -> usize
    ensures place { result ≡ before_mark bytes.now }
    ensures within { result ≤ length bytes.now }
{
    for at in 0..bytes.len() {
        if is_marked(&bytes[at..]) {
            return at;
        }
    }
    bytes.len()
}

/// What follows a double semicolon.
fn behind_mark(bytes: &[u8]) -> &[u8]
    ensures { result.now ≡ drop 2 bytes.now }
{
    match bytes {
        [_, _, rest @ ..] => rest,
        [_, rest @ ..] => rest,
        [] => bytes,
    }
}

/// The items of a step, if each part between double semicolons is one. There may be none.
pub fn written_items(alloc: Global, bytes: &[u8]) -> Result<Option<Vec<Item>>, OutOfMemory>
    ensures { IfOk result (λ items. option_map (λ v. v.items) items ≡ written_items bytes.now) }
{
    let mut items = Vec::new(alloc);
    if bytes.is_empty() {
        return Ok(Some(items));
    }
    let mut rest = bytes;
    let mut at = before_mark(rest);
    while at < rest.len() {
        let (part, behind) = rest.split_at(at);
        let Some(item) = item_of(alloc, part)? else {
            return Ok(None);
        };
        items.push(item)?;
        rest = behind_mark(behind);
        at = before_mark(rest);
    }
    let Some(item) = item_of(alloc, rest)? else {
        return Ok(None);
    };
    items.push(item)?;
    Ok(Some(items))
}
