//! Texts as values of a type.
ghost use Rattle.std.specs.Prelude.{◌≡◌, ◌≤◌, ◌+◌, ◌++◌, IfOk, OnOk, MatchOption, drop, None, Some, length, pos, codes, ◌∷◌, [], ◌<◌, ◌-◌, ◌^◌, neg_ℤ, min, Err};
ghost use Rattle.std.specs.Option.{option_map, option_and_then, option_copied};
ghost use Rattle.std.specs.Str.{all_ascii_digits};
ghost use Rattle.event_values.specs.declared.value.Value.TheVariants as value;
ghost use Rattle.event_values.specs.Order.{ascending};
ghost use Rattle.event_values.specs.Reading.{number_below, number_after, text_digits, text_number, between_signs, is_cut_at, depth_after, comma_pieces, piece_end, text_truth, text_element_number, text_element, text_values, text_members, text_set, text_value, read_as};

use crate::lists::ascending;
use crate::typing::size_of;
use crate::value::Value;
use formula_core::{Boxed, List, Name, OutOfMemory, Ty};
use std::alloc::Global;

/// Why a text was not read as a value.
#[derive(Clone, Copy, Debug, PartialEq, Eq)]
pub enum ReadValueFault {
    /// The text isn't a value of the type, or the value has more than 65,536 nodes.
    BadValue,
    OutOfMemory,
}

impl From<OutOfMemory> for ReadValueFault {
    ghost use Rattle.std.specs.Prelude.{◌≡◌};
    ghost use Rattle.event_values.specs.declared.reading.ReadValueFault.TheVariants.{OutOfMemory};

    ghost from_gives = { λ _ e. e ≡ OutOfMemory };

    fn from(_: OutOfMemory) -> ReadValueFault {
        ReadValueFault::OutOfMemory
    }
}

/// The value of the type that a text writes, where carrier sets have these sizes.
///
/// Members of a set stand in any order, and repeats count once.
pub fn read_value(
    alloc: Global,
    text: &str,
    ty: &Ty,
    sizes: &[(Name, u32)],
) -> Result<Value, ReadValueFault>
    ensures read { IfOk result (λ v. read_as sizes.now ty.now text.now ≡ Some v) }
    ensures bad { result ≡ Err ReadValueFault.BadValue → read_as sizes.now ty.now text.now ≡ None }
{
    match value_in(alloc, text.as_bytes(), ty, sizes)? {
        Some(v) => {
            if v.nodes() <= 65_536 {
                Ok(v)
            } else {
                Err(ReadValueFault::BadValue)
            }
        }
        None => Err(ReadValueFault::BadValue),
    }
}

#[cycle(reading)]
#[tactic(auto, using(crate::proofs::ReadParts::brackets))]
fn value_in(
    alloc: Global,
    text: &[u8],
    ty: &Ty,
    sizes: &[(Name, u32)],
) -> Result<Option<Value>, OutOfMemory>
    ensures { IfOk result (λ v. v ≡ text_value sizes.now ty.now text.now) }
{
    match ty {
        Ty::Int => Ok(number_value(text)),
        Ty::Bool | Ty::Truth => Ok(truth_value(text)),
        Ty::Given(set) => element_value(alloc, sizes, set, text),
        Ty::Pow(member) => match inside(text, b"{", b"}") {
            Some(inner) => {
                let members = members_in(alloc, inner, member.get(), sizes)?;
                set_of(alloc, members)
            }
            None => Ok(None),
        },
        Ty::Pair(left, right) => match inside(text, b"(", b")") {
            Some(inner) => {
                let end = piece_end(inner);
                match behind(inner, end) {
                    Some(later) => {
                        let left = value_in(alloc, &inner[..end], left.get(), sizes)?;
                        let right = value_in(alloc, later, right.get(), sizes)?;
                        pair_of(alloc, left, right)
                    }
                    None => Ok(None),
                }
            }
            None => Ok(None),
        },
    }
}

/// The members that stand between the brackets of a set.
#[cycle(reading)]
fn members_in(
    alloc: Global,
    text: &[u8],
    ty: &Ty,
    sizes: &[(Name, u32)],
) -> Result<Option<List<Value>>, OutOfMemory>
    ensures { IfOk result (λ vs. vs ≡ text_members (text_value sizes.now ty.now) text.now) }
{
    if text.is_empty() {
        return Ok(Some(List::of(Vec::new(alloc))));
    }
    values_in(alloc, text, ty, sizes)
}

/// The values that a text has, cut at its commas in no brackets.
#[cycle(reading)]
#[tactic(auto, using(crate::proofs::Cutting::steps))]
fn values_in(
    alloc: Global,
    text: &[u8],
    ty: &Ty,
    sizes: &[(Name, u32)],
) -> Result<Option<List<Value>>, OutOfMemory>
    ensures { IfOk result (λ vs. vs ≡ text_values (text_value sizes.now ty.now) (comma_pieces 0 text.now)) }
{
    let mut found = Vec::new(alloc);
    let mut rest = text;
    loop {
        let end = piece_end(rest);
        let Some(v) = value_in(alloc, &rest[..end], ty, sizes)? else {
            return Ok(None);
        };
        add(v, &mut found)?;
        match behind(rest, end) {
            Some(later) => rest = later,
            None => return Ok(Some(List::of(found))),
        }
    }
}

fn add(v: Value, found: &mut Vec<Value>) -> Result<(), OutOfMemory>
    ensures { OnOk result (found.new.items ≡ found.old.items ++ v ∷ []) }
{
    found.push(v)?;
    Ok(())
}

/// What stands behind the sign at a place, if there is one.
fn behind(text: &[u8], at: usize) -> Option<&[u8]>
    ensures { MatchOption result (length text.now ≤ at)
        (λ later. (at < length text.now) × (later.now ≡ drop (at + 1) text.now)) }
{
    if at < text.len() {
        Some(&text[at + 1..])
    } else {
        None
    }
}

fn set_of(alloc: Global, members: Option<List<Value>>) -> Result<Option<Value>, OutOfMemory>
    ensures { IfOk result (λ set. set ≡ option_map (λ vs. value.Set (ascending vs)) members) }
{
    match members {
        Some(members) => Ok(Some(Value::Set(ascending(alloc, members.into_vec())?))),
        None => Ok(None),
    }
}

fn pair_of(
    alloc: Global,
    left: Option<Value>,
    right: Option<Value>,
) -> Result<Option<Value>, OutOfMemory>
    ensures { IfOk result (λ pair. pair ≡ option_and_then (λ v. option_map (value.Pair v) right) left) }
{
    match left {
        Some(v) => match right {
            Some(w) => {
                let v = Boxed::new(alloc, v)?;
                let w = Boxed::new(alloc, w)?;
                Ok(Some(Value::Pair(v, w)))
            }
            None => Ok(None),
        },
        None => Ok(None),
    }
}

fn all_digits(text: &[u8]) -> bool
    ensures { result ≡ all_ascii_digits text.now }
{
    for c in text {
        if !c.is_ascii_digit() {
            return false;
        }
    }
    true
}

/// The number that digits write, and no more than 2^128 - 1.
#[tactic(auto, using(crate::proofs::Digits::digit_taken))]
fn digits_number(text: &[u8]) -> u128
    ensures { result ≡ min (number_after 0 text.now) (2 ^ 128 - 1) }
{
    let mut n: u128 = 0;
    for c in text {
        n = n
            .saturating_mul(10)
            .saturating_add(u128::from(c.saturating_sub(b'0')));
    }
    n
}

/// The number that digits write, below a bound.
fn digits_below(text: &[u8], bound: u128) -> Option<u128>
    ensures { result ≡ number_below bound (text_digits text.now) }
{
    if text.is_empty() || !all_digits(text) {
        return None;
    }
    let n = digits_number(text);
    if n < bound { Some(n) } else { None }
}

/// The number with - before it.
fn negated(n: u128) -> i128
    requires { n ≤ 2 ^ 127 }
    ensures { result ≡ neg_ℤ (pos n) }
{
    if n == 0 { 0 } else { -((n - 1) as i128) - 1 }
}

fn integer_value(text: &[u8]) -> Option<i128>
    ensures { result ≡ text_number text.now }
{
    match text {
        [] => None,
        [first, rest @ ..] => {
            if *first == b'-' {
                let n = digits_below(rest, (1 << 127) + 1)?;
                Some(negated(n))
            } else {
                let n = digits_below(text, 1 << 127)?;
                Some(n as i128)
            }
        }
    }
}

fn number_value(text: &[u8]) -> Option<Value>
    ensures { result ≡ option_map value.Int (text_number text.now) }
{
    let n = integer_value(text)?;
    Some(Value::Int(n))
}

fn truth_value(text: &[u8]) -> Option<Value>
    ensures { result ≡ text_truth text.now }
{
    if text == b"TRUE".as_slice() {
        Some(Value::Truth(true))
    } else if text == b"FALSE".as_slice() {
        Some(Value::Truth(false))
    } else {
        None
    }
}

/// The number of an element behind # and the name of its carrier set.
fn element_number(text: &[u8], set: &[u8], size: u32) -> Option<u32>
    ensures { result ≡ text_element_number set.now size text.now }
{
    let digits = text.strip_prefix(set)?.strip_prefix(b"#")?;
    let k = digits_below(digits, u128::from(size))?;
    Some(k as u32)
}

fn element_value(
    alloc: Global,
    sizes: &[(Name, u32)],
    set: &Name,
    text: &[u8],
) -> Result<Option<Value>, OutOfMemory>
    ensures { IfOk result (λ v. v ≡ text_element sizes.now set.now text.now) }
{
    let Some(size) = size_of(sizes, set) else {
        return Ok(None);
    };
    match element_number(text, set.as_text().as_bytes(), size) {
        Some(k) => Ok(Some(Value::Elem(set.copy(alloc)?, k))),
        None => Ok(None),
    }
}

/// What stands between two brackets.
fn inside<'a>(text: &'a [u8], open_sign: &[u8], close_sign: &[u8]) -> Option<&'a [u8]>
    ensures { option_copied result ≡ between_signs open_sign.now close_sign.now text.now }
{
    text.strip_prefix(open_sign)?.strip_suffix(close_sign)
}

fn depth_after(depth: usize, c: u8) -> usize
    requires { depth < 2 ^ 64 - 1 }
    ensures { result ≡ depth_after depth c }
{
    match c {
        b'(' | b'{' => depth + 1,
        b')' | b'}' => depth.saturating_sub(1),
        _ => depth,
    }
}

/// The length of the first piece of a text that is cut at its commas in no brackets.
fn piece_end(text: &[u8]) -> usize
    ensures within { result ≤ length text.now }
    ensures exact { result ≡ piece_end 0 text.now }
{
    let mut depth = 0;
    for i in 0..text.len() {
        if text[i] == b',' && depth == 0 {
            return i;
        }
        depth = depth_after(depth, text[i]);
    }
    text.len()
}
