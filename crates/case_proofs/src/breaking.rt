//! The ways in which a formula is true, or false, by its outermost connective.
ghost use Rattle.std.specs.Prelude.{◌≡◌, ◌↔◌, ◌∷◌, [], IfOk, IsTrue};
ghost use Rattle.case_proofs.specs.PrivateWays.{apart, together, ways, ways_in, ways_of_two};

use crate::standing::Said;
use formula_core::{Formula, List, Op, OutOfMemory};
use formula_readings::{joins_two, negates};
use std::alloc::Global;

/// Whether no connective heads it.
pub(crate) fn is_basic(x: &Said) -> bool
    ensures { IsTrue result ↔ (ways x.now ≡ []) }
{
    match x.formula {
        Formula::Node(op, parts, _) => match parts.items() {
            [_] => !negates(*op),
            [_, _] => !joins_two(*op),
            _ => true,
        },
        _ => true,
    }
}

/// The ways in which it is as it is said.
pub(crate) fn ways<'a>(alloc: Global, x: &Said<'a>) -> Result<List<List<Said<'a>>>, OutOfMemory>
    ensures { IfOk result (λ o. o ≡ ways x.now) }
{
    match x.formula {
        Formula::Node(op, parts, _) => ways_in(alloc, *op, parts.items(), x.sign),
        _ => Ok(List::of(Vec::new(alloc))),
    }
}

fn ways_in(
    alloc: Global,
    op: Op,
    parts: &[Formula],
    sign: bool,
) -> Result<List<List<Said<'_>>>, OutOfMemory>
    ensures { IfOk result (λ o. o ≡ ways_in op parts.now sign) }
{
    match parts {
        [p] => {
            if negates(op) {
                one_of(alloc, Said::of(p, !sign))
            } else {
                Ok(List::of(Vec::new(alloc)))
            }
        }
        [p, q] => ways_of_two(alloc, op, sign, p, q),
        _ => Ok(List::of(Vec::new(alloc))),
    }
}

fn ways_of_two<'a>(
    alloc: Global,
    op: Op,
    sign: bool,
    p: &'a Formula,
    q: &'a Formula,
) -> Result<List<List<Said<'a>>>, OutOfMemory>
    ensures { IfOk result (λ o. o ≡ ways_of_two op sign p.now q.now) }
{
    match op {
        Op::And => {
            if sign {
                together(alloc, Said::of(p, true), Said::of(q, true))
            } else {
                apart(alloc, Said::of(p, false), Said::of(q, false))
            }
        }
        Op::Or => {
            if sign {
                apart(alloc, Said::of(p, true), Said::of(q, true))
            } else {
                together(alloc, Said::of(p, false), Said::of(q, false))
            }
        }
        Op::Implies => {
            if sign {
                apart(alloc, Said::of(p, false), Said::of(q, true))
            } else {
                together(alloc, Said::of(p, true), Said::of(q, false))
            }
        }
        Op::Equivalent => same_or_not(alloc, sign, p, q),
        _ => Ok(List::of(Vec::new(alloc))),
    }
}

/// Both are false or both true, or one is false and the other true.
fn same_or_not<'a>(
    alloc: Global,
    sign: bool,
    p: &'a Formula,
    q: &'a Formula,
) -> Result<List<List<Said<'a>>>, OutOfMemory>
    ensures { IfOk result (λ o. o ≡ ways_of_two Op.Equivalent sign p.now q.now) }
{
    let first = two(alloc, Said::of(p, false), Said::of(q, !sign))?;
    let second = two(alloc, Said::of(p, true), Said::of(q, sign))?;
    let mut out = Vec::new(alloc);
    out.push(first)?;
    out.push(second)?;
    Ok(List::of(out))
}

fn one<'a>(alloc: Global, x: Said<'a>) -> Result<List<Said<'a>>, OutOfMemory>
    ensures { IfOk result (λ o. o ≡ x.entry ∷ []) }
{
    let mut out = Vec::new(alloc);
    out.push(x)?;
    Ok(List::of(out))
}

fn two<'a>(alloc: Global, x: Said<'a>, y: Said<'a>) -> Result<List<Said<'a>>, OutOfMemory>
    ensures { IfOk result (λ o. o ≡ x.entry ∷ y.entry ∷ []) }
{
    let mut out = Vec::new(alloc);
    out.push(x)?;
    out.push(y)?;
    Ok(List::of(out))
}

fn one_of<'a>(alloc: Global, x: Said<'a>) -> Result<List<List<Said<'a>>>, OutOfMemory>
    ensures { IfOk result (λ o. o ≡ (x.entry ∷ []) ∷ []) }
{
    let mut out = Vec::new(alloc);
    out.push(one(alloc, x)?)?;
    Ok(List::of(out))
}

fn together<'a>(
    alloc: Global,
    x: Said<'a>,
    y: Said<'a>,
) -> Result<List<List<Said<'a>>>, OutOfMemory>
    ensures { IfOk result (λ o. o ≡ together x.entry y.entry) }
{
    let mut out = Vec::new(alloc);
    out.push(two(alloc, x, y)?)?;
    Ok(List::of(out))
}

fn apart<'a>(alloc: Global, x: Said<'a>, y: Said<'a>) -> Result<List<List<Said<'a>>>, OutOfMemory>
    ensures { IfOk result (λ o. o ≡ apart x.entry y.entry) }
{
    let first = one(alloc, x)?;
    let second = one(alloc, y)?;
    let mut out = Vec::new(alloc);
    out.push(first)?;
    out.push(second)?;
    Ok(List::of(out))
}
