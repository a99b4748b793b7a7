//! Formulas that are said to be true, or to be false.
ghost use Rattle.std.specs.Prelude.{◌≡◌, ◌<◌, [], MatchOption, length, get_or, false, IfOk};
ghost use Rattle.std.specs.List.{AllByRecursion};
ghost use Rattle.case_proofs.specs.PrivateWays.{Signed, absurd_constant, contradicts, is_absurd, is_said, same_sign, signed, ways, with_way};

use crate::breaking::is_basic;
use formula_core::{Formula, List, Op, OutOfMemory};
use std::alloc::Global;
use std::marker::Model;

/// A formula that is said to be true, or to be false.
#[derive(Drop)]
pub(crate) struct Said<'a> {
    pub(crate) formula: &'a Formula,
    pub(crate) sign: bool,
}

impl<'a> Model for Said<'a> {
    ghost use Rattle.std.specs.Prelude.{Bool};
    ghost use Rattle.formula_core.specs.declared.Formula.{Formula};
    ghost use Rattle.formula_core.specs.contracts.formula.Formula as formula_type;
    ghost use Rattle.std.specs.Coded.{codes};

    ghost Value = { Formula × Bool };

    ghost coded = { Prim.hlevel (codes, formula_type.the_row.coded) };

    ghost view = { λ a. (a.formula.now, a.sign) };
}

impl<'a> Said<'a> {
    pub(crate) fn of(formula: &'a Formula, sign: bool) -> Said<'a>
        ensures { result ≡ signed formula.now sign }
    {
        Said { formula, sign }
    }

    pub(crate) fn again(&self) -> Said<'a>
        ensures { result ≡ self.now }
    {
        Said {
            formula: self.formula,
            sign: self.sign,
        }
    }
}

/// The place of the first that a connective heads.
pub(crate) fn first_compound(hyps: &[Said]) -> Option<usize>
    ensures { MatchOption result (AllByRecursion (λ x. ways x ≡ []) hyps.now)
        (λ i. (i < length hyps.now) × ((d : Signed) → ¬ (ways (get_or hyps.now i d) ≡ []))) }
{
    for i in 0..hyps.len() {
        if !is_basic(&hyps[i]) {
            return Some(i);
        }
    }
    None
}

/// The others, and then a way of the one at the place.
pub(crate) fn with_way<'a>(
    alloc: Global,
    hyps: &[Said<'a>],
    at: usize,
    way: &[Said<'a>],
) -> Result<List<Said<'a>>, OutOfMemory>
    requires { at < length hyps.now }
    ensures { IfOk result (λ o. o ≡ with_way hyps.now at way.now) }
{
    let mut out = Vec::new(alloc);
    for x in &hyps[..at] {
        out.push(x.again())?;
    }
    for x in &hyps[at + 1..] {
        out.push(x.again())?;
    }
    for x in way {
        out.push(x.again())?;
    }
    Ok(List::of(out))
}

/// Whether it contradicts itself, or another one contradicts it.
pub(crate) fn contradicts(all: &[Said], x: &Said) -> bool
    ensures { result ≡ contradicts all.now x.now }
{
    is_absurd(x) || is_said(all, !x.sign, x.formula)
}

/// Whether it says that `⊥` is true, or `⊤` false.
pub(crate) fn is_absurd(x: &Said) -> bool
    ensures { result ≡ is_absurd x.now }
{
    match x.formula {
        Formula::Node(op, parts, _) => match parts.items() {
            [] => is_absurd_constant(*op, x.sign),
            _ => false,
        },
        _ => false,
    }
}

fn is_absurd_constant(op: Op, sign: bool) -> bool
    ensures { result ≡ absurd_constant op sign }
{
    match op {
        Op::Bottom => sign,
        Op::Top => !sign,
        _ => false,
    }
}

fn is_said(all: &[Said], sign: bool, f: &Formula) -> bool
    ensures { result ≡ is_said all.now sign f.now }
{
    for x in all {
        if same_sign(x.sign, sign) && x.formula.same(f) {
            return true;
        }
    }
    false
}

fn same_sign(a: bool, b: bool) -> bool
    ensures { result ≡ same_sign a b }
{
    if a { b } else { !b }
}
