//! Sizes of formulas, and of what connectives make of them.
ghost use Rattle.std.specs.Prelude.{◌≡◌};
ghost use Rattle.formula_core.specs.WholeSets.{whole_set};
ghost use Rattle.condition_size.specs.Private.{above_size, alternative_size, bounded_size, conjoined_size, for_every_size, implied_size, joined_size, leaf_size, not_empty_size, plain_size, second_guarded_size, top_size, unary_size};

use formula_core::{Op, Ty};

/// The nodes and the height of a formula, each 2^64 - 1 where it is greater, and whether the formula is ⊤.
#[derive(Clone, Copy)]
pub struct Size {
    pub nodes: u64,
    pub height: u64,
    pub top: bool,
}

pub(crate) fn top_size() -> Size
    ensures { result ≡ top_size }
{
    Size {
        nodes: 1,
        height: 1,
        top: true,
    }
}

/// A formula without parts.
pub(crate) fn leaf() -> Size
    ensures { result ≡ leaf_size }
{
    Size {
        nodes: 1,
        height: 1,
        top: false,
    }
}

/// An operator or a binder above a formula.
pub(crate) fn above(p: Size) -> Size
    ensures { result ≡ above_size p }
{
    Size {
        nodes: p.nodes.saturating_add(1),
        height: p.height.saturating_add(1),
        top: false,
    }
}

/// An operator on two formulas.
pub(crate) fn joined(p: Size, q: Size) -> Size
    ensures { result ≡ joined_size p q }
{
    Size {
        nodes: p.nodes.saturating_add(q.nodes).saturating_add(1),
        height: p.height.max(q.height).saturating_add(1),
        top: false,
    }
}

pub(crate) fn conjoined(p: Size, q: Size) -> Size
    ensures { result ≡ conjoined_size p q }
{
    if p.top {
        q
    } else if q.top {
        p
    } else {
        joined(p, q)
    }
}

pub(crate) fn implied(p: Size, q: Size) -> Size
    ensures { result ≡ implied_size p q }
{
    if q.top {
        top_size()
    } else if p.top {
        q
    } else {
        joined(p, q)
    }
}

fn alternative(p: Size, q: Size) -> Size
    ensures { result ≡ alternative_size p q }
{
    if p.top || q.top {
        top_size()
    } else {
        joined(p, q)
    }
}

pub(crate) fn for_every(p: Size) -> Size
    ensures { result ≡ for_every_size p }
{
    if p.top { top_size() } else { above(p) }
}

/// What two operands ask, of which p is the first.
pub(crate) fn second_guarded(op: Op, p: Size, l: Size, m: Size) -> Size
    ensures { result ≡ second_guarded_size op p l m }
{
    let second = match op {
        Op::And | Op::Implies => implied(p, m),
        Op::Or => alternative(p, m),
        _ => m,
    };
    conjoined(l, second)
}

/// S ≠ ∅
fn not_empty(s: Size) -> Size
    ensures { result ≡ not_empty_size s }
{
    above(joined(s, leaf()))
}

/// A bound of the members of S.
fn bounded(s: Size) -> Size
    ensures { result ≡ bounded_size s }
{
    let members = joined(leaf(), s);
    let bound = joined(leaf(), leaf());
    above(above(joined(members, bound)))
}

/// What a form itself asks of one operand.
pub(crate) fn unary(op: Op, s: Size) -> Size
    ensures { result ≡ unary_size op s }
{
    match op {
        Op::Cardinality => above(s),
        Op::Minimum | Op::Maximum => joined(not_empty(s), bounded(s)),
        Op::GeneralIntersection => not_empty(s),
        _ => top_size(),
    }
}

/// The whole set of a type.
#[tactic(auto, using(crate::proofs::ConditionSizes::whole_sets))]
pub(crate) fn whole(ty: &Ty) -> Size
    ensures { result ≡ plain_size (whole_set ty.now) }
{
    match ty {
        Ty::Int | Ty::Bool | Ty::Given(_) | Ty::Truth => leaf(),
        Ty::Pow(part) => above(whole(part.get())),
        Ty::Pair(left, right) => {
            let left = whole(left.get());
            let right = whole(right.get());
            joined(left, right)
        }
    }
}
