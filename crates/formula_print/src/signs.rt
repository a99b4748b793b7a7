//! How formulas are denied.
ghost use Rattle.std.specs.Prelude.{◌≡◌};
ghost use Rattle.token_text.specs.Pieces.{text_of};
ghost use Rattle.formula_print.specs.Signs.{denied_op, opening_of, closing_of};

use formula_core::{Op, RawOp};

/// The operator that denies a relation, where it has a sign, and else the operator itself.
pub(crate) fn denied_op(op: Op) -> RawOp
    ensures { result ≡ denied_op op }
{
    match op {
        Op::Equal => RawOp::NotEqual,
        Op::Member => RawOp::NotMember,
        Op::ProperSubset => RawOp::NotProperSubset,
        Op::Subset => RawOp::NotSubset,
        _ => RawOp::Plain(op),
    }
}

/// What stands before a form that is denied.
pub(crate) fn opening_of(op: Op) -> &'static str
    ensures { result.now ≡ text_of (opening_of op) }
{
    match op {
        Op::Equal | Op::Member | Op::ProperSubset | Op::Subset => "",
        Op::Top | Op::Bottom | Op::Finite => "¬",
        _ => "¬(",
    }
}

/// What stands behind a form that is denied.
pub(crate) fn closing_of(op: Op) -> &'static str
    ensures { result.now ≡ text_of (closing_of op) }
{
    match op {
        Op::Equal | Op::Member | Op::ProperSubset | Op::Subset => "",
        Op::Top | Op::Bottom | Op::Finite => "",
        _ => ")",
    }
}
