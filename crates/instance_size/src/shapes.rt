//! What the rows whose instances can grow ask of their formulas.
ghost use Rattle.std.specs.Prelude.{◌≡◌};
ghost use Rattle.std.specs.Option.{option_copied, option_map};
ghost use Rattle.formula_core.specs.declared.Formula.{out-Formula};
ghost use Rattle.formula_core.specs.Types.{is_boolean, is_truth, members, relation, same_type};
ghost use Rattle.formula_core.specs.Wellness.{type_of};
ghost use Rattle.rule_table.specs.Rows.{arrow_at, first, function_in, have_types, is_function_arrow};
ghost use Rattle.instance_size.specs.Private.{first_two};

use formula_core::{Formula, Op, Ty};
use rule_table::two_operands;

pub(crate) fn is_predicate(p: &Formula) -> bool
    ensures { result ≡ is_truth (type_of p.now) }
{
    let integer = Ty::Int;
    p.type_of(&integer).is_truth()
}

pub(crate) fn is_boolean(e: &Formula) -> bool
    ensures { result ≡ is_boolean (type_of e.now) }
{
    let integer = Ty::Int;
    e.type_of(&integer).is_boolean()
}

/// Whether a term has this type.
pub(crate) fn has_type(term: &Formula, ty: &Ty) -> bool
    ensures { result ≡ same_type (type_of term.now) ty.now }
{
    let integer = Ty::Int;
    term.type_of(&integer).same(ty)
}

/// As many terms as types, each of its type.
#[tactic(auto, using(rules_logic::proofs::Terms::laws))]
pub(crate) fn have_types(terms: &[Formula], types: &[Ty]) -> bool
    ensures { result ≡ have_types terms.now types.now }
{
    for i in 0..terms.len() {
        if types.len() <= i {
            return false;
        }
        if !has_type(&terms[i], &types[i]) {
            return false;
        }
    }
    types.len() <= terms.len()
}

/// The type of the members of a set.
pub(crate) fn member_type(f: &Formula) -> Option<&Ty>
    ensures { option_copied result ≡ members (type_of f.now) }
{
    match f {
        Formula::Int(_) => None,
        Formula::Free(_, ty) => ty.members(),
        Formula::Bound(_, ty) => ty.members(),
        Formula::Node(_, _, ty) => ty.members(),
        Formula::Bind(_, _, _, ty) => ty.members(),
    }
}

/// The types between which a relation stands.
pub(crate) fn relation_types(f: &Formula) -> Option<(&Ty, &Ty)>
    ensures { option_map (λ t. (t.0.now, t.1.now)) result ≡ relation (type_of f.now) }
{
    match f {
        Formula::Int(_) => None,
        Formula::Free(_, ty) => ty.relation(),
        Formula::Bound(_, ty) => ty.relation(),
        Formula::Node(_, _, ty) => ty.relation(),
        Formula::Bind(_, _, _, ty) => ty.relation(),
    }
}

fn is_function_arrow(op: Op) -> bool
    ensures { result ≡ is_function_arrow op }
{
    31 <= op.number() && op.number() <= 37
}

/// S and T of `S a T`, for an arrow a from ⇸ to ⤖.
fn arrow(set: &Formula) -> Option<(&Formula, &Formula)>
    ensures { option_map (λ x. (x.0.now, x.1.now)) result ≡ arrow_at (out-Formula set.now) }
{
    match set {
        Formula::Node(op, parts, _) => {
            if !is_function_arrow(*op) {
                return None;
            }
            match parts.items() {
                [s, t] => Some((s, t)),
                _ => None,
            }
        }
        _ => None,
    }
}

/// f and T of `f ∈ S a T`, for such an arrow a.
pub(crate) fn function_in(h: &Formula) -> Option<(&Formula, &Formula)>
    ensures { option_map (λ x. (x.0.now, x.1.now)) result ≡ function_in h.now }
{
    let (f, set) = two_operands(Op::Member, h)?;
    let (_, t) = arrow(set)?;
    Some((f, t))
}

pub(crate) fn first(hyps: &[Formula]) -> Option<&Formula>
    ensures { option_copied result ≡ first hyps.now }
{
    match hyps {
        [h, ..] => Some(h),
        [] => None,
    }
}

pub(crate) fn first_two(hyps: &[Formula]) -> Option<(&Formula, &Formula)>
    ensures { option_map (λ x. (x.0.now, x.1.now)) result ≡ first_two hyps.now }
{
    match hyps {
        [h, k, ..] => Some((h, k)),
        _ => None,
    }
}
