//! How large a condition is, without building it: it can be far larger than its formula.
ghost use Rattle.std.specs.Prelude.{◌≡◌, ◌+◌, map, fold, sum, List};
ghost use Rattle.formula_core.specs.declared.Ty.{Ty};
ghost use Rattle.formula_core.specs.Sizes.{formula_nodes, formula_height, greatest};
ghost use Rattle.well_defined.specs.Predicates.{top};
ghost use Rattle.well_defined.specs.Connectives.{is_top, conjoined};
ghost use Rattle.well_defined.specs.Conditions.{wd_of, own_condition, operands_condition, binder_condition};
ghost use Rattle.condition_size.specs.Private.{applied_size, binary_size, guarded_size, quantified_size};
ghost use Rattle.condition_size.specs.Sizes.{clamped, size_of};

use crate::size::{
    Size, above, conjoined, for_every, implied, joined, leaf, second_guarded, top_size, unary,
    whole,
};
use formula_core::{Binder, Formula, Op, Ty};

/// The size of a formula, and that of its condition.
#[derive(Clone, Copy)]
struct Both {
    own: Size,
    condition: Size,
}

/// The nodes of parts together and the greatest of their heights, and the size of what an operator asks of them.
#[derive(Clone, Copy)]
struct Parts {
    nodes: u64,
    height: u64,
    condition: Size,
}

/// How large the condition of a formula is. Nothing is built.
pub fn wd_size(formula: &Formula) -> Size
    ensures size { result ≡ size_of (wd_of formula.now) }
{
    sizes(formula).condition
}

/// How large the conjunction of the conditions of several formulas is.
pub fn wd_size_of_all(formulas: &[Formula]) -> Size
    ensures size { result ≡ size_of (fold conjoined top (map wd_of formulas.now)) }
{
    sizes_of_all(formulas).condition
}

fn is_top(formula: &Formula) -> bool
    ensures { result ≡ is_top formula.now }
{
    match formula {
        Formula::Node(op, _, _) => *op == Op::Top,
        _ => false,
    }
}

/// The size of a formula whose parts have so many nodes and levels.
fn size_above(formula: &Formula, nodes: u64, height: u64) -> Size
    requires nodes { clamped (formula_nodes formula.now) ≡ clamped (nodes + 1) }
    requires height { clamped (formula_height formula.now) ≡ clamped (height + 1) }
    ensures { result ≡ size_of formula.now }
{
    Size {
        nodes: nodes.saturating_add(1),
        height: height.saturating_add(1),
        top: is_top(formula),
    }
}

#[cycle(sizes)]
#[tactic(auto, using(well_defined::proofs::Equations::equations, crate::proofs::ConditionSizes::variants))]
fn sizes(formula: &Formula) -> Both
    ensures own { result.own ≡ size_of formula.now }
    ensures condition { result.condition ≡ size_of (wd_of formula.now) }
{
    match formula {
        Formula::Int(_) | Formula::Free(_, _) | Formula::Bound(_, _) => Both {
            own: leaf(),
            condition: top_size(),
        },
        Formula::Node(op, parts, _) => {
            let all = sizes_of_parts(*op, parts.items());
            Both {
                own: size_above(formula, all.nodes, all.height),
                condition: all.condition,
            }
        }
        Formula::Bind(binder, _, parts, _) => {
            let all = sizes_below(*binder, parts.items());
            Both {
                own: size_above(formula, all.nodes, all.height),
                condition: all.condition,
            }
        }
    }
}

#[cycle(sizes)]
fn sizes_of_parts(op: Op, parts: &[Formula]) -> Parts
    ensures nodes { result.nodes ≡ clamped (sum (map formula_nodes parts.now)) }
    ensures height { result.height ≡ clamped (greatest (map formula_height parts.now)) }
    ensures condition { result.condition
        ≡ size_of (conjoined (operands_condition op parts.now (map wd_of parts.now)) (own_condition op parts.now)) }
{
    match parts {
        [s] => {
            let only = sizes(s);
            Parts {
                nodes: only.own.nodes,
                height: only.own.height,
                condition: conjoined(only.condition, unary(op, only.own)),
            }
        }
        [p, q] => {
            let first = sizes(p);
            let second = sizes(q);
            let operands = second_guarded(op, first.own, first.condition, second.condition);
            Parts {
                nodes: first.own.nodes.saturating_add(second.own.nodes),
                height: first.own.height.max(second.own.height),
                condition: conjoined(operands, binary(op, p, first.own, second.own)),
            }
        }
        _ => {
            let all = sizes_of_all(parts);
            Parts {
                nodes: all.nodes,
                height: all.height,
                condition: conjoined(all.condition, top_size()),
            }
        }
    }
}

#[cycle(sizes)]
#[tactic(auto, using(crate::proofs::ConditionSizes::connectives))]
fn sizes_of_all(parts: &[Formula]) -> Parts
    ensures nodes { result.nodes ≡ clamped (sum (map formula_nodes parts.now)) }
    ensures height { result.height ≡ clamped (greatest (map formula_height parts.now)) }
    ensures condition { result.condition ≡ size_of (fold conjoined top (map wd_of parts.now)) }
{
    let mut nodes: u64 = 0;
    let mut height: u64 = 0;
    let mut condition = top_size();
    for part in parts {
        let found = sizes(part);
        nodes = nodes.saturating_add(found.own.nodes);
        height = height.max(found.own.height);
        condition = conjoined(condition, found.condition);
    }
    Parts {
        nodes,
        height,
        condition,
    }
}

/// The sizes below a binder.
#[cycle(sizes)]
fn sizes_below(binder: Binder, parts: &[Formula]) -> Parts
    ensures nodes { result.nodes ≡ clamped (sum (map formula_nodes parts.now)) }
    ensures height { result.height ≡ clamped (greatest (map formula_height parts.now)) }
    ensures condition { (types : List Ty)
        → result.condition ≡ size_of (binder_condition binder types parts.now (map wd_of parts.now)) }
{
    match parts {
        [p] => {
            let only = sizes(p);
            Parts {
                nodes: only.own.nodes,
                height: only.own.height,
                condition: for_every(only.condition),
            }
        }
        [p, q] => {
            let first = sizes(p);
            let second = sizes(q);
            Parts {
                nodes: first.own.nodes.saturating_add(second.own.nodes),
                height: first.own.height.max(second.own.height),
                condition: guarded(binder, first.own, first.condition, second.condition),
            }
        }
        _ => {
            let all = sizes_of_all(parts);
            Parts {
                nodes: all.nodes,
                height: all.height,
                condition: top_size(),
            }
        }
    }
}

/// The size of the condition of a binder with two parts, by the sizes of the first and of the conditions of both.
fn guarded(binder: Binder, p: Size, l: Size, m: Size) -> Size
    ensures { result ≡ guarded_size binder p l m }
{
    let each = for_every(conjoined(l, implied(p, m)));
    conjoined(each, quantified(binder, p))
}

fn quantified(binder: Binder, p: Size) -> Size
    ensures { result ≡ quantified_size binder p }
{
    match binder {
        Binder::QuantifiedIntersection => above(p),
        _ => top_size(),
    }
}

/// The size of what a form itself asks of two operands, of which e is the first.
fn binary(op: Op, e: &Formula, first: Size, second: Size) -> Size
    ensures { result ≡ binary_size op e.now first second }
{
    match op {
        Op::Divide => above(joined(second, leaf())),
        Op::Modulo | Op::Power => joined(joined(leaf(), first), joined(leaf(), second)),
        Op::Apply => applied(e, first, second),
        _ => top_size(),
    }
}

/// The size of `E ∈ dom(F) ∧ F ∈ A ⇸ B`.
fn applied(f: &Formula, function: Size, argument: Size) -> Size
    ensures { result ≡ applied_size f.now function argument }
{
    let integer = Ty::Int;
    match f.type_of(&integer).relation() {
        Some((from, to)) => {
            let arrows = joined(whole(from), whole(to));
            joined(joined(argument, above(function)), joined(function, arrows))
        }
        None => top_size(),
    }
}
