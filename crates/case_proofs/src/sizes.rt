//! How large a sequent is.
ghost use Rattle.std.specs.Prelude.{◌≡◌, ◌≤◌, ◌+◌, ◌-◌, ◌*◌, ◌^◌, ◌↔◌, IsTrue, min};
ghost use Rattle.std.specs.List.{AllByRecursion};
ghost use Rattle.case_proofs.specs.Cases.{IsHalfSize, connectives, connectives_of, rules_by_cases};

use formula_core::Formula;
use formula_readings::{joins_two, negates};
use sequent_core::Sequent;

/// Half of the most nodes and the most height of a rule's formulas, and the most nodes of their types.
const HALF_NODES: u64 = 32_768;

const HALF_HEIGHT: u64 = 2_048;

const TYPE_NODES: u64 = 4_096;

/// Whether its formulas have half of the size that a rule's formulas may have.
pub(crate) fn has_half_size(sequent: &Sequent) -> bool
    ensures { IsTrue result ↔ (AllByRecursion IsHalfSize sequent.now.hyps × IsHalfSize sequent.now.goal) }
{
    are_half_size(sequent.hyps.items()) && is_half_size(&sequent.goal)
}

fn are_half_size(formulas: &[Formula]) -> bool
    ensures { IsTrue result ↔ AllByRecursion IsHalfSize formulas.now }
{
    for formula in formulas {
        if !is_half_size(formula) {
            return false;
        }
    }
    true
}

fn is_half_size(formula: &Formula) -> bool
    ensures { IsTrue result ↔ IsHalfSize formula.now }
{
    formula.node_count() <= HALF_NODES
        && formula.height() <= HALF_HEIGHT
        && formula.has_types_within(TYPE_NODES)
}

/// The number of its connectives, counted in each hypothesis and in the goal.
pub(crate) fn connective_count(sequent: &Sequent) -> u32
    ensures { result ≡ min (connectives_of sequent.now.hyps + connectives sequent.now.goal) (2 ^ 32 - 1) }
{
    connectives_of(sequent.hyps.items()).saturating_add(connectives(&sequent.goal))
}

fn connectives_of(formulas: &[Formula]) -> u32
    ensures { result ≡ min (connectives_of formulas.now) (2 ^ 32 - 1) }
{
    let mut total: u32 = 0;
    for formula in formulas {
        total = total.saturating_add(connectives(formula));
    }
    total
}

#[tactic(auto, using(crate::proofs::Counts::equations))]
fn connectives(f: &Formula) -> u32
    ensures { result ≡ min (connectives f.now) (2 ^ 32 - 1) }
{
    match f {
        Formula::Node(op, parts, _) => match parts.items() {
            [p] => {
                if negates(*op) {
                    connectives(p).saturating_add(1)
                } else {
                    0
                }
            }
            [p, q] => {
                if joins_two(*op) {
                    connectives(p)
                        .saturating_add(connectives(q))
                        .saturating_add(1)
                } else {
                    0
                }
            }
            _ => 0,
        },
        _ => 0,
    }
}

/// 16 · 2^c, where the hypotheses and the goal have c connectives together, or the greatest `u64` where that is more.
pub fn rules_by_cases(sequent: &Sequent) -> u64
    ensures rules { result ≡ min (rules_by_cases sequent.now) (2 ^ 64 - 1) }
{
    let count = connective_count(sequent);
    if count > 59 {
        return u64::MAX;
    }
    16 * 2u64.pow(count)
}

/// Whether proofs of so many connectives have at most `budget` rules.
pub(crate) fn is_enough(budget: u32, count: u32) -> bool
    requires { budget ≤ 2000 }
    ensures { IsTrue result ↔ (16 * 2 ^ count ≤ budget) }
{
    if count > 6 {
        return false;
    }
    16 * 2u32.pow(count) <= budget
}
