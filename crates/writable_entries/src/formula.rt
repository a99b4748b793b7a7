// Formulas and types that may be written.
ghost use Rattle.std.specs.Prelude.{◌≡◌, ◌↔◌, ◌<◌, ◌^◌, IsTrue, length, map};
ghost use Rattle.std.specs.List.{AllByRecursion};
ghost use Rattle.formula_core.specs.Sizes.{all_hold};
ghost use Rattle.proof_codec.specs.Parts.{IsList};
ghost use Rattle.proof_codec.specs.Types.{IsFitType};
ghost use Rattle.proof_codec.specs.Formulas.{is_counted, IsFitFormula};

use formula_core::{Formula, Ty};

/// The fewest members that no list may have.
const TOO_MANY: u64 = 1 << 32;

/// The most nodes of a type.
const MOST_TYPE_NODES: u64 = 4_096;

/// Whether a list has so few members that their number has four bytes.
pub(crate) fn is_short(len: usize) -> bool
    ensures { IsTrue result ↔ («len» < 2 ^ 32) }
{
    (len as u64) < TOO_MANY
}

pub(crate) fn is_fit_type(ty: &Ty) -> bool
    ensures { IsTrue result ↔ IsFitType ty.now }
{
    ty.is_within(MOST_TYPE_NODES)
}

pub(crate) fn is_fit_formula(formula: &Formula) -> bool
    ensures { IsTrue result ↔ IsFitFormula formula.now }
{
    formula.is_within_limits() && formula.is_well() && is_counted(formula)
}

pub(crate) fn are_fit_formulas(formulas: &[Formula]) -> bool
    ensures { IsTrue result ↔ IsList IsFitFormula formulas.now }
{
    is_short(formulas.len()) && each_is_fit(formulas)
}

fn each_is_fit(formulas: &[Formula]) -> bool
    ensures { IsTrue result ↔ AllByRecursion IsFitFormula formulas.now }
{
    for formula in formulas {
        if !is_fit_formula(formula) {
            return false;
        }
    }
    true
}

#[cycle(counted)]
fn is_counted(formula: &Formula) -> bool
    ensures { result ≡ is_counted formula.now }
{
    match formula {
        Formula::Int(_) => true,
        Formula::Free(_, _) => true,
        Formula::Bound(_, _) => true,
        Formula::Node(_, parts, _) => is_short(parts.items().len()) && are_counted(parts.items()),
        Formula::Bind(_, types, parts, _) => {
            is_short(types.items().len())
                && is_short(parts.items().len())
                && are_counted(parts.items())
        }
    }
}

#[cycle(counted)]
fn are_counted(formulas: &[Formula]) -> bool
    ensures { result ≡ all_hold (map is_counted formulas.now) }
{
    for formula in formulas {
        if !is_counted(formula) {
            return false;
        }
    }
    true
}
