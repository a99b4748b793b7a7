//! Laws of well-definedness, one on each call. The calls do nothing.
ghost use Rattle.std.specs.Prelude.{◌≡◌, IsTrue};
ghost use Rattle.well_defined.specs.Predicates.{top};
ghost use Rattle.well_defined.specs.Conditions.{wd_of};
ghost use Rattle.well_defined.specs.Laws.{is_atom, is_total};

use formula_core::Formula;

/// A literal, an identifier and an operator without operands always have a value.
#[tactic(auto, using(crate::proofs::Tops::laws))]
pub fn atoms_are_well_defined(f: &Formula)
    ensures { IsTrue (is_atom f.now) → wd_of f.now ≡ top }
{
    let _ = f;
}

/// A formula in which nothing is partial always has a value.
#[tactic(auto, using(crate::proofs::Tops::laws))]
pub fn total_formulas_are_well_defined(f: &Formula)
    ensures { IsTrue (is_total f.now) → wd_of f.now ≡ top }
{
    let _ = f;
}
