//! Laws of formulas, one on each call. The calls do nothing.
ghost use Rattle.std.specs.List.{IsDistinct};
ghost use Rattle.std.specs.Prelude.{Contains, ◌≡◌, ◌↔◌, ◌++◌, [], ℕ, List, IsTrue, length, map};
ghost use Rattle.formula_core.specs.declared.ty.Ty.{Ty};
ghost use Rattle.formula_core.specs.Wellness.{is_well_in};
ghost use Rattle.formula_core.specs.Formulas.{joined, same_identifier, free_of, occurrences, substituted, instantiated};
ghost use Rattle.formula_core.specs.Laws.{occurrences_at, first_then, KeepsProperties, IsWithin, Replaces, StaysTyped, QuantifiesTyped, InstantiatesTyped};
ghost use Rattle.formula_core.specs.Shifting.{abstracted, as_terms, shifted};
ghost use Rattle.formula_core.specs.TypeTable.{row_fits, binder_fits};
ghost use Rattle.formula_core.specs.Schemes.{IsSchemeInstance, operand_schemes, result_scheme, part_schemes, binder_scheme};
ghost use Rattle.formula_core.specs.Rows.{row_of};

use crate::formula::Formula;
use crate::name::Name;
use crate::op::{Binder, Op};
use crate::ty::Ty;

/// The list of the free identifiers has each of them once, and no other.
pub fn free_identifiers_are_once(f: &Formula)
    ensures distinct { IsDistinct same_identifier (free_of f.now) }
    ensures those { (x : List ℕ × Ty) → Contains (free_of f.now) x ↔ Contains (occurrences f.now) x }
{
    let _ = f;
}

/// The free identifiers after a substitution are those of the terms, each in the places of its name, and those that no pair names.
pub fn free_after_substitution(f: &Formula, pairs: &[(Name, Formula)])
    ensures { occurrences (substituted pairs.now f.now) ≡ joined (map (occurrences_at pairs.now) (occurrences f.now)) }
{
    let _ = f;
    let _ = pairs;
}

/// Two substitutions one after the other are one.
pub fn substituting_twice(f: &Formula, first: &[(Name, Formula)], second: &[(Name, Formula)])
    ensures { substituted second.now (substituted first.now f.now)
        ≡ substituted (first_then first.now second.now) f.now }
{
    let _ = f;
    let _ = first;
    let _ = second;
}

/// A formula whose free identifiers were bound is given back by these identifiers as terms.
pub fn binding_is_undone(f: &Formula, identifiers: &[(Name, Ty)])
    ensures { (depth : ℕ)
        → instantiated (as_terms identifiers.now) depth (abstracted identifiers.now depth f.now) ≡ f.now }
{
    let _ = f;
    let _ = identifiers;
}

/// A formula that is well stays so below further bound identifiers, wherever they stand: shifting captures no index.
pub fn shifting_keeps_well(f: &Formula)
    ensures { (inner new bound : List Ty) → IsTrue (is_well_in f.now (inner ++ bound))
        → IsTrue (is_well_in (shifted (length new) (length inner) f.now) (inner ++ (new ++ bound))) }
{
    let _ = f;
}

/// Operands of these types fit an operator, which then has the type `whole`, exactly where this is an instance of its line in the table of types.
pub fn fits_by_schemes(op: Op, types: &[Ty], whole: &Ty)
    ensures { IsTrue (row_fits (row_of op) types.now whole.now)
        ↔ IsSchemeInstance
        (operand_schemes (row_of op) (length types.now)) (result_scheme (row_of op)) types.now whole.now }
{
    let _ = op;
    let _ = types;
    let _ = whole;
}

/// Parts of these types fit a binder, which then has the type `whole`, exactly where this is an instance of its line in the table of types.
pub fn binder_fits_by_schemes(binder: Binder, types: &[Ty], whole: &Ty)
    ensures { IsTrue (binder_fits binder types.now whole.now)
        ↔ IsSchemeInstance (part_schemes binder) (binder_scheme binder) types.now whole.now }
{
    let _ = binder;
    let _ = types;
    let _ = whole;
}

/// What holds of all identifiers of a formula and of the terms holds of those of the formula that has the terms in it, that is shifted, or whose identifiers are bound.
pub fn identifiers_are_kept(
    f: &Formula,
    pairs: &[(Name, Formula)],
    terms: &[Formula],
    bound: &[(Name, Ty)],
)
    ensures substituted { KeepsProperties (map (λ q. q.1) pairs.now) f.now (substituted pairs.now f.now) }
    ensures instantiated { (depth : ℕ) → KeepsProperties terms.now f.now (instantiated terms.now depth f.now) }
    ensures shifted { (by depth : ℕ) → KeepsProperties [] f.now (shifted by depth f.now) }
    ensures bound { (depth : ℕ) → KeepsProperties [] f.now (abstracted bound.now depth f.now) }
{
    let _ = f;
    let _ = pairs;
    let _ = terms;
    let _ = bound;
}

/// A formula that is typed in an environment is typed in each one in which the same names stand, such as a longer one.
pub fn typed_in_larger(f: &Formula, env: &[(Name, Ty)], more: &[(Name, Ty)])
    ensures typed { (new : List (List ℕ × Ty)) → IsWithin env.now new → StaysTyped env.now new f.now f.now }
    ensures longer { IsWithin env.now (env.now ++ more.now) }
{
    let _ = f;
    let _ = env;
    let _ = more;
}

/// A substitution by which each name that has no place in another environment is replaced makes a formula that is typed there, of the same type.
pub fn substituting_keeps_typed(f: &Formula, pairs: &[(Name, Formula)])
    ensures { (old new : List (List ℕ × Ty)) → Replaces old new pairs.now
        → StaysTyped old new f.now (substituted pairs.now f.now) }
{
    let _ = f;
    let _ = pairs;
}

/// A quantifier over a predicate is a predicate, typed in an environment that need not have the names that it binds.
pub fn quantifying_keeps_typed(f: &Formula, identifiers: &[(Name, Ty)])
    ensures exists { QuantifiesTyped Binder.Exists identifiers.now f.now }
    ensures for_all { QuantifiesTyped Binder.ForAll identifiers.now f.now }
{
    let _ = f;
    let _ = identifiers;
}

/// The body of a typed quantifier, with typed terms of the right types in the places of what is bound, is typed.
pub fn instantiating_keeps_typed(f: &Formula, terms: &[Formula])
    ensures { InstantiatesTyped f.now terms.now }
{
    let _ = f;
    let _ = terms;
}
