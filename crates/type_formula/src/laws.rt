//! Laws of typings, one on each call. The calls do nothing.
ghost use Rattle.type_formula.specs.Laws.{TypedFormulasStand, TypedPredicatesStand};

/// A formula with one typing is typed in the environment with the names that it adds, where each carrier set of the environment's types stands in it.
pub fn typed_formulas_stand()
    ensures { TypedFormulasStand }
{}

/// A predicate with one typing is typed in the environment that the typing gives, where each carrier set of the old environment's types stands in it.
pub fn typed_predicates_stand()
    ensures { TypedPredicatesStand }
{}
