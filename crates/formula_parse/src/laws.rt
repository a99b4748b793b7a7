//! The laws of the grammar, with any limit of parts of a partition, or none. The calls do nothing.
ghost use Rattle.std.specs.Prelude.{◌≡◌, ◌≤◌, ◌⊎◌, List, Option, ℕ, length};
ghost use Rattle.formula_core.specs.declared.raw.Raw.{Raw};
ghost use Rattle.math_grammar.specs.declared.holes.Hole.{Hole};
ghost use Rattle.math_grammar.specs.Tokens.{Item};
ghost use Rattle.math_grammar.specs.Grammar.{Spells};
ghost use Rattle.formula_parse.specs.Faults.{IsUnexpected};

/// No list of tokens spells two formulas.
pub fn one_formula()
    ensures { (limit : Option ℕ) (h : Hole) (s : List Item) (t u : Raw) → Spells limit h s t
        → Spells limit h s u → t ≡ u }
{}

/// Tokens that spell no formula have a first token that no sentence has there, or their end is unexpected.
pub fn formula_or_fault()
    ensures { (limit : Option ℕ) (h : Hole) (s : List Item)
        → ((t : Raw) × Spells limit h s t) ⊎ ((i : ℕ) × (i ≤ length s) × IsUnexpected limit h s i) }
{}

/// That place is one.
pub fn one_fault()
    ensures { (limit : Option ℕ) (h : Hole) (s : List Item) (i j : ℕ) → i ≤ length s → j ≤ length s
        → IsUnexpected limit h s i → IsUnexpected limit h s j → i ≡ j }
{}
