//! Laws of the formula grammar without the condition that each form reaches as far as it can. The calls do nothing.
#![tactic(auto)]

ghost use Rattle.std.specs.Prelude.{List, Option, ℕ, Bool, true, false};
ghost use Rattle.formula_core.specs.declared.raw.Raw.{Raw};
ghost use Rattle.math_grammar.specs.declared.holes.Hole.{Hole};
ghost use Rattle.math_grammar.specs.declared.holes.Hole.TheVariants as hole;
ghost use Rattle.math_grammar.specs.Tokens.{Item};
ghost use Rattle.math_grammar.specs.Grammar.{Spells};
ghost use Rattle.plain_grammar.specs.Plain.{Accepts};
ghost use Rattle.plain_grammar.specs.OpenType.{open_type};

/// Without the condition, but for a type before ↦ in a pattern of λ, the grammar accepts the same token lists, at any limit
/// of parts of a partition.
pub fn same_sentences()
    ensures spelled { (limit : Option ℕ) (everywhere : Bool) (h : Hole) (s : List Item) (t : Raw)
        → Spells limit h s t → Accepts limit everywhere h s }
    ensures accepted { (limit : Option ℕ) (h : Hole) (s : List Item)
        → Accepts limit false h s → (t : Raw) × Spells limit h s t }
{}

/// Without it there too the grammar accepts more.
pub fn types_before_maplet_need_the_condition()
    ensures accepted { (limit : Option ℕ) → Accepts limit true hole.Expression open_type }
    ensures refused { (limit : Option ℕ) (t : Raw) → Spells limit hole.Expression open_type t → ⊥ }
{}
