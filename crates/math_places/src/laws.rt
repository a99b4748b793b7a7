//! The places of tokens matter for nothing but the places of a tree.
ghost use Rattle.std.specs.Prelude.{◌≡◌, ℕ, List, Option};
ghost use Rattle.formula_core.specs.declared.raw.Raw.{Raw};
ghost use Rattle.formula_core.specs.declared.raw.RawAction.{RawAction};
ghost use Rattle.math_grammar.specs.declared.holes.Hole.{Hole};
ghost use Rattle.math_grammar.specs.Tokens.{Item};
ghost use Rattle.math_grammar.specs.Grammar.{Spells};
ghost use Rattle.math_grammar.specs.Actions.{SpellsAction};
ghost use Rattle.math_places.specs.Places.{AlikeTokens, unplaced, unplaced_action};

/// The same tokens at other places spell the same tree, but for its places.
pub fn spelled_at_other_places()
    ensures { (limit : Option ℕ) (h : Hole) (s others : List Item) (t : Raw) → AlikeTokens s others → Spells limit h s t
        → (u : Raw) × Spells limit h others u × (unplaced u ≡ unplaced t) }
{}

/// So it is with an action.
pub fn action_spelled_at_other_places()
    ensures { (limit : Option ℕ) (s others : List Item) (a : RawAction) → AlikeTokens s others → SpellsAction limit s a
        → (b : RawAction) × SpellsAction limit others b × (unplaced_action b ≡ unplaced_action a) }
{}
