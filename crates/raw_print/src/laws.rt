//! The laws of what is printed. The calls do nothing.
ghost use Rattle.std.specs.Prelude.{◌≡◌, ℕ, List, Option, true};
ghost use Rattle.formula_core.specs.declared.raw.Raw.{Raw};
ghost use Rattle.formula_core.specs.declared.raw.RawAction.{RawAction};
ghost use Rattle.math_grammar.specs.declared.holes.Hole.{Hole};
ghost use Rattle.math_grammar.specs.Tokens.{Item};
ghost use Rattle.math_grammar.specs.Grammar.{Spells};
ghost use Rattle.math_grammar.specs.Actions.{SpellsAction};
ghost use Rattle.math_places.specs.Places.{unplaced, unplaced_action};
ghost use Rattle.raw_print.specs.Printing.{raw_tokens, action_tokens};
ghost use Rattle.raw_print.specs.Back.{AllProper, is_whole};

/// The printed tokens of each predicate or expression that some tokens spell, spell it again, without its places.
pub fn printed_is_spelled()
    ensures { (limit : Option ℕ) (h : Hole) (s : List Item) (r : Raw) → is_whole h ≡ true → AllProper s
        → Spells limit h s r → Spells limit h (raw_tokens r) (unplaced r) }
{}

/// So it is with an action.
pub fn printed_action_is_spelled()
    ensures { (limit : Option ℕ) (s : List Item) (a : RawAction) → AllProper s → SpellsAction limit s a
        → SpellsAction limit (action_tokens a) (unplaced_action a) }
{}
