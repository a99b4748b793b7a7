//! The laws of actions, with any limit of parts of a partition, or none. The calls do nothing.

ghost use Rattle.std.specs.Prelude.{◌≡◌, ◌≤◌, ◌⊎◌, List, Option, ℕ, length};
ghost use Rattle.formula_core.specs.declared.raw.RawAction.{RawAction};
ghost use Rattle.math_grammar.specs.Tokens.{Item};
ghost use Rattle.math_grammar.specs.Actions.{SpellsAction};
ghost use Rattle.math_action.specs.Faults.{IsUnexpectedInAction};

/// No list of tokens spells two actions.
pub fn one_action()
    ensures { (limit : Option ℕ) (s : List Item) (a b : RawAction) → SpellsAction limit s a
        → SpellsAction limit s b → a ≡ b }
{}

/// Tokens that spell no action have a first token that no action has there, or their end is unexpected.
pub fn action_or_fault()
    ensures { (limit : Option ℕ) (s : List Item)
        → ((a : RawAction) × SpellsAction limit s a) ⊎ ((i : ℕ) × (i ≤ length s) × IsUnexpectedInAction limit s i) }
{}

/// That place is one.
pub fn one_action_fault()
    ensures { (limit : Option ℕ) (s : List Item) (i j : ℕ) → i ≤ length s → j ≤ length s
        → IsUnexpectedInAction limit s i → IsUnexpectedInAction limit s j → i ≡ j }
{}
