//! The law of items. The call does nothing.
ghost use Rattle.std.specs.Prelude.{◌≡◌, List};
ghost use Rattle.sequent_core.specs.declared.hint.Hint.{Hint};
ghost use Rattle.step_items.specs.declared.item.Item.{Item};
ghost use Rattle.step_items.specs.Hints.{IsHint};

use formula_parse::one_formula;
use math_tokens::cut_one_way;

/// Items give at most one hint.
pub fn one_hint()
    ensures { (items : List Item) (a b : Hint) → IsHint items a → IsHint items b → a ≡ b }
{
    cut_one_way();
    one_formula();
}
