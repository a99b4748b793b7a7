//! The law of the typings of actions. The call does nothing.
ghost use Rattle.type_action.specs.Laws.{TypedActionsStand};

/// An action with one typing is typed in its environment, where each carrier set of the environment's types stands in it.
pub fn typed_actions_stand()
    ensures { TypedActionsStand }
{}
