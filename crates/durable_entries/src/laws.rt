//! The law of the state's entries.
ghost use Rattle.std.specs.Prelude.{◌≡◌, map, Some};
ghost use Rattle.core_steps.specs.declared.durable.Durable.{Durable};
ghost use Rattle.core_steps.specs.State.{after, no_texts};
ghost use Rattle.core_steps.specs.StateEntries.{state_entries};

/// From nothing, the state's entries lead to what lasts.
#[tactic(auto, using(crate::proofs::Again::state_again))]
pub fn state_again()
    ensures again { (d : Durable) → after no_texts (map Some (state_entries d)) ≡ d }
{}
