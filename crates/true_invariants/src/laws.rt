//! The law. The call does nothing.
ghost use Rattle.model_core.specs.declared.checked.CheckedMachine.{CheckedMachine};
ghost use Rattle.true_invariants.specs.Runs.{KeepsInvariants};

/// Where the obligations of a machine that refines none are valid, its invariants are true in each state that it reaches.
pub fn invariants_hold()
    ensures { (m : CheckedMachine) → KeepsInvariants m }
{}
