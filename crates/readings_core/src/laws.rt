//! What `value` and `follows` say together.
ghost use Rattle.readings_core.specs.Follows.{ValuesFollow};

/// The readings of `value` are among those of `follows`: of a sequent that is true in each reading, where the hypotheses
/// are true by `value`, the goal isn't false by it. The call does nothing.
pub fn values_follow()
    ensures { ValuesFollow }
{}
