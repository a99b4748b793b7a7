//! A law of sequents and readings: what doesn't follow by cases is refuted by a reading. The call does nothing.
#![tactic(auto)]

ghost use Rattle.refuting_readings.specs.Refutations.{DecidedByReadings};

/// A sequent that compares no integers follows by cases, or by its values some reading makes the hypotheses true and the
/// goal false.
#[tactic(auto, using(crate::proofs::Refuting::decided_by_readings))]
pub fn decided_by_readings()
    ensures { DecidedByReadings }
{}
