//! Laws of a session, over what its chairs know. The calls do nothing.
ghost use Rattle.prover_pool.specs.Shift.{fair};
ghost use Rattle.session_run.specs.OneHistory.{OneHistory, CompleteWhenIdle};

use core_steps::{decides_sequents, one_answer, stays_orderly};
use sequent_core::Prover;

/// What the users' chairs and the workers know of a session makes one legal history, in which each finish is fair.
pub fn one_history<P: Prover>(_prover: &P)
    ensures { OneHistory (fair (P.answers _prover.now) (P.sure _prover.now)) }
{
    one_answer();
    stays_orderly();
}

/// Wherever all is idle in a history in which each finish is fair, nothing sure is left unproved, unless memory ran out over
/// it.
pub fn complete_when_idle<P: Prover>(_prover: &P)
    ensures { CompleteWhenIdle (fair (P.answers _prover.now) (P.sure _prover.now)) (P.sure _prover.now) }
{
    one_answer();
    stays_orderly();
    decides_sequents();
}
