//! Laws of what is shown discharged, which is true in every classical universe, and of what is said to follow, which is
//! true in every reading. The calls do nothing.
#![tactic(auto)]

ghost use Rattle.true_marks.specs.TrueMarks.{TellsTruth, MarksAreTrue};

/// In a clean rebuild, each obligation with the status discharged is true.
#[tactic(auto, using(crate::proofs::Truths::marks_are_true))]
pub fn marks_are_true()
    ensures { MarksAreTrue }
{}

/// Each obligation that a reply shows discharged is true, and each that it says to follow is true in each reading, where
/// the reply's statuses, and what it says of a tree, are those of a clean rebuild.
#[tactic(auto, using(crate::proofs::Truths::tells_truth))]
pub fn tells_truth()
    ensures { TellsTruth }
{}
