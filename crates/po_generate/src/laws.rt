//! Laws of what is gathered. The calls do nothing.
ghost use Rattle.po_generate.specs.Laws.{AllAreGathered, TooManyAreNoticed};
ghost use Rattle.po_generate.specs.Lists.{HasEachInOneList};

/// Obligations whose formula nodes a table may have are all gathered, in order, and their nodes are counted.
#[tactic(auto, using(crate::proofs::Counted::all_gathered))]
pub fn all_are_gathered()
    ensures { AllAreGathered }
{}

/// Of obligations with more formula nodes than a table may have, more are counted than it may have, and at most those
/// that they have.
#[tactic(auto, using(crate::proofs::Counted::too_many))]
pub fn too_many_are_noticed()
    ensures { TooManyAreNoticed }
{}

/// Each obligation of a component is among those that it owes by itself or among the others, and no more are.
pub fn each_in_one_list()
    ensures { HasEachInOneList }
{}
