// What is added to the record of a project.
use crate::proof::Proof;
use formula_core::{List, Name, PoName, Text};

/// One entry of a project's record.
#[derive(Drop)]
pub enum Entry {
    /// A component has this text.
    Put(Name, Text),
    /// The component is gone.
    Drop(Name),
    /// The present texts were built.
    Build,
    /// The obligation has this proof.
    SetProof(PoName, Proof),
    /// The proofs of these obligations are gone.
    Purge(List<PoName>),
}
