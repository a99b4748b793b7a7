//! What each event of a user or a prover does to a project with its proofs, and the laws of these steps.
#![tactic(auto)]

mod durable;
mod entries;
mod events;
mod laws;
mod maps;
mod project;
mod room;
mod stored;
mod texts;

pub use build_core::{BuildFault, FaultLine};
pub use durable::Durable;
pub use events::{Event, NodeLine, Question, Reply, Status};
pub use laws::{
    builds_once, decides_sequents, discharged_is_derived, edits_back, enters_all, grows_slowly,
    one_answer, opens_orderly, stays_orderly, stores_late, tells_the_rebuilt,
};
pub use maps::PoMap;
pub use model_core::Fault;
pub use project::Project;
pub use proof_entries::{Entry, Origin, Proof};
pub use readings_core::Follows;
pub use room::{Room, push_in};
pub use stored::{Facts, StoredProof, applies, facts_by, facts_of, is_unsettled, status_by};
pub use texts::Texts;
