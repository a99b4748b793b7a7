//! The core's events, their replies, and what lasts.
pub use core_steps::{
    Durable, Entry, Event, Fault, FaultLine, NodeLine, Origin, PoMap, Project, Proof, Question,
    Reply, Status, StoredProof,
};
