// Events and their replies.
use build_core::FaultLine;
use formula_core::{Formula, List, Name, PoName, Text};
use proof_entries::Origin;
use readings_core::Follows;
use rule_making::RuleFault;
use sequent_core::{Attempt, Hint, Path, Sequent, Ticket};

/// What is known of an obligation's stored proof.
#[derive(Debug, PartialEq, Eq, Clone, Copy)]
pub enum Status {
    /// No proof is stored, or a bare leaf.
    Unattempted,
    /// The stored proof applies, and leaves are left in it.
    Pending,
    /// The stored proof applies, no leaf is left, and a review stands in it.
    Reviewed,
    /// The stored proof derives the present sequent.
    Discharged,
    /// The stored proof doesn't apply to the present sequent.
    Broken,
}

/// What may be asked of the core.
#[derive(Drop)]
pub enum Question {
    /// The status of each obligation.
    Statuses,
    /// The faults of the built texts, and the warnings.
    Faults,
    /// The sequent of an obligation, or that at a leaf of its tree.
    Show(PoName, Option<Path>),
    /// The nodes of an obligation's tree.
    TreeOf(PoName),
    /// Whether an obligation follows by its tree, which is so where plain rules alone derive it.
    Follows(PoName),
    /// The digest of what lasts.
    Digest,
    /// Whether nothing is left to take and no ticket is out.
    Idle,
}

/// One step of the core.
#[derive(Drop)]
pub enum Event {
    /// Sets the text of a component.
    Edit(Name, Text),
    /// Drops a component.
    Delete(Name),
    /// Builds the present texts.
    Build,
    /// Puts the rule of a kind at a leaf of an obligation's tree.
    Step(PoName, Path, u8, Hint),
    /// Puts a leaf in the place of a rule of an obligation's tree.
    Prune(PoName, Path),
    /// Takes the first open obligation, or that of the name.
    Take(Option<PoName>),
    /// Takes the ticket of the number in, with what the prover answered.
    Finish(u64, Attempt),
    /// Removes the proofs of obligations that the table lacks.
    Purge,
    /// Asks a question, which changes nothing.
    Ask(Question),
}

/// A node of a tree: its path, the number of its rule where it has one, and at a leaf of a tree that applies the goal
/// there.
#[derive(Drop)]
pub struct NodeLine {
    pub path: Path,
    pub kind: Option<u8>,
    pub goal: Option<Formula>,
}

/// The reply to an event.
#[derive(Drop)]
pub enum Reply {
    BadName,
    TextTooLong,
    ProjectFull,
    Edited(Name),
    NoSuch(Name),
    Deleted(Name),
    /// The sequents of the texts' table have more formula nodes than a table may have; so many were counted.
    TableFull(u64),
    /// The numbers of components, of faulted ones, and of obligations.
    Built(u32, u32, u32),
    NoObligation(PoName),
    /// The stored tree doesn't apply to the present sequent.
    Broken,
    NoLeaf,
    NoNode,
    /// Why no rule was made.
    Rule(RuleFault),
    TreeFull,
    /// The status after a step or a prune.
    Now(PoName, Status),
    Nothing,
    Taken(Ticket),
    NotOpen(PoName, Status),
    NoTicket(u64),
    Noted(PoName, Option<Status>),
    NoMemory(PoName, Option<Status>),
    Stored(PoName, Option<Status>),
    Refused(PoName, Option<Status>),
    Stale(PoName, Option<Status>),
    /// How many proofs are gone.
    Purged(u64),
    /// The status of each obligation, and who made its proof.
    Statuses(List<(PoName, Status, Option<Origin>)>),
    /// The faults, and the warnings: a machine, and an event of its abstraction that none of its events refines.
    Faults(List<FaultLine>, List<(Name, Name)>),
    Shown(PoName, Status, Sequent),
    Nodes(List<NodeLine>),
    /// What is said of the stored tree beside the present sequent.
    Followed(PoName, Follows),
    /// SHA-256 of the bytes of the state's entries.
    Digest([u8; 32]),
    Idle(bool),
}
