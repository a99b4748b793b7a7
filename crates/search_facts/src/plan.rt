//! What a pass asks of the search: a step, and how each sequent that it leaves is to be proved.

/// How deep splits may go, and how many rounds of instances that split.
#[derive(Clone, Copy, Debug, PartialEq, Eq)]
pub struct Limits {
    pub splits: u32,
    pub rounds: u32,
}

/// How a sequent is to be proved: in this branch, in a branch of its own, or with little fuel.
#[derive(Clone, Copy, Debug, PartialEq, Eq)]
pub enum Way {
    Here,
    Apart(Limits),
    Aside(u32, Limits),
    Done(u32),
}

impl Way {
    /// With little fuel.
    pub const ASIDE: Way = Way::Aside(
        250,
        Limits {
            splits: 1,
            rounds: 2,
        },
    );
}

/// A step, the way of each of its first three sequents, and whether the branch fails where one of them does.
#[derive(Clone, Copy)]
pub struct Plan {
    pub step: u32,
    pub ways: [Way; 3],
    pub must: bool,
}

/// What became of a branch: it is proved, it went on, it failed, or nothing was done.
#[derive(Clone, Copy, Debug, PartialEq, Eq)]
pub enum Turn {
    Closed(u32),
    Moved,
    Failed,
    Still,
}

/// What a pass did, or asks for.
#[derive(Clone, Copy)]
pub enum Next {
    Turn(Turn),
    Plan(Plan),
}
