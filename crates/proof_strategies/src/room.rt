//! What may still be put into a tree.

/// How many rules, and how many nodes more, may still be put into a tree.
#[derive(Debug, Clone, Copy)]
pub struct Room {
    pub rules: u32,
    pub nodes: u32,
}

/// Whether a strategy is run at the leaves that it leaves itself.
#[derive(Debug, Clone, Copy)]
pub enum Times {
    Once,
    Again,
}
