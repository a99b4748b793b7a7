// What one walk through a tree tells of it.
ghost use Rattle.std.specs.Prelude.{◌≡◌, ◌+◌, ◌-◌, ◌^◌, ◌&&◌, ◌||◌, min};

/// What one walk through a tree tells of it: how many nodes and rules it has, whether it is closed, and whether a review
/// stands in it.
#[derive(Clone, Copy)]
pub struct Tally {
    /// The nodes, leaves counted, or the greatest `u64` where there are more.
    pub nodes: u64,
    /// The nodes that are rules, or the greatest `u64` where there are more.
    pub rules: u64,
    /// Whether no leaf is left.
    pub closed: bool,
    /// Whether a review stands in it.
    pub reviewed: bool,
}

/// Of a leaf.
pub(crate) const LEAF: Tally = Tally {
    nodes: 1,
    rules: 0,
    closed: false,
    reviewed: false,
};

/// Of no trees.
pub(crate) const NONE: Tally = Tally {
    nodes: 0,
    rules: 0,
    closed: true,
    reviewed: false,
};

impl Tally {
    /// Of all trees, those of the other one after those of this one.
    pub(crate) fn and(self, other: Tally) -> Tally
        ensures nodes { result.nodes ≡ min (self.nodes + other.nodes) (2 ^ 64 - 1) }
        ensures rules { result.rules ≡ min (self.rules + other.rules) (2 ^ 64 - 1) }
        ensures closed { result.closed ≡ (self.closed && other.closed) }
        ensures reviewed { result.reviewed ≡ (self.reviewed || other.reviewed) }
    {
        Tally {
            nodes: self.nodes.saturating_add(other.nodes),
            rules: self.rules.saturating_add(other.rules),
            closed: self.closed && other.closed,
            reviewed: self.reviewed || other.reviewed,
        }
    }

    /// Of the tree of a rule, which is a review or not, over these trees.
    pub(crate) fn under(self, is_review: bool) -> Tally
        ensures nodes { result.nodes ≡ min (self.nodes + 1) (2 ^ 64 - 1) }
        ensures rules { result.rules ≡ min (self.rules + 1) (2 ^ 64 - 1) }
        ensures closed { result.closed ≡ self.closed }
        ensures reviewed { result.reviewed ≡ (is_review || self.reviewed) }
    {
        Tally {
            nodes: self.nodes.saturating_add(1),
            rules: self.rules.saturating_add(1),
            closed: self.closed,
            reviewed: is_review || self.reviewed,
        }
    }
}
