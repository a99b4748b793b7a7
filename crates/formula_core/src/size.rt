//! The sizes of types and formulas, and the limits on them.
ghost use Rattle.std.specs.Prelude.{◌≡◌, ◌↔◌, ◌+◌, ◌-◌, ◌^◌, ◌<◌, ◌&&◌, min, sum, map, IsTrue, MatchOption};
ghost use Rattle.formula_core.specs.Sizes.{type_nodes, formula_nodes, greatest, formula_height, is_type_within, all_hold, has_types_within, IsWithinLimits};

use crate::formula::Formula;
use crate::ty::Ty;

/// The most nodes that a formula may have.
pub const MOST_NODES: u64 = 65_536;

/// The greatest height that a formula may have.
pub const MOST_HEIGHT: u64 = 4_096;

/// The most nodes that a type in a formula may have.
pub const MOST_TYPE_NODES: u64 = 4_096;

impl Ty {
    /// The number of nodes, or 2^64 - 1 where it is greater.
    pub fn node_count(&self) -> u64
        ensures { result ≡ min (type_nodes self.now) (2 ^ 64 - 1) }
    {
        match self {
            Ty::Int | Ty::Bool | Ty::Given(_) | Ty::Truth => 1,
            Ty::Pow(part) => part.get().node_count().saturating_add(1),
            Ty::Pair(left, right) => {
                let left = left.get().node_count();
                let right = right.get().node_count();
                left.saturating_add(right).saturating_add(1)
            }
        }
    }

    /// Whether it has at most `limit` nodes.
    pub fn is_within(&self, limit: u64) -> bool
        ensures { result ≡ is_type_within limit self.now }
    {
        self.room_after(limit).is_some()
    }

    /// What its nodes leave of the room, or None where there is too little.
    fn room_after(&self, room: u64) -> Option<u64>
        ensures { MatchOption result (room < type_nodes self.now) (λ left. left + type_nodes self.now ≡ room) }
    {
        match self {
            Ty::Int | Ty::Bool | Ty::Given(_) | Ty::Truth => room.checked_sub(1),
            Ty::Pow(part) => part.get().room_after(room)?.checked_sub(1),
            Ty::Pair(left, right) => {
                let room = left.get().room_after(room)?;
                right.get().room_after(room)?.checked_sub(1)
            }
        }
    }
}

impl Formula {
    /// The number of nodes, or 2^64 - 1 where it is greater.
    #[cycle(count)]
    pub fn node_count(&self) -> u64
        ensures { result ≡ min (formula_nodes self.now) (2 ^ 64 - 1) }
    {
        match self {
            Formula::Int(_) => 1,
            Formula::Free(_, _) => 1,
            Formula::Bound(_, _) => 1,
            Formula::Node(_, parts, _) => nodes_of_all(parts.items()).saturating_add(1),
            Formula::Bind(_, _, parts, _) => nodes_of_all(parts.items()).saturating_add(1),
        }
    }

    /// The height, or 2^64 - 1 where it is greater.
    #[cycle(height)]
    pub fn height(&self) -> u64
        ensures { result ≡ min (formula_height self.now) (2 ^ 64 - 1) }
    {
        match self {
            Formula::Int(_) => 1,
            Formula::Free(_, _) => 1,
            Formula::Bound(_, _) => 1,
            Formula::Node(_, parts, _) => greatest_height(parts.items()).saturating_add(1),
            Formula::Bind(_, _, parts, _) => greatest_height(parts.items()).saturating_add(1),
        }
    }

    /// Whether each type that stands in it has at most `limit` nodes.
    #[cycle(types)]
    pub fn has_types_within(&self, limit: u64) -> bool
        ensures { result ≡ has_types_within limit self.now }
    {
        match self {
            Formula::Int(_) => true,
            Formula::Free(_, ty) => ty.is_within(limit),
            Formula::Bound(_, ty) => ty.is_within(limit),
            Formula::Node(_, parts, ty) => {
                ty.is_within(limit) && all_have_types_within(parts.items(), limit)
            }
            Formula::Bind(_, types, parts, ty) => {
                binder_types_are_within(types.items(), ty, limit)
                    && all_have_types_within(parts.items(), limit)
            }
        }
    }

    /// Whether it has at most `MOST_NODES` nodes and `MOST_HEIGHT` levels, and each of its types at most `MOST_TYPE_NODES` nodes.
    pub fn is_within_limits(&self) -> bool
        ensures { IsTrue result ↔ IsWithinLimits self.now }
    {
        self.node_count() <= MOST_NODES
            && self.height() <= MOST_HEIGHT
            && self.has_types_within(MOST_TYPE_NODES)
    }
}

#[cycle(count)]
fn nodes_of_all(items: &[Formula]) -> u64
    ensures { result ≡ min (sum (map formula_nodes items.now)) (2 ^ 64 - 1) }
{
    let mut total: u64 = 0;
    for item in items {
        total = total.saturating_add(item.node_count());
    }
    total
}

#[cycle(height)]
fn greatest_height(items: &[Formula]) -> u64
    ensures { result ≡ min (greatest (map formula_height items.now)) (2 ^ 64 - 1) }
{
    let mut most: u64 = 0;
    for item in items {
        most = most.max(item.height());
    }
    most
}

#[cycle(types)]
fn all_have_types_within(items: &[Formula], limit: u64) -> bool
    ensures { result ≡ all_hold (map (has_types_within limit) items.now) }
{
    for item in items {
        if !item.has_types_within(limit) {
            return false;
        }
    }
    true
}

/// Whether the type of a binder and those of its identifiers have at most `limit` nodes.
fn binder_types_are_within(types: &[Ty], ty: &Ty, limit: u64) -> bool
    ensures { result ≡ (is_type_within limit ty.now && all_hold (map (is_type_within limit) types.now)) }
{
    ty.is_within(limit) && all_are_within(types, limit)
}

fn all_are_within(types: &[Ty], limit: u64) -> bool
    ensures { result ≡ all_hold (map (is_type_within limit) types.now) }
{
    for ty in types {
        if !ty.is_within(limit) {
            return false;
        }
    }
    true
}
