//! Extents of formulas.
ghost use Rattle.std.specs.Prelude.{◌≡◌};
ghost use Rattle.instance_size.specs.Extents.{extent_of};
ghost use Rattle.instance_size.specs.Private.{above, side_by_side, exceeds, is_excessive, joined_extent, leaf, no_parts};

use condition_size::Size;
use formula_core::Formula;

/// Nodes and levels, each 2^64 - 1 where there are more.
#[derive(Clone, Copy)]
pub struct Extent {
    pub nodes: u64,
    pub height: u64,
}

pub(crate) fn extent_of(f: &Formula) -> Extent
    ensures { result ≡ extent_of f.now }
{
    Extent {
        nodes: f.node_count(),
        height: f.height(),
    }
}

/// A formula without parts.
pub(crate) fn leaf() -> Extent
    ensures { result ≡ leaf }
{
    Extent {
        nodes: 1,
        height: 1,
    }
}

/// No parts.
pub(crate) fn no_parts() -> Extent
    ensures { result ≡ no_parts }
{
    Extent {
        nodes: 0,
        height: 0,
    }
}

/// Parts and one more.
pub(crate) fn side_by_side(a: Extent, b: Extent) -> Extent
    ensures { result ≡ side_by_side a b }
{
    Extent {
        nodes: a.nodes.saturating_add(b.nodes),
        height: a.height.max(b.height),
    }
}

/// An operator or a binder above its parts.
pub(crate) fn above(parts: Extent) -> Extent
    ensures { result ≡ above parts }
{
    Extent {
        nodes: parts.nodes.saturating_add(1),
        height: parts.height.saturating_add(1),
    }
}

/// An operator on two formulas.
pub(crate) fn joined(a: Extent, b: Extent) -> Extent
    ensures { result ≡ joined_extent a b }
{
    above(side_by_side(a, b))
}

/// Whether there is no room for a formula of this extent.
pub(crate) fn exceeds(room: Extent, e: Extent) -> bool
    ensures { result ≡ exceeds room e }
{
    room.nodes < e.nodes || room.height < e.height
}

/// Whether there is no room for a condition of this size.
pub(crate) fn is_excessive(room: Extent, size: Size) -> bool
    ensures { result ≡ is_excessive room size }
{
    !size.top && (room.nodes < size.nodes || room.height < size.height)
}
