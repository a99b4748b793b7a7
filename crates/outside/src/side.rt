// The two sides of a disk.

/// One of the two sides of a disk.
#[derive(Debug, PartialEq, Eq, Clone, Copy)]
pub enum Side {
    Left,
    Right,
}
