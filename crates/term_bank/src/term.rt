//! What a bank keeps of a formula and of a type.
use formula_core::{Binder, Op};

/// The number of a formula or of a type in a bank.
pub type Id = u32;

/// No formula.
pub const NONE: Id = 4294967295;

/// A part of a list.
#[derive(Clone, Copy, Debug, PartialEq, Eq)]
pub struct Span {
    pub start: u32,
    pub count: u32,
}

impl Span {
    pub const EMPTY: Span = Span { start: 0, count: 0 };
}

/// The variant of a formula, without its parts. A free identifier has the number of its name.
#[derive(Clone, Copy, Debug, PartialEq, Eq)]
pub enum Head {
    Int(i128),
    Free(u32),
    Bound(u32),
    Node(Op),
    Bind(Binder),
}

/// A formula. No index of it passes `loose` binders more than it has; `names` are the numbers of its free names.
#[derive(Clone, Copy)]
pub struct Term {
    pub head: Head,
    pub parts: Span,
    pub types: Span,
    pub names: Span,
    pub ty: Id,
    pub loose: u32,
    pub size: u32,
    pub mask: u64,
    pub hash: u32,
    pub next: Id,
}

/// A type, with the numbers of its parts.
#[derive(Clone, Copy, Debug, PartialEq, Eq)]
pub enum TypeHead {
    Int,
    Bool,
    Truth,
    Given(u32),
    Pow(Id),
    Pair(Id, Id),
}
