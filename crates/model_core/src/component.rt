//! Components as they are written.

ghost use Rattle.std.specs.Prelude.{◌≡◌};
ghost use Rattle.model_core.specs.Components.{heading};

use formula_core::{Label, List, Raw, RawAction, Ref};

/// A labelled formula as it is written. The place is that of its label, and `first` that of the formula's first token,
/// which may be a parenthesis.
#[derive(Drop)]
pub struct RawLabelled {
    pub label: Label,
    pub theorem: bool,
    pub formula: Raw,
    pub place: u32,
    pub first: u32,
}

/// A variant as it is written, with the place of its first token.
#[derive(Drop)]
pub struct RawVariant {
    pub formula: Raw,
    pub first: u32,
}

/// A labelled action as it is written. The place is that of its label.
#[derive(Drop)]
pub struct RawStep {
    pub label: Label,
    pub action: RawAction,
    pub place: u32,
}

#[derive(Clone, Copy, Debug, PartialEq, Eq)]
pub enum Convergence {
    Ordinary,
    Convergent,
    Anticipated,
}

/// An event as it is written. One that extends another names it alone in `refines`.
#[derive(Drop)]
pub struct RawEvent {
    pub name: Ref,
    pub convergence: Convergence,
    pub extended: bool,
    pub refines: List<Ref>,
    pub params: List<Ref>,
    pub guards: List<RawLabelled>,
    pub witnesses: List<RawLabelled>,
    pub actions: List<RawStep>,
}

/// A component as it is written.
#[derive(Drop)]
pub enum RawComponent {
    Context {
        name: Ref,
        extends: List<Ref>,
        sets: List<Ref>,
        constants: List<Ref>,
        axioms: List<RawLabelled>,
    },
    Machine {
        name: Ref,
        refines: Option<Ref>,
        sees: List<Ref>,
        variables: List<Ref>,
        invariants: List<RawLabelled>,
        variant: Option<RawVariant>,
        events: List<RawEvent>,
    },
}

impl RawComponent {
    /// The name in the heading, with its place.
    pub fn heading(&self) -> &Ref
        ensures { result.now ≡ heading self.now }
    {
        match self {
            RawComponent::Context { name, .. } => name,
            RawComponent::Machine { name, .. } => name,
        }
    }
}
