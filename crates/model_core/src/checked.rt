//! Components without fault.

use crate::component::Convergence;
use crate::shared::Shared;
use formula_core::{Action, Env, Formula, Label, List, Name, Ty};

/// A labelled formula. Those who inherit it share it.
#[derive(Drop)]
pub struct Labelled {
    pub label: Shared<Label>,
    pub theorem: bool,
    pub formula: Shared<Formula>,
}

/// A context without fault. Inherited axioms stand first.
#[derive(Drop)]
pub struct CheckedContext {
    pub name: Name,
    pub ancestors: List<Name>,
    pub env: Env,
    pub env_of: List<Shared<Name>>,
    pub axioms: List<Labelled>,
    pub axioms_of: List<Shared<Name>>,
    pub own_from: u32,
}

/// An event without fault. Inherited parameters, guards and actions stand first.
#[derive(Drop)]
pub struct CheckedEvent {
    pub name: Name,
    pub convergence: Convergence,
    pub refines: List<Name>,
    pub params: List<(Name, Ty)>,
    pub guards: List<Labelled>,
    pub own_guards_from: u32,
    pub witnesses: List<(Name, Formula)>,
    pub actions: List<(Label, Action)>,
    pub own_actions_from: u32,
}

/// A machine without fault. In `env` the variables stand behind the carrier sets and constants.
#[derive(Drop)]
pub struct CheckedMachine {
    pub name: Name,
    pub abstraction: Option<Name>,
    pub env: Env,
    pub env_of: List<Shared<Name>>,
    /// How many carrier sets and constants `env` has.
    pub variables_from: u32,
    pub axioms: List<Labelled>,
    pub axioms_of: List<Shared<Name>>,
    pub invariants: List<Labelled>,
    pub own_from: u32,
    pub variables: List<Name>,
    pub lost: List<Name>,
    pub variant: Option<Formula>,
    pub events: List<CheckedEvent>,
    pub unrefined: List<Name>,
}

/// A component without fault.
#[derive(Drop)]
pub enum Checked {
    Context(CheckedContext),
    Machine(CheckedMachine),
}
