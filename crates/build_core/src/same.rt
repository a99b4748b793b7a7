//! Whether checked components are the same.

ghost use Rattle.std.specs.Prelude.{◌≡◌, ◌↔◌, IsTrue};

use formula_core::{Action, Formula, Label, Name, same_identifiers};
use model_core::{Checked, CheckedContext, CheckedEvent, CheckedMachine, Labelled, Shared};

/// What stands in lists of a checked component.
trait Same {
    fn is_same(&self, other: &Self) -> bool
        ensures { IsTrue result ↔ (self.now ≡ other.now) };
}

impl Same for Name {
    fn is_same(&self, other: &Name) -> bool {
        self.same(other)
    }
}

impl Same for Shared<Name> {
    fn is_same(&self, other: &Shared<Name>) -> bool {
        self.get().same(other.get())
    }
}

impl Same for Labelled {
    fn is_same(&self, other: &Labelled) -> bool {
        self.label.get().same(other.label.get())
            && self.theorem == other.theorem
            && self.formula.get().same(other.formula.get())
    }
}

impl Same for (Name, Formula) {
    fn is_same(&self, other: &(Name, Formula)) -> bool {
        self.0.same(&other.0) && self.1.same(&other.1)
    }
}

impl Same for (Label, Action) {
    fn is_same(&self, other: &(Label, Action)) -> bool {
        self.0.same(&other.0) && self.1.same(&other.1)
    }
}

impl Same for CheckedEvent {
    fn is_same(&self, other: &CheckedEvent) -> bool {
        self.name.same(&other.name)
            && self.convergence == other.convergence
            && same_items(self.refines.items(), other.refines.items())
            && same_identifiers(self.params.items(), other.params.items())
            && same_items(self.guards.items(), other.guards.items())
            && self.own_guards_from == other.own_guards_from
            && same_items(self.witnesses.items(), other.witnesses.items())
            && same_items(self.actions.items(), other.actions.items())
            && self.own_actions_from == other.own_actions_from
    }
}

fn same_items<T: Same>(xs: &[T], ys: &[T]) -> bool
    ensures { IsTrue result ↔ (xs.now ≡ ys.now) }
{
    if xs.len() != ys.len() {
        return false;
    }
    for i in 0..xs.len() {
        if !xs[i].is_same(&ys[i]) {
            return false;
        }
    }
    true
}

fn same_name(one: &Option<Name>, other: &Option<Name>) -> bool
    ensures { IsTrue result ↔ (one.now ≡ other.now) }
{
    match one {
        None => other.is_none(),
        Some(one) => match other {
            None => false,
            Some(other) => one.same(other),
        },
    }
}

fn same_formula(one: &Option<Formula>, other: &Option<Formula>) -> bool
    ensures { IsTrue result ↔ (one.now ≡ other.now) }
{
    match one {
        None => other.is_none(),
        Some(one) => match other {
            None => false,
            Some(other) => one.same(other),
        },
    }
}

fn same_context(one: &CheckedContext, other: &CheckedContext) -> bool
    ensures { IsTrue result ↔ (one.now ≡ other.now) }
{
    one.name.same(&other.name)
        && same_items(one.ancestors.items(), other.ancestors.items())
        && one.env.same(&other.env)
        && same_items(one.env_of.items(), other.env_of.items())
        && same_items(one.axioms.items(), other.axioms.items())
        && same_items(one.axioms_of.items(), other.axioms_of.items())
        && one.own_from == other.own_from
}

fn same_machine(one: &CheckedMachine, other: &CheckedMachine) -> bool
    ensures { IsTrue result ↔ (one.now ≡ other.now) }
{
    one.name.same(&other.name)
        && same_name(&one.abstraction, &other.abstraction)
        && one.env.same(&other.env)
        && same_items(one.env_of.items(), other.env_of.items())
        && one.variables_from == other.variables_from
        && same_items(one.axioms.items(), other.axioms.items())
        && same_items(one.axioms_of.items(), other.axioms_of.items())
        && same_items(one.invariants.items(), other.invariants.items())
        && one.own_from == other.own_from
        && same_items(one.variables.items(), other.variables.items())
        && same_items(one.lost.items(), other.lost.items())
        && same_formula(&one.variant, &other.variant)
        && same_items(one.events.items(), other.events.items())
        && same_items(one.unrefined.items(), other.unrefined.items())
}

/// Whether the checked components are the same.
pub fn same_checked(one: &Checked, other: &Checked) -> bool
    ensures { IsTrue result ↔ (one.now ≡ other.now) }
{
    match one {
        Checked::Context(one) => match other {
            Checked::Context(other) => same_context(one, other),
            Checked::Machine(_) => false,
        },
        Checked::Machine(one) => match other {
            Checked::Context(_) => false,
            Checked::Machine(other) => same_machine(one, other),
        },
    }
}
