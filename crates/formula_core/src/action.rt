//! Actions that are the same, and copies of them.
ghost use Rattle.std.specs.Prelude.{◌≡◌, ◌↔◌, IsTrue, IfOk, map};
ghost use Rattle.formula_core.specs.Same.{same_action, same_actions};

use crate::formula::Formula;
use crate::identifiers::{copy_identifiers, same_identifiers};
use crate::list::List;
use crate::memory::OutOfMemory;
use crate::name::Name;
use crate::raw::Action;
use crate::text::Label;
use std::alloc::Global;

impl Action {
    /// Whether it is the same action.
    pub fn same(&self, other: &Action) -> bool
        ensures exact { IsTrue result ↔ (self.now ≡ other.now) }
        ensures test { result ≡ same_action self.now other.now }
    {
        self.has_same_parts(other)
    }

    fn has_same_parts(&self, other: &Action) -> bool
        ensures { IsTrue result ↔ (self.now ≡ other.now) }
    {
        match self {
            Action::Assign(values) => match other {
                Action::Assign(others) => same_values(values.items(), others.items()),
                _ => false,
            },
            Action::ChooseIn(target, set) => match other {
                Action::ChooseIn(wanted, of) => target.same(wanted) && set.same(of),
                _ => false,
            },
            Action::ChooseSuch(targets, condition) => match other {
                Action::ChooseSuch(others, wanted) => {
                    same_identifiers(targets.items(), others.items()) && condition.same(wanted)
                }
                _ => false,
            },
        }
    }

    pub fn copy(&self, alloc: Global) -> Result<Action, OutOfMemory>
        ensures { IfOk result (λ a. a ≡ self.now) }
    {
        match self {
            Action::Assign(values) => Ok(Action::Assign(copy_values(alloc, values.items())?)),
            Action::ChooseIn(target, set) => {
                Ok(Action::ChooseIn(target.copy(alloc)?, set.copy(alloc)?))
            }
            Action::ChooseSuch(targets, condition) => {
                let targets = copy_identifiers(alloc, targets.items())?;
                Ok(Action::ChooseSuch(targets, condition.copy(alloc)?))
            }
        }
    }
}

fn same_values(xs: &[(Name, Formula)], ys: &[(Name, Formula)]) -> bool
    ensures { IsTrue result ↔ (xs.now ≡ ys.now) }
{
    if xs.len() != ys.len() {
        return false;
    }
    for i in 0..xs.len() {
        if !same_value(&xs[i], &ys[i]) {
            return false;
        }
    }
    true
}

fn same_value(x: &(Name, Formula), y: &(Name, Formula)) -> bool
    ensures { IsTrue result ↔ (x.now ≡ y.now) }
{
    x.0.same(&y.0) && x.1.same(&y.1)
}

/// Whether the actions are the same, in order, whatever their labels.
pub fn same_labelled_actions(one: &[(Label, Action)], other: &[(Label, Action)]) -> bool
    ensures { result ≡ same_actions (map (λ a. a.1) one.now) (map (λ a. a.1) other.now) }
{
    have_same_actions(one, other)
}

fn have_same_actions(xs: &[(Label, Action)], ys: &[(Label, Action)]) -> bool
    ensures { IsTrue result ↔ (map (λ a. a.1) xs.now ≡ map (λ a. a.1) ys.now) }
{
    if xs.len() != ys.len() {
        return false;
    }
    for i in 0..xs.len() {
        if !xs[i].1.same(&ys[i].1) {
            return false;
        }
    }
    true
}

pub fn copy_values(
    alloc: Global,
    items: &[(Name, Formula)],
) -> Result<List<(Name, Formula)>, OutOfMemory>
    ensures { IfOk result (λ xs. xs ≡ items.now) }
{
    let mut copies = Vec::with_capacity(alloc, items.len())?;
    for item in items {
        copies.push((item.0.copy(alloc)?, item.1.copy(alloc)?))?;
    }
    Ok(List::of(copies))
}

pub fn copy_labelled_actions(
    alloc: Global,
    items: &[(Label, Action)],
) -> Result<List<(Label, Action)>, OutOfMemory>
    ensures { IfOk result (λ xs. xs ≡ items.now) }
{
    let mut copies = Vec::with_capacity(alloc, items.len())?;
    for item in items {
        copies.push((item.0.copy(alloc)?, item.1.copy(alloc)?))?;
    }
    Ok(List::of(copies))
}
