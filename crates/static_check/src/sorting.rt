//! The order of components.
ghost use Rattle.std.specs.Prelude.{◌≡◌, ⊤, ℕ, List as Listed, None, IfOk, OnOk, MatchOption, length, map, reverse};
ghost use Rattle.std.specs.Option.{option_copied};
ghost use Rattle.std.specs.List.{slice_get};
ghost use Rattle.static_check.specs.Settling.{references, IsComponentOrder};
ghost use Rattle.static_check.specs.PrivateSorting.{AreNoneOpen, IsOpenReference, WaitsOrSorts, Sorts, all_open, and_waits};
ghost use Rattle.static_check.specs.PrivateSorting.{component_of, is_open, left_open, open_at, waiting_for};

use crate::settled::Order;
use formula_core::{List, Name, OutOfMemory, Ref};
use model_core::RawComponent;
use std::alloc::Global;
use std::collections::BTreeMap;

/// A component that isn't sorted, and the index of the reference for which it waited last.
#[derive(Clone, Copy)]
struct Waiting<'a> {
    component: &'a RawComponent,
    from: usize,
}

/// The names of the components that aren't sorted, with the components that wait for each.
type Open<'a> = BTreeMap<&'a str, Vec<Waiting<'a>>>;

fn is_open(names: &Open<'_>, name: &Name) -> bool
    ensures { result ≡ is_open (waiting_for names.now) name.now }
{
    names.contains_key(name.as_text())
}

fn count_references(component: &RawComponent) -> usize
    ensures { result ≡ length (references component.now) }
{
    match component {
        RawComponent::Context { extends, .. } => extends.items().len(),
        RawComponent::Machine { refines, sees, .. } => match refines {
            None => sees.items().len(),
            Some(_) => sees.items().len() + 1,
        },
    }
}

fn reference_at(component: &RawComponent, index: usize) -> Option<&Ref>
    ensures { option_copied result ≡ slice_get (references component.now) index }
{
    match component {
        RawComponent::Context { extends, .. } => extends.items().get(index),
        RawComponent::Machine { refines, sees, .. } => match refines {
            None => sees.items().get(index),
            Some(abstraction) => {
                if index == 0 {
                    Some(abstraction)
                } else {
                    sees.items().get(index - 1)
                }
            }
        },
    }
}

/// The reference at this index, if it is open.
fn open_at<'a>(names: &Open<'_>, component: &'a RawComponent, index: usize) -> Option<&'a Ref>
    ensures { option_copied result ≡ open_at (waiting_for names.now) (references component.now) index }
{
    match reference_at(component, index) {
        Some(reference) if is_open(names, &reference.name) => Some(reference),
        _ => None,
    }
}

/// The first reference that is open, from this index on, with its own.
fn first_open_from<'a>(
    names: &Open<'_>,
    component: &'a RawComponent,
    from: usize,
) -> Option<(usize, &'a Ref)>
    ensures none { from ≡ 0 → result ≡ None →
        AreNoneOpen (waiting_for names.now) (references component.entry.now) }
    ensures some { MatchOption result ⊤
        (λ p. IsOpenReference (waiting_for names.now) (references component.entry.now) p.1.now) }
{
    for index in from..count_references(component) {
        if let Some(reference) = open_at(names, component, index) {
            return Some((index, reference));
        }
    }
    None
}

/// A reference that is open, with its index. It is looked for from the one for which the component waited last, so that
/// those before it are looked up only once more.
fn find_open<'a>(names: &Open<'_>, waiting: Waiting<'a>) -> Option<(usize, &'a Ref)>
    ensures { MatchOption result
        (AreNoneOpen (waiting_for names.now) (references waiting.entry.component.now))
        (λ p. IsOpenReference (waiting_for names.now) (references waiting.entry.component.now) p.1.now) }
{
    match first_open_from(names, waiting.component, waiting.from) {
        Some(found) => Some(found),
        None => first_open_from(names, waiting.component, 0),
    }
}

/// Lets a component wait for a name that is open.
fn wait<'a>(names: &mut Open<'a>, name: &str, waiting: Waiting<'a>) -> Result<(), OutOfMemory>
    ensures { OnOk result ((x : Listed ℕ) →
        waiting_for names.new x ≡ and_waits (waiting_for names.old) name.now waiting.entry.component.now x) }
{
    if let Some(others) = names.get_mut(name) {
        others.push(waiting)?;
    }
    Ok(())
}

/// Sorts a component that has no open reference, unless its name is sorted already.
fn sort<'a>(
    alloc: Global,
    component: &RawComponent,
    names: &mut Open<'a>,
    pending: &mut Vec<Waiting<'a>>,
    sorted: &mut Vec<Name>,
) -> Result<(), OutOfMemory>
    ensures { OnOk result (Sorts component.now
        (waiting_for names.old) (map component_of pending.old.items) sorted.old.items
        (waiting_for names.new) (map component_of pending.new.items) sorted.new.items) }
{
    let name = &component.heading().name;
    if let Some(mut woken) = names.remove(name.as_text()) {
        sorted.push(name.copy(alloc)?)?;
        pending.append(&mut woken)?;
    }
    Ok(())
}

/// Sorts a component, or lets it wait for a reference.
fn take_turn<'a>(
    alloc: Global,
    waiting: Waiting<'a>,
    names: &mut Open<'a>,
    pending: &mut Vec<Waiting<'a>>,
    sorted: &mut Vec<Name>,
) -> Result<(), OutOfMemory>
    ensures { OnOk result (WaitsOrSorts waiting.entry.component.now
        (waiting_for names.old) (map component_of pending.old.items) sorted.old.items
        (waiting_for names.new) (map component_of pending.new.items) sorted.new.items) }
{
    let component = waiting.component;
    match find_open(names, waiting) {
        Some((from, reference)) => {
            wait(names, reference.name.as_text(), Waiting { component, from })
        }
        None => sort(alloc, component, names, pending, sorted),
    }
}

/// All names as open ones.
fn all_open<'a>(alloc: Global, components: &[&'a RawComponent]) -> Result<Open<'a>, OutOfMemory>
    ensures { IfOk result (λ names. (x : Listed ℕ) →
        waiting_for names x ≡ all_open (map (λ x. x.now) components.now) x) }
{
    let mut names = BTreeMap::new(alloc);
    for component in components {
        names.insert(component.heading().name.as_text(), Vec::new(alloc))?;
    }
    Ok(names)
}

/// All components, the first one last.
fn all_waiting<'a>(
    alloc: Global,
    components: &[&'a RawComponent],
) -> Result<Vec<Waiting<'a>>, OutOfMemory>
    ensures { IfOk result (λ all. map component_of all.items ≡ reverse (map (λ x. x.now) components.now)) }
{
    let mut all = Vec::new(alloc);
    for component in components {
        all.push(Waiting { component, from: 0 })?;
    }
    all.reverse();
    Ok(all)
}

/// The names that are still open.
fn left_open(
    alloc: Global,
    components: &[&RawComponent],
    names: &Open<'_>,
) -> Result<Vec<Name>, OutOfMemory>
    ensures { IfOk result (λ left. left.items
        ≡ left_open (map (λ x. x.now) components.now) (waiting_for names.now)) }
{
    let mut left = Vec::new(alloc);
    for component in components {
        if is_open(names, &component.heading().name) {
            left.push(component.heading().name.copy(alloc)?)?;
        }
    }
    Ok(left)
}

/// The components in an order in which references come first, and those that are never settled. Each reference is looked
/// up at most three times.
pub fn order(alloc: Global, components: &[&RawComponent]) -> Result<Order, OutOfMemory>
    ensures { IfOk result (λ order. IsComponentOrder (map (λ x. x.now) components.now) order) }
{
    let mut names = all_open(alloc, components)?;
    let mut pending = all_waiting(alloc, components)?;
    let mut sorted = Vec::new(alloc);
    while let Some(waiting) = pending.pop() {
        take_turn(alloc, waiting, &mut names, &mut pending, &mut sorted)?;
    }
    let cyclic = left_open(alloc, components, &names)?;
    Ok(Order {
        sorted: List::of(sorted),
        cyclic: List::of(cyclic),
    })
}
