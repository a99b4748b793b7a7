//! What a component sees of others.

ghost use Rattle.std.specs.Prelude.{◌≡◌, ◌++◌, ◌∷◌, [], ◌||◌, ◌&&◌, ℕ, List, Some, None, IfOk, OnOk};
ghost use Rattle.std.specs.Prelude.{bytes_eq, map, not};
ghost use Rattle.std.specs.List.{filter, zip};
ghost use Rattle.std.specs.Option.{option_copied, option_map, option_to_list};
ghost use Rattle.formula_core.specs.Env.{HasDistinctNames};
ghost use Rattle.model_core.specs.Each.{is_among};
ghost use Rattle.model_core.specs.Faults.{fault_at, first_by_place};
ghost use Rattle.check_rules.specs.Components.{AreByName};
ghost use Rattle.check_rules.specs.Declarations.{brings_clash};
ghost use Rattle.check_rules.specs.Visible.{entries, nothing, origins};
ghost use Rattle.check_rules.specs.Visible.{seen_from, with_context, with_new};
ghost use Rattle.model_core.specs.Borrowed.{texts, has};
ghost use Rattle.context_check.specs.Views.{placed, differs, clashes, clashes_with, visible, IsIndexed};
ghost use Rattle.context_check.specs.Private.{first_clashing};
ghost use Rattle.context_check.specs.Brought.{clash_in};

use crate::brought::{add_once, clash_of, nothing_brought};
use crate::declarations::{Texts, has, put};
use formula_core::{Name, OutOfMemory, Ref, Ty};
use model_core::{CheckedContext, Fault, FaultKind, Labelled, Shared, earlier, fault_at};
use std::alloc::Global;
use std::collections::{BTreeMap, BTreeSet};

/// A part of a component, with the component's name.
pub type Placed<'a, T> = (&'a T, &'a Shared<Name>);

/// The components in which a name stands.
#[derive(Clone, Copy)]
pub enum Origin<'a> {
    One(&'a Name),
    Several,
}

/// The components in which names stand.
pub type Origins<'a> = BTreeMap<&'a str, Origin<'a>>;

/// What is seen of other components, borrowed from them, with sets by which it is looked up.
#[derive(Drop)]
pub struct View<'a> {
    pub contexts: Vec<&'a Name>,
    pub constants: Vec<Placed<'a, (Name, Ty)>>,
    pub variables: Vec<Placed<'a, (Name, Ty)>>,
    pub axioms: Vec<Placed<'a, Labelled>>,
    pub known_contexts: Texts<'a>,
    /// The components of `constants`.
    pub known_constants: Texts<'a>,
    /// The components of `axioms`.
    pub known_axioms: Texts<'a>,
    pub names: Origins<'a>,
}

fn add_pair<'a, T>(
    pairs: &mut Vec<Placed<'a, T>>,
    part: Option<&'a T>,
    origin: &'a Shared<Name>,
) -> Result<(), OutOfMemory>
    ensures { OnOk result (map placed pairs.new.items ≡ map placed pairs.old.items
        ++ option_to_list (option_map (λ x. (x, origin.entry.now)) (option_copied part.entry))) }
{
    if let Some(part) = part {
        pairs.push((part, origin))?;
    }
    Ok(())
}

/// The parts with their components, as far as both lists go.
pub fn pairs<'a, T>(
    alloc: Global,
    parts: &'a [T],
    origins: &'a [Shared<Name>],
) -> Result<Vec<Placed<'a, T>>, OutOfMemory>
    ensures { IfOk result (λ pairs. map placed pairs.items ≡ zip parts.entry.now origins.entry.now) }
{
    let mut pairs = Vec::new(alloc);
    for (at, origin) in origins.iter().enumerate() {
        add_pair(&mut pairs, parts.get(at), origin)?;
    }
    Ok(pairs)
}

fn add_fresh<'a, T>(
    fresh: &mut Vec<Placed<'a, T>>,
    known: &Texts<'_>,
    pair: &Placed<'a, T>,
) -> Result<(), OutOfMemory>
    ensures { OnOk result (map placed fresh.new.items ≡ map placed fresh.old.items
        ++ filter (λ x. not (has known.now x.1)) (placed pair.now ∷ [])) }
{
    if !has(known, pair.1.get().as_text()) {
        fresh.push(*pair)?;
    }
    Ok(())
}

/// The parts of components that aren't known.
fn fresh_of<'a, T>(
    alloc: Global,
    known: &Texts<'_>,
    pairs: &[Placed<'a, T>],
) -> Result<Vec<Placed<'a, T>>, OutOfMemory>
    ensures { IfOk result (λ fresh.
        map placed fresh.items ≡ filter (λ x. not (has known.now x.1)) (map placed pairs.now)) }
{
    let mut fresh = Vec::new(alloc);
    for pair in pairs {
        add_fresh(&mut fresh, known, pair)?;
    }
    Ok(fresh)
}

fn push_part<'a, T>(
    parts: &mut Vec<Placed<'a, T>>,
    known: &mut Texts<'a>,
    pair: &Placed<'a, T>,
) -> Result<(), OutOfMemory>
    ensures parts { OnOk result (map placed parts.new.items ≡ map placed parts.old.items ++ placed pair.now ∷ []) }
    ensures known { OnOk result ((x : List ℕ) → has known.new x ≡ (has known.old x || bytes_eq x pair.now.1.now)) }
{
    put(known, pair.1.get().as_text())?;
    parts.push(*pair)?;
    Ok(())
}

pub fn push_parts<'a, T>(
    parts: &mut Vec<Placed<'a, T>>,
    known: &mut Texts<'a>,
    fresh: &[Placed<'a, T>],
) -> Result<(), OutOfMemory>
    ensures parts { OnOk result (map placed parts.new.items ≡ map placed parts.old.items ++ map placed fresh.now) }
    ensures known { OnOk result ((x : List ℕ)
        → has known.new x ≡ (has known.old x || is_among (origins (map placed fresh.now)) x)) }
{
    for pair in fresh {
        push_part(parts, known, pair)?;
    }
    Ok(())
}

fn add_fresh_name<'a>(
    fresh: &mut Vec<&'a Name>,
    known: &Texts<'_>,
    name: &'a Name,
) -> Result<(), OutOfMemory>
    ensures { OnOk result (texts fresh.new.items ≡ texts fresh.old.items
        ++ filter (λ n. not (has known.now n)) (name.entry.now ∷ [])) }
{
    if !has(known, name.as_text()) {
        fresh.push(name)?;
    }
    Ok(())
}

fn add_fresh_names<'a>(
    fresh: &mut Vec<&'a Name>,
    known: &Texts<'_>,
    names: &'a [Name],
) -> Result<(), OutOfMemory>
    ensures { OnOk result (texts fresh.new.items ≡ texts fresh.old.items
        ++ filter (λ n. not (has known.now n)) names.entry.now) }
{
    for name in names {
        add_fresh_name(fresh, known, name)?;
    }
    Ok(())
}

fn push_name<'a>(
    names: &mut Vec<&'a Name>,
    known: &mut Texts<'a>,
    name: &'a Name,
) -> Result<(), OutOfMemory>
    ensures names { OnOk result (texts names.new.items ≡ texts names.old.items ++ name.entry.now ∷ []) }
    ensures known { OnOk result ((x : List ℕ) → has known.new x ≡ (has known.old x || bytes_eq x name.entry.now)) }
{
    put(known, name.as_text())?;
    names.push(name)?;
    Ok(())
}

fn push_names<'a>(
    names: &mut Vec<&'a Name>,
    known: &mut Texts<'a>,
    fresh: &[&'a Name],
) -> Result<(), OutOfMemory>
    ensures names { OnOk result (texts names.new.items ≡ texts names.old.items ++ texts fresh.now) }
    ensures known { OnOk result ((x : List ℕ) → has known.new x ≡ (has known.old x || is_among (texts fresh.now) x)) }
{
    for name in fresh {
        push_name(names, known, name)?;
    }
    Ok(())
}

fn origin_after<'a>(known: Option<&Origin<'a>>, origin: &'a Name) -> Origin<'a>
    ensures { (o : List ℕ)
        → differs (Some result) o ≡ (differs (option_copied known.entry) o || not (bytes_eq o origin.entry.now)) }
{
    match known {
        None => Origin::One(origin),
        Some(Origin::Several) => Origin::Several,
        Some(Origin::One(name)) => {
            if name.same(origin) {
                Origin::One(name)
            } else {
                Origin::Several
            }
        }
    }
}

fn note<'a>(names: &mut Origins<'a>, name: &'a Name, origin: &'a Name) -> Result<(), OutOfMemory>
    ensures { OnOk result ((x : List ℕ) (o : List ℕ) → clashes names.new x o
        ≡ (clashes names.old x o || (bytes_eq x name.entry.now && not (bytes_eq o origin.entry.now)))) }
{
    let after = origin_after(names.get(name.as_text()), origin);
    names.insert(name.as_text(), after)?;
    Ok(())
}

/// Notes the components in which names stand.
pub fn note_all<'a>(
    names: &mut Origins<'a>,
    pairs: &[Placed<'a, (Name, Ty)>],
) -> Result<(), OutOfMemory>
    ensures { OnOk result ((x : List ℕ) (o : List ℕ)
        → clashes names.new x o ≡ (clashes names.old x o || clashes_with (map placed pairs.now) x o)) }
{
    for pair in pairs {
        note(names, &pair.0.0, pair.1.get())?;
    }
    Ok(())
}

/// Adds the parts of components that aren't known yet, and answers them.
fn add_new<'a, T>(
    alloc: Global,
    parts: &mut Vec<Placed<'a, T>>,
    known: &mut Texts<'a>,
    more: &'a [T],
    components: &'a [Shared<Name>],
) -> Result<Vec<Placed<'a, T>>, OutOfMemory>
    requires { (x : List ℕ) → has known.now x ≡ is_among (origins (map placed parts.now.items)) x }
    ensures parts { OnOk result
        (map placed parts.new.items ≡ with_new (map placed parts.old.items) (zip more.entry.now components.entry.now)) }
    ensures known { OnOk result ((x : List ℕ)
        → has known.new x ≡ is_among (origins (map placed parts.new.items)) x) }
    ensures fresh { IfOk result (λ fresh.
        map placed parts.new.items ≡ map placed parts.old.items ++ map placed fresh.items) }
{
    let pairs = pairs(alloc, more, components)?;
    let fresh = fresh_of(alloc, known, &pairs)?;
    push_parts(parts, known, &fresh)?;
    Ok(fresh)
}

/// Adds those of a context and the contexts above it that aren't known yet.
fn add_contexts<'a>(
    alloc: Global,
    contexts: &mut Vec<&'a Name>,
    known: &mut Texts<'a>,
    ancestors: &'a [Name],
    name: &'a Name,
) -> Result<(), OutOfMemory>
    requires { (x : List ℕ) → has known.now x ≡ is_among (texts contexts.now.items) x }
    ensures contexts { OnOk result (texts contexts.new.items ≡ texts contexts.old.items
        ++ filter (λ n. not (is_among (texts contexts.old.items) n)) (ancestors.entry.now ++ name.entry.now ∷ [])) }
    ensures known { OnOk result ((x : List ℕ) → has known.new x ≡ is_among (texts contexts.new.items) x) }
{
    let mut fresh = Vec::new(alloc);
    add_fresh_names(&mut fresh, known, ancestors)?;
    add_fresh_name(&mut fresh, known, name)?;
    push_names(contexts, known, &fresh)?;
    Ok(())
}

/// Adds what a context brings.
pub(crate) fn add_context<'a>(
    alloc: Global,
    view: &mut View<'a>,
    context: &'a CheckedContext,
) -> Result<(), OutOfMemory>
    requires { IsIndexed view.now }
    ensures seen { OnOk result (visible view.new ≡ with_context (visible view.old) context.entry.now) }
    ensures indexed { OnOk result (IsIndexed view.new) }
    ensures distinct { OnOk result (HasDistinctNames context.entry.now.env) }
{
    add_contexts(
        alloc,
        &mut view.contexts,
        &mut view.known_contexts,
        context.ancestors.items(),
        &context.name,
    )?;
    let fresh = add_new(
        alloc,
        &mut view.constants,
        &mut view.known_constants,
        context.env.entries(),
        context.env_of.items(),
    )?;
    note_all(&mut view.names, &fresh)?;
    add_new(
        alloc,
        &mut view.axioms,
        &mut view.known_axioms,
        context.axioms.items(),
        context.axioms_of.items(),
    )?;
    Ok(())
}

/// Nothing is seen.
pub fn nothing_seen<'a>(alloc: Global) -> View<'a>
    ensures seen { visible result ≡ nothing }
    ensures indexed { IsIndexed result }
{
    View {
        contexts: Vec::new(alloc),
        constants: Vec::new(alloc),
        variables: Vec::new(alloc),
        axioms: Vec::new(alloc),
        known_contexts: BTreeSet::new(alloc),
        known_constants: BTreeSet::new(alloc),
        known_axioms: BTreeSet::new(alloc),
        names: BTreeMap::new(alloc),
    }
}

/// Whether the name stands in another component.
fn is_clash(names: &Origins<'_>, pair: &Placed<'_, (Name, Ty)>) -> bool
    ensures { result ≡ clashes names.now pair.now.0.now.0 pair.now.1.now }
{
    match names.get(pair.0.0.as_text()) {
        None => false,
        Some(Origin::Several) => true,
        Some(Origin::One(name)) => !pair.1.get().same(name),
    }
}

fn first_clash<'a>(names: &Origins<'_>, pairs: &[Placed<'a, (Name, Ty)>]) -> Option<&'a Name>
    ensures { option_map (λ n. n.now) result ≡ first_clashing (clashes names.now) (map placed pairs.now) }
{
    for pair in pairs {
        if is_clash(names, pair) {
            return Some(&pair.0.0);
        }
    }
    None
}

fn clash_told(
    alloc: Global,
    component: &Name,
    place: u32,
    found: Option<&Name>,
) -> Result<Option<Fault>, OutOfMemory>
    ensures { IfOk result (λ here. here
        ≡ option_map (λ n. fault_at component.now FaultKind.DeclaredTwice place n)
        (option_map (λ n. n.now) found.entry)) }
{
    let Some(name) = found else {
        return Ok(None);
    };
    let here = fault_at(
        alloc,
        component,
        FaultKind::DeclaredTwice,
        place,
        name.as_text(),
    )?;
    Ok(Some(here))
}

/// The first name of a context that another component has.
pub(crate) fn clash_name<'a>(
    alloc: Global,
    view: &View<'_>,
    context: &'a CheckedContext,
) -> Result<Option<&'a Name>, OutOfMemory>
    requires { IsIndexed view.now }
    ensures { IfOk result (λ found. option_map (λ n. n.now) found ≡ clash_in (visible view.now) context.entry.now) }
{
    let pairs = pairs(alloc, context.env.entries(), context.env_of.items())?;
    Ok(first_clash(&view.names, &pairs))
}

/// Adds the contexts. The answer is the first clash that a reference to one of them brings. A reference that is repeated
/// costs no more than two look-ups, but for the first one after something new was seen.
pub fn add_referenced<'a>(
    alloc: Global,
    component: &Name,
    view: &mut View<'a>,
    references: &[Ref],
    contexts: &[&'a CheckedContext],
) -> Result<Option<Fault>, OutOfMemory>
    requires indexed { IsIndexed view.now }
    requires each { AreByName references.now (map (λ c. c.now) contexts.now) }
    ensures first { IfOk result (λ first. first ≡ first_by_place
        (brings_clash component.now (visible view.old) (zip references.now (map (λ c. c.now) contexts.now)))) }
    ensures seen { OnOk result (visible view.new ≡ seen_from (visible view.old) (map (λ c. c.now) contexts.now)) }
    ensures indexed { OnOk result (IsIndexed view.new) }
    ensures distinct { HasDistinctNames (entries (visible view.old).constants) → IfOk result (λ first.
        first ≡ None → HasDistinctNames (entries (visible view.new).constants)) }
{
    let mut first = None;
    let mut brought = nothing_brought(alloc);
    for (at, context) in contexts.iter().enumerate() {
        let reference = &references[at];
        let found = clash_of(alloc, view, &mut brought.clashes, reference, context)?;
        let here = clash_told(alloc, component, reference.place, found)?;
        first = earlier(first, here);
        add_once(alloc, view, &mut brought, reference, context)?;
    }
    Ok(first)
}
