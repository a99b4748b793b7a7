//! What the references before brought, so that a repeated reference costs no more than two look-ups.

ghost use Rattle.std.specs.Prelude.{◌≡◌, ℕ, List, Option, Some, IfOk, OnOk};
ghost use Rattle.std.specs.Option.{option_map};
ghost use Rattle.formula_core.specs.Env.{HasDistinctNames};
ghost use Rattle.model_core.specs.declared.checked.CheckedContext.{CheckedContext};
ghost use Rattle.check_rules.specs.Visible.{Visible, with_context};
ghost use Rattle.context_check.specs.Views.{visible, IsIndexed};
ghost use Rattle.context_check.specs.Brought.{AreNoted, IsBrought, clash_in};

use crate::declarations::{Texts, has, put};
use crate::visible::{View, add_context, clash_name};
use formula_core::{Name, OutOfMemory, Ref};
use model_core::CheckedContext;
use std::alloc::Global;
use std::collections::{BTreeMap, BTreeSet};

/// The clash that a reference brings, if it brings one, by the reference's name.
pub type Clashes<'r, 'a> = BTreeMap<&'r str, Option<&'a Name>>;

/// The names of the references whose contexts are seen, and the clashes that were looked for since the last context came.
#[derive(Drop)]
pub struct Brought<'r, 'a> {
    pub names: Texts<'r>,
    pub clashes: Clashes<'r, 'a>,
}

pub(crate) fn nothing_brought<'r, 'a>(alloc: Global) -> Brought<'r, 'a>
    ensures { (named : List ℕ → Option CheckedContext) (v : Visible) → IsBrought named v result }
{
    Brought {
        names: BTreeSet::new(alloc),
        clashes: BTreeMap::new(alloc),
    }
}

/// The first name of a referenced context that another component has.
pub(crate) fn clash_of<'r, 'a>(
    alloc: Global,
    view: &View<'_>,
    clashes: &mut Clashes<'r, 'a>,
    reference: &'r Ref,
    context: &'a CheckedContext,
) -> Result<Option<&'a Name>, OutOfMemory>
    requires { IsIndexed view.now }
    ensures found { (named : List ℕ → Option CheckedContext) → named reference.entry.now.name ≡ Some context.entry.now
        → AreNoted named (visible view.now) clashes.old
        → IfOk result (λ found. option_map (λ n. n.now) found ≡ clash_in (visible view.now) context.entry.now) }
    ensures noted { (named : List ℕ → Option CheckedContext) → named reference.entry.now.name ≡ Some context.entry.now
        → AreNoted named (visible view.now) clashes.old
        → OnOk result (AreNoted named (visible view.now) clashes.new) }
{
    let name = reference.name.as_text();
    if let Some(found) = clashes.get(name) {
        return Ok(*found);
    }
    let found = clash_name(alloc, view, context)?;
    clashes.insert(name, found)?;
    Ok(found)
}

/// Adds what a referenced context brings, unless a reference of the same name came before.
pub(crate) fn add_once<'r, 'a>(
    alloc: Global,
    view: &mut View<'a>,
    brought: &mut Brought<'r, 'a>,
    reference: &'r Ref,
    context: &'a CheckedContext,
) -> Result<(), OutOfMemory>
    requires { IsIndexed view.now }
    ensures seen { (named : List ℕ → Option CheckedContext) → named reference.entry.now.name ≡ Some context.entry.now
        → IsBrought named (visible view.old) brought.old
        → OnOk result (visible view.new ≡ with_context (visible view.old) context.entry.now) }
    ensures brought { (named : List ℕ → Option CheckedContext) → named reference.entry.now.name ≡ Some context.entry.now
        → IsBrought named (visible view.old) brought.old
        → OnOk result (IsBrought named (visible view.new) brought.new) }
    ensures indexed { OnOk result (IsIndexed view.new) }
    ensures distinct { (named : List ℕ → Option CheckedContext) → named reference.entry.now.name ≡ Some context.entry.now
        → IsBrought named (visible view.old) brought.old → OnOk result (HasDistinctNames context.entry.now.env) }
{
    let name = reference.name.as_text();
    if has(&brought.names, name) {
        return Ok(());
    }
    add_context(alloc, view, context)?;
    put(&mut brought.names, name)?;
    brought.clashes.clear();
    Ok(())
}
