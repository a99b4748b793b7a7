//! Values of names.
ghost use Rattle.std.specs.Prelude.{◌≡◌, IfOk, bytes_eq};
ghost use Rattle.std.specs.Map.{lookup};
ghost use Rattle.std.specs.Option.{option_copied};
ghost use Rattle.formula_core.specs.declared.ty.Ty.{out-Ty};
ghost use Rattle.value_sets.specs.Sets.{IsTold};
ghost use Rattle.formula_values.specs.Means.{given_at, is_carrier, HasSize, IsKnown, IsNamed};
ghost use Rattle.formula_values.specs.Private.{answered};

use crate::operand::{Operand, known, made};
use crate::values::Values;
use event_values::Value;
use formula_core::{Name, OutOfMemory, Ty};
use std::alloc::Global;
use value_sets::{ValueFault, elements};

fn is_given(name: &Name, ty: &Ty) -> bool
    ensures { result ≡ given_at name.now (out-Ty ty.now) }
{
    match ty {
        Ty::Given(set) => name.same(set),
        _ => false,
    }
}

/// Whether the name is that of a carrier set.
fn is_carrier(name: &Name, ty: &Ty) -> bool
    ensures { result ≡ is_carrier name.now ty.now }
{
    match ty {
        Ty::Pow(member) => is_given(name, member.get()),
        _ => false,
    }
}

fn size_of(sizes: &[(Name, u32)], set: &Name) -> Option<u32>
    ensures { result ≡ lookup (bytes_eq set.now) sizes.now }
{
    for entry in sizes {
        if set.same(&entry.0) {
            return Some(entry.1);
        }
    }
    None
}

fn value_of<'a>(entries: &'a [(Name, Value)], name: &Name) -> Option<&'a Value>
    ensures { option_copied result ≡ lookup (bytes_eq name.now) entries.now }
{
    for entry in entries {
        if name.same(&entry.0) {
            return Some(&entry.1);
        }
    }
    None
}

fn copied(alloc: Global, name: &Name) -> Result<Name, OutOfMemory>
    ensures { IfOk result (λ n. n ≡ name.now) }
{
    name.copy(alloc)
}

#[tactic(auto, using(crate::proofs::Named::sizes))]
fn sized(alloc: Global, name: &Name, sizes: &[(Name, u32)]) -> Result<Value, ValueFault>
    ensures { IsTold (HasSize sizes.now name.now) result }
{
    match size_of(sizes, name) {
        Some(size) => elements(alloc, name, size),
        None => Err(ValueFault::NoValue(copied(alloc, name)?)),
    }
}

#[tactic(auto, using(crate::proofs::Named::entries))]
fn looked_up<'a>(
    alloc: Global,
    name: &Name,
    entries: &'a [(Name, Value)],
) -> Result<Operand<'a>, ValueFault>
    ensures { IsTold (IsKnown entries.now name.now) (answered result) }
{
    match value_of(entries, name) {
        Some(v) => known(v),
        None => Err(ValueFault::NoValue(copied(alloc, name)?)),
    }
}

/// The value of a name: all elements of a carrier set, or what is known of it.
#[tactic(auto, using(crate::proofs::Named::names))]
pub(crate) fn named<'a>(
    alloc: Global,
    name: &Name,
    ty: &Ty,
    values: &'a Values,
) -> Result<Operand<'a>, ValueFault>
    ensures { IsTold (IsNamed values.now name.now (is_carrier name.now ty.now)) (answered result) }
{
    if is_carrier(name, ty) {
        made(sized(alloc, name, values.sizes.items()))
    } else {
        looked_up(alloc, name, values.known.items())
    }
}
