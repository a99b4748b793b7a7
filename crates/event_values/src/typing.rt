//! Whether a value is one of a type.
ghost use Rattle.std.specs.Prelude.{◌≡◌, bytes_eq};
ghost use Rattle.std.specs.List.{list_all};
ghost use Rattle.std.specs.Map.{lookup};
ghost use Rattle.event_values.specs.declared.value.Value.{out-Value};
ghost use Rattle.event_values.specs.Typed.{is_number_at, is_truth_value_at, is_element_at, is_value_of};

use crate::lists::ascends;
use crate::value::Value;
use formula_core::{Name, Ty};

/// Whether the value is one of the type, where carrier sets have these sizes: of each set in it the members ascend.
#[cycle(typing)]
pub fn is_value_of(value: &Value, ty: &Ty, sizes: &[(Name, u32)]) -> bool
    ensures { result ≡ is_value_of sizes.now ty.now value.now }
{
    match ty {
        Ty::Int => is_number(value),
        Ty::Bool | Ty::Truth => is_truth(value),
        Ty::Given(set) => is_element(value, set, sizes),
        Ty::Pow(member) => match value {
            Value::Set(members) => {
                are_values_of(members.items(), member.get(), sizes) && ascends(members.items())
            }
            _ => false,
        },
        Ty::Pair(left, right) => match value {
            Value::Pair(v, w) => {
                is_value_of(v.get(), left.get(), sizes) && is_value_of(w.get(), right.get(), sizes)
            }
            _ => false,
        },
    }
}

#[cycle(typing)]
fn are_values_of(values: &[Value], ty: &Ty, sizes: &[(Name, u32)]) -> bool
    ensures { result ≡ list_all (is_value_of sizes.now ty.now) values.now }
{
    for value in values {
        if !is_value_of(value, ty, sizes) {
            return false;
        }
    }
    true
}

#[tactic(auto, using(crate::proofs::Fitting::fits_true))]
fn is_number(value: &Value) -> bool
    ensures { result ≡ is_number_at (out-Value value.now) }
{
    match value {
        Value::Int(n) => {
            let _n = *n;
            true
        }
        _ => false,
    }
}

fn is_truth(value: &Value) -> bool
    ensures { result ≡ is_truth_value_at (out-Value value.now) }
{
    match value {
        Value::Truth(_) => true,
        _ => false,
    }
}

#[tactic(auto, using(crate::proofs::Fitting::elements))]
fn is_element(value: &Value, set: &Name, sizes: &[(Name, u32)]) -> bool
    ensures { result ≡ is_element_at sizes.now set.now (out-Value value.now) }
{
    match value {
        Value::Elem(of, k) => {
            let k = *k;
            match size_of(sizes, set) {
                Some(size) => of.same(set) && k < size,
                None => false,
            }
        }
        _ => false,
    }
}

pub(crate) fn size_of(sizes: &[(Name, u32)], set: &Name) -> Option<u32>
    ensures { result ≡ lookup (bytes_eq set.now) sizes.now }
{
    for entry in sizes {
        if set.same(&entry.0) {
            return Some(entry.1);
        }
    }
    None
}
