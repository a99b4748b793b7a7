//! What a formula means.

use crate::reading::{expression_of, predicate_of, put};
use event_values::{Value, read_value, value_text};
use formula_core::{Env, Formula, List, Name};
use formula_values::{ValueFault, Values, evaluate};
use std::alloc::Global;

fn sizes_of(alloc: Global, texts: &str) -> Option<List<(Name, u32)>> {
    let mut sizes = Vec::new(alloc);
    if texts != "-" {
        for text in texts.split(" ;; ") {
            let (set, size) = text.split_once(' ')?;
            let size = size.parse::<u32>().ok()?;
            put(&mut sizes, (Name::read(alloc, set).ok()?, size)).ok()?;
        }
    }
    Some(List::of(sizes))
}

// The value of a name, read at its type.
fn value_of(
    alloc: Global,
    names: &Env,
    sizes: &[(Name, u32)],
    name: &str,
    text: &str,
) -> Option<Value> {
    match &expression_of(alloc, names, name)? {
        Formula::Free(_, ty) => read_value(alloc, text, ty, sizes).ok(),
        _ => None,
    }
}

fn known_of(
    alloc: Global,
    names: &Env,
    sizes: &[(Name, u32)],
    texts: &str,
) -> Option<List<(Name, Value)>> {
    let mut known = Vec::new(alloc);
    if texts != "-" {
        for text in texts.split(" ;; ") {
            let (name, text) = text.split_once(' ')?;
            let value = value_of(alloc, names, sizes, name, text)?;
            put(&mut known, (Name::read(alloc, name).ok()?, value)).ok()?;
        }
    }
    Some(List::of(known))
}

fn add_fault(fault: ValueFault, out: &mut String) -> Option<()> {
    match fault {
        ValueFault::NotComputed => out.push_str("not computed").ok(),
        ValueFault::NoValue(name) => {
            let name = name.as_text();
            write!(out, "no value of {name}").ok()
        }
        ValueFault::Undefined => out.push_str("undefined").ok(),
        ValueFault::TooWide(m, n) => write!(out, "too wide {m} {n}").ok(),
        ValueFault::TooLarge => out.push_str("too large").ok(),
        ValueFault::OutOfMemory => None,
    }
}

/// Writes the value of a formula, or its first fault.
pub fn add_value(
    alloc: Global,
    names: &Env,
    is_predicate: bool,
    parts: &str,
    out: &mut String,
) -> Option<()> {
    let (sizes, parts) = parts.split_once('\t')?;
    let (known, text) = parts.split_once('\t')?;
    let sizes = sizes_of(alloc, sizes)?;
    let known = known_of(alloc, names, sizes.items(), known)?;
    let formula = if is_predicate {
        predicate_of(alloc, names, text)?
    } else {
        expression_of(alloc, names, text)?
    };
    match evaluate(alloc, &formula, &Values { sizes, known }) {
        Ok(value) => out.push_str(value_text(alloc, &value).ok()?.as_str()).ok(),
        Err(fault) => add_fault(fault, out),
    }
}
