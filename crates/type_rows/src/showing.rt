//! Formulas, actions, types and faults as texts, operators before operands.

use formula_core::{Action, Binder, Formula, Name, Op, Ty};
use std::alloc::AllocError;
use type_formula::TypeFault;

/// The signs of the operators, in the order of their numbers.
const SIGNS: [&str; 72] = [
    "⊤", "⊥", "¬", "∧", "∨", "⇒", "⇔", "=", "∈", "⊂", "⊆", "<", "≤", "finite", "TRUE", "FALSE",
    "BOOL", "ℤ", "ℕ", "ℕ1", "∅", "id", "prj1", "prj2", "pred", "succ", "↦", "↔", "<<->", "<->>",
    "<<->>", "⇸", "→", "⤔", "↣", "⤀", "↠", "⤖", "∪", "∩", "∖", "×", "◁", "⩤", "▷", "⩥", "<+", ";",
    "∥", "⊗", "‥", "+", "−", "∗", "÷", "mod", "^", "minus", "∼", "apply", "image", "ℙ", "ℙ1",
    "card", "dom", "ran", "union", "inter", "min", "max", "bool", "set",
];

/// The signs of the binders, in the order of their numbers.
const BINDER_SIGNS: [&str; 5] = ["∀", "∃", "such", "⋃", "⋂"];

fn sign_at(signs: &[&'static str], number: u8) -> &'static str {
    match signs.get(number as usize) {
        Some(sign) => *sign,
        None => "?",
    }
}

/// The place of a sign, or that behind the last one.
fn place_of(signs: &[&'static str], sign: &str) -> u8 {
    let mut place = 0u8;
    for other in signs {
        if *other == sign {
            break;
        }
        place = place.saturating_add(1);
    }
    place
}

/// The operator with a sign.
pub fn operator(sign: &str) -> Option<Op> {
    Op::of_number(place_of(&SIGNS, sign))
}

/// Writes a type.
pub fn write_type(out: &mut String, ty: &Ty) -> Result<(), AllocError> {
    match ty {
        Ty::Int => out.push_str("ℤ"),
        Ty::Bool => out.push_str("BOOL"),
        Ty::Given(name) => out.push_str(name.as_text()),
        Ty::Pow(members) => {
            out.push_str("ℙ(")?;
            write_type(out, members.get())?;
            out.push_str(")")
        }
        Ty::Pair(left, right) => {
            out.push_str("(")?;
            write_type(out, left.get())?;
            out.push_str("×")?;
            write_type(out, right.get())?;
            out.push_str(")")
        }
        Ty::Truth => out.push_str("Truth"),
    }
}

fn write_types(out: &mut String, types: &[Ty]) -> Result<(), AllocError> {
    out.push_str("[")?;
    let mut between = "";
    for ty in types {
        out.push_str(between)?;
        write_type(out, ty)?;
        between = ", ";
    }
    out.push_str("]")
}

/// Whether the operator can have several types without operands, so that its type is shown.
fn shows_type(op: Op) -> bool {
    matches!(
        op,
        Op::EmptySet | Op::Identity | Op::FirstProjection | Op::SecondProjection
    )
}

fn write_op(out: &mut String, op: Op, ty: &Ty) -> Result<(), AllocError> {
    out.push_str(sign_at(&SIGNS, op.number()))?;
    if shows_type(op) {
        out.push_str("⦂")?;
        write_type(out, ty)?;
    }
    Ok(())
}

fn write_binder(out: &mut String, binder: Binder, types: &[Ty]) -> Result<(), AllocError> {
    out.push_str(sign_at(&BINDER_SIGNS, binder.number()))?;
    write_types(out, types)
}

fn write_number(out: &mut String, mark: &str, number: i128) -> Result<(), AllocError> {
    write!(out, "{mark}{number}")
}

/// Writes a formula: a bound identifier as `#` with its index, and the types of a binder in brackets.
#[cycle(write)]
pub fn write_formula(out: &mut String, formula: &Formula) -> Result<(), AllocError> {
    match formula {
        Formula::Int(value) => write_number(out, "", *value),
        Formula::Free(name, _) => out.push_str(name.as_text()),
        Formula::Bound(at, _) => write_number(out, "#", i128::from(*at)),
        Formula::Node(op, parts, ty) => {
            write_op(out, *op, ty)?;
            write_parts(out, parts.items())
        }
        Formula::Bind(binder, types, parts, _) => {
            write_binder(out, *binder, types.items())?;
            write_parts(out, parts.items())
        }
    }
}

#[cycle(write)]
fn write_parts(out: &mut String, parts: &[Formula]) -> Result<(), AllocError> {
    if parts.is_empty() {
        return Ok(());
    }
    out.push_str("(")?;
    for (index, part) in parts.iter().enumerate() {
        if index > 0 {
            out.push_str(", ")?;
        }
        write_formula(out, part)?;
    }
    out.push_str(")")
}

/// Writes a name with its type.
pub fn write_typed_name(out: &mut String, name: &str, ty: &Ty) -> Result<(), AllocError> {
    out.push_str(name)?;
    out.push_str("⦂")?;
    write_type(out, ty)
}

/// Writes the names behind the first ones, with their types.
pub fn write_entries(
    out: &mut String,
    entries: &[(Name, Ty)],
    first: usize,
) -> Result<(), AllocError> {
    for at in first..entries.len() {
        out.push_str("; ")?;
        write_typed_name(out, entries[at].0.as_text(), &entries[at].1)?;
    }
    Ok(())
}

fn write_value(out: &mut String, name: &Name, value: &Formula) -> Result<(), AllocError> {
    out.push_str(name.as_text())?;
    out.push_str(" ≔ ")?;
    write_formula(out, value)
}

fn write_values(out: &mut String, values: &[(Name, Formula)]) -> Result<(), AllocError> {
    let mut between = "";
    for value in values {
        out.push_str(between)?;
        write_value(out, &value.0, &value.1)?;
        between = "; ";
    }
    Ok(())
}

fn write_targets(out: &mut String, targets: &[(Name, Ty)]) -> Result<(), AllocError> {
    let mut between = "";
    for (name, ty) in targets {
        out.push_str(between)?;
        write_typed_name(out, name.as_text(), ty)?;
        between = ", ";
    }
    out.push_str(" :∣ ")
}

/// Writes an action.
pub fn write_action(out: &mut String, action: &Action) -> Result<(), AllocError> {
    match action {
        Action::Assign(values) => write_values(out, values.items()),
        Action::ChooseIn(name, set) => {
            out.push_str(name.as_text())?;
            out.push_str(" :∈ ")?;
            write_formula(out, set)
        }
        Action::ChooseSuch(targets, predicate) => {
            write_targets(out, targets.items())?;
            write_formula(out, predicate)
        }
    }
}

fn write_unknown(out: &mut String, name: &Name, place: u32) -> Result<(), AllocError> {
    out.push_str("unknown ")?;
    out.push_str(name.as_text())?;
    write_number(out, " ", i128::from(place))
}

/// Writes why there is no typing.
pub fn write_fault(out: &mut String, fault: &TypeFault) -> Result<(), AllocError> {
    match fault {
        TypeFault::Unknown(name, place) => write_unknown(out, name, *place),
        TypeFault::Clash => out.push_str("clash"),
        TypeFault::Untyped => out.push_str("untyped"),
        TypeFault::OutOfMemory => out.push_str("out of memory"),
    }
}
