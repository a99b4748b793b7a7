//! Formulas and actions as they are written: as trees, each node in parentheses with its operator and then its parts, or as printed texts.

use crate::kinds::{Form, Reading};
use crate::reading::{action_of, formula_of, write_fault};
use crate::shown::{write_number, write_value};
use formula_core::{Name, OutOfMemory, Raw, RawAction, RawBinder, RawBound, RawOp, Ref};
use raw_print::{print_action, print_formula};
use std::alloc::{AllocError, Global};

fn write_place(out: &mut String, with_places: bool, place: u32) -> Result<(), AllocError> {
    if with_places {
        write_number(out, "@", place)
    } else {
        Ok(())
    }
}

fn write_op(out: &mut String, op: RawOp) -> Result<(), AllocError> {
    match op {
        RawOp::Plain(op) => write_value(out, &op),
        other => write_value(out, &other),
    }
}

fn write_binder(out: &mut String, binder: RawBinder) -> Result<(), AllocError> {
    match binder {
        RawBinder::Plain(binder) => write_value(out, &binder),
        RawBinder::Implicit(binder) => {
            out.push_str("Implicit")?;
            write_value(out, &binder)
        }
        RawBinder::Lambda => out.push_str("Lambda"),
    }
}

fn write_name(
    out: &mut String,
    with_places: bool,
    name: &Name,
    place: u32,
) -> Result<(), AllocError> {
    out.push_str(name.as_text())?;
    write_place(out, with_places, place)
}

/// Writes a formula, with the byte place of each node if that is asked for.
#[cycle(write)]
fn write_tree(out: &mut String, formula: &Raw, with_places: bool) -> Result<(), AllocError> {
    match formula {
        Raw::Int(value, place) => {
            write_value(out, value)?;
            write_place(out, with_places, *place)
        }
        Raw::Name(name, place) => write_name(out, with_places, name, *place),
        Raw::Node(op, parts, place) => {
            out.push_str("(")?;
            write_op(out, *op)?;
            write_parts(out, parts.items(), with_places)?;
            write_place(out, with_places, *place)
        }
        Raw::Bind(binder, names, parts, place) => {
            out.push_str("(")?;
            write_binder(out, *binder)?;
            write_names(out, names.items(), with_places)?;
            write_parts(out, parts.items(), with_places)?;
            write_place(out, with_places, *place)
        }
    }
}

#[cycle(write)]
fn write_parts(out: &mut String, parts: &[Raw], with_places: bool) -> Result<(), AllocError> {
    for part in parts {
        out.push_str(" ")?;
        write_tree(out, part, with_places)?;
    }
    out.push_str(")")
}

#[cycle(write)]
fn write_names(out: &mut String, names: &[RawBound], with_places: bool) -> Result<(), AllocError> {
    for bound in names {
        out.push_str(" ")?;
        write_name(out, with_places, &bound.name, bound.place)?;
        if let Some(ty) = &bound.ty {
            out.push_str(":")?;
            write_tree(out, ty.get(), with_places)?;
        }
    }
    out.push_str(".")
}

fn write_target(out: &mut String, target: &Ref, with_places: bool) -> Result<(), AllocError> {
    out.push_str(" ")?;
    write_name(out, with_places, &target.name, target.place)
}

fn write_targets(out: &mut String, targets: &[Ref], with_places: bool) -> Result<(), AllocError> {
    for target in targets {
        write_target(out, target, with_places)?;
    }
    out.push_str(" :=")
}

/// Writes an action: its kind, the targets, := and the formulas.
fn write_action_tree(
    out: &mut String,
    action: &RawAction,
    with_places: bool,
) -> Result<(), AllocError> {
    match action {
        RawAction::Assign(targets, values) => {
            out.push_str("(Assign")?;
            write_targets(out, targets.items(), with_places)?;
            write_parts(out, values.items(), with_places)
        }
        RawAction::Apply(target, argument, value) => {
            out.push_str("(Apply")?;
            write_target(out, target, with_places)?;
            out.push_str(" ")?;
            write_tree(out, argument, with_places)?;
            out.push_str(" := ")?;
            write_tree(out, value, with_places)?;
            out.push_str(")")
        }
        RawAction::ChooseIn(target, set) => {
            out.push_str("(ChooseIn")?;
            write_target(out, target, with_places)?;
            out.push_str(" := ")?;
            write_tree(out, set, with_places)?;
            out.push_str(")")
        }
        RawAction::ChooseSuch(targets, predicate) => {
            out.push_str("(ChooseSuch")?;
            write_targets(out, targets.items(), with_places)?;
            out.push_str(" ")?;
            write_tree(out, predicate, with_places)?;
            out.push_str(")")
        }
    }
}

fn or_no_memory(printed: Result<(), OutOfMemory>) -> Result<(), AllocError> {
    match printed {
        Ok(()) => Ok(()),
        Err(_) => Err(AllocError),
    }
}

fn write_formula(out: &mut String, reading: Reading, formula: &Raw) -> Result<(), AllocError> {
    match reading {
        Reading::Tree => write_tree(out, formula, false),
        Reading::TreeWithPlaces => write_tree(out, formula, true),
        Reading::Whether => out.push_str("read"),
        Reading::Written => or_no_memory(print_formula(out, formula)),
    }
}

fn write_action(out: &mut String, reading: Reading, action: &RawAction) -> Result<(), AllocError> {
    match reading {
        Reading::Tree => write_action_tree(out, action, false),
        Reading::TreeWithPlaces => write_action_tree(out, action, true),
        Reading::Whether => out.push_str("read"),
        Reading::Written => or_no_memory(print_action(out, action)),
    }
}

fn write_formula_reading(
    alloc: Global,
    out: &mut String,
    reading: Reading,
    form: Form,
    text: &str,
) -> Result<(), AllocError> {
    let formula = formula_of(alloc, form, text);
    match &formula {
        Ok(formula) => write_formula(out, reading, formula),
        Err(fault) => write_fault(out, *fault),
    }
}

fn write_action_reading(
    alloc: Global,
    out: &mut String,
    reading: Reading,
    text: &str,
) -> Result<(), AllocError> {
    let action = action_of(alloc, text);
    match &action {
        Ok(action) => write_action(out, reading, action),
        Err(fault) => write_fault(out, *fault),
    }
}

/// Reads the text, and writes what is asked of the formula or the action.
pub fn write_reading(
    alloc: Global,
    out: &mut String,
    reading: Reading,
    form: Form,
    text: &str,
) -> Result<(), AllocError> {
    match form {
        Form::Action => write_action_reading(alloc, out, reading, text),
        _ => write_formula_reading(alloc, out, reading, form, text),
    }
}
