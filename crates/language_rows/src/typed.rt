//! Typed formulas and their conditions as printed texts, which are read and typed again.

use crate::kinds::{Form, Typing};
use crate::reading::{Fault, formula_of, write_fault};
use formula_core::{Env, Formula, List, Op, Raw, Ty};
use std::alloc::{AllocError, Global};
use type_formula::type_expression;
use well_defined::wd;

/// A high formula stands below so many negations.
const NEGATIONS: u32 = 4_093;

fn typed_as(alloc: Global, env: &Env, expected: Option<&Ty>, raw: &Raw) -> Result<Formula, Fault> {
    match type_expression(alloc, env, expected, raw) {
        Ok(formula) => Ok(formula),
        Err(_) => Err(Fault::NotTyped),
    }
}

fn typed_raw(alloc: Global, env: &Env, form: Form, raw: &Raw) -> Result<Formula, Fault> {
    match form {
        Form::Predicate => typed_as(alloc, env, Some(&Ty::Truth), raw),
        _ => typed_as(alloc, env, None, raw),
    }
}

/// The formula that is written, typed among the names of the environment.
pub fn typed(alloc: Global, env: &Env, form: Form, text: &str) -> Result<Formula, Fault> {
    let raw = formula_of(alloc, form, text)?;
    typed_raw(alloc, env, form, &raw)
}

/// The printed text of a well formula.
fn printed(alloc: Global, formula: &Formula) -> Option<String> {
    if formula.is_well() {
        formula_print::text(alloc, formula).ok()
    } else {
        None
    }
}

/// The printed text of a well formula, which reads back.
fn printed_to_read_back(alloc: Global, formula: &Formula) -> Option<String> {
    if formula.is_well() {
        math_print::text(alloc, formula).ok()
    } else {
        None
    }
}

/// Writes what else than the formula is read again, if it is.
fn write_again(
    out: &mut String,
    formula: &Formula,
    again: &Result<Formula, Fault>,
) -> Result<(), AllocError> {
    match again {
        Ok(again) => {
            if again.same(formula) {
                Ok(())
            } else {
                out.push_str(", read again as another formula")
            }
        }
        Err(fault) => {
            out.push_str(", read again: ")?;
            write_fault(out, *fault)
        }
    }
}

fn write_text(
    alloc: Global,
    env: &Env,
    out: &mut String,
    form: Form,
    formula: &Formula,
    text: &str,
) -> Result<(), AllocError> {
    out.push_str(text)?;
    let again = typed(alloc, env, form, text);
    write_again(out, formula, &again)
}

fn write_printed(
    alloc: Global,
    env: &Env,
    out: &mut String,
    form: Form,
    formula: &Formula,
    text: Option<String>,
) -> Result<(), AllocError> {
    match text {
        Some(text) => write_text(alloc, env, out, form, formula, &text),
        None => out.push_str("not printed"),
    }
}

fn condition(alloc: Global, formula: &Formula) -> Option<Formula> {
    if formula.is_well() {
        wd(alloc, formula).ok()
    } else {
        None
    }
}

fn write_condition(
    alloc: Global,
    env: &Env,
    out: &mut String,
    formula: &Formula,
) -> Result<(), AllocError> {
    let condition = condition(alloc, formula);
    match &condition {
        Some(condition) => {
            let text = printed(alloc, condition);
            write_printed(alloc, env, out, Form::Predicate, condition, text)
        }
        None => out.push_str("no condition"),
    }
}

/// The negation of the only formula.
fn negated(alloc: Global, only: Vec<Formula>) -> Result<Vec<Formula>, AllocError> {
    let mut above = Vec::new(alloc);
    above.push(Formula::Node(Op::Not, List::of(only), Ty::Truth))?;
    Ok(above)
}

fn copied(alloc: Global, formula: &Formula) -> Result<Vec<Formula>, AllocError> {
    let mut only = Vec::new(alloc);
    match formula.copy_onto(alloc, &mut only) {
        Ok(()) => Ok(only),
        Err(_) => Err(AllocError),
    }
}

fn below_negations(alloc: Global, formula: &Formula) -> Result<Vec<Formula>, AllocError> {
    let mut only = copied(alloc, formula)?;
    for _ in 0..NEGATIONS {
        only = negated(alloc, only)?;
    }
    Ok(only)
}

fn write_high_condition(
    alloc: Global,
    env: &Env,
    out: &mut String,
    formula: &Formula,
) -> Result<(), AllocError> {
    let only = below_negations(alloc, formula)?;
    match only.as_slice() {
        [high] => write_condition(alloc, env, out, high),
        _ => out.push_str("no formula"),
    }
}

fn write_formula(
    alloc: Global,
    env: &Env,
    out: &mut String,
    typing: Typing,
    form: Form,
    formula: &Formula,
) -> Result<(), AllocError> {
    match typing {
        Typing::Printed => {
            let text = printed(alloc, formula);
            write_printed(alloc, env, out, form, formula, text)
        }
        Typing::PrintedToReadBack => {
            let text = printed_to_read_back(alloc, formula);
            write_printed(alloc, env, out, form, formula, text)
        }
        Typing::Condition => write_condition(alloc, env, out, formula),
        Typing::HighCondition => write_high_condition(alloc, env, out, formula),
    }
}

/// Types the text, and writes what is asked of the formula.
pub fn write_typing(
    alloc: Global,
    env: &Env,
    out: &mut String,
    typing: Typing,
    form: Form,
    text: &str,
) -> Result<(), AllocError> {
    let formula = typed(alloc, env, form, text);
    match &formula {
        Ok(formula) => write_formula(alloc, env, out, typing, form, formula),
        Err(fault) => write_fault(out, *fault),
    }
}
