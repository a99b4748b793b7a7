//! Texts that are read and typed.

use crate::equations::{Question, answer_equations};
use crate::rows::{add_member, declare};
use crate::showing::{write_action, write_entries, write_fault, write_formula, write_type};
use formula_core::{Action, Env, Formula, Name, Raw, RawAction, Ty};
use formula_parse::{ParseFault, expression, predicate};
use math_action::action;
use math_tokens::{Token, tokens};
use std::alloc::{AllocError, Global};
use type_action::type_action;
use type_formula::{TypeFault, type_expression, type_predicate};

/// The most bytes of a text.
const LONGEST: usize = 100_000;

/// What is asked of a formula.
#[derive(Clone, Copy)]
pub enum Asked<'a> {
    /// A predicate of which these names are wanted.
    Predicate(&'a [Name]),
    /// A predicate that is typed as an expression of this type, with its type.
    Truth(&'a Ty),
    /// An expression that is to have this type, if one is given.
    Expression(Option<&'a Ty>),
    /// An expression with its type.
    Typed,
    /// A set, of which this name is declared as a member.
    Member(&'a str),
    /// A set, whose members' type is added to the environment.
    Set,
    /// Equations between types.
    Equations(Question<'a>),
}

/// Writes what a text is typed as, or what solves its equations.
pub fn answer_formula(
    alloc: Global,
    out: &mut String,
    env: &mut Env,
    asked: Asked<'_>,
    text: &str,
) -> Result<(), AllocError> {
    if text.len() > LONGEST {
        return out.push_str("not read");
    }
    let cut = tokens(alloc, text);
    match &cut {
        Ok(cut) => answer_tokens(alloc, out, env, asked, text, cut),
        Err(_) => out.push_str("not read"),
    }
}

fn answer_tokens(
    alloc: Global,
    out: &mut String,
    env: &mut Env,
    asked: Asked<'_>,
    text: &str,
    cut: &[Token],
) -> Result<(), AllocError> {
    let read = read(alloc, asked, text, cut);
    match &read {
        Ok(raw) => answer_raw(alloc, out, env, asked, raw),
        Err(_) => out.push_str("not read"),
    }
}

fn read(alloc: Global, asked: Asked<'_>, text: &str, cut: &[Token]) -> Result<Raw, ParseFault> {
    match asked {
        Asked::Predicate(_) | Asked::Truth(_) | Asked::Equations(_) => predicate(alloc, text, cut),
        _ => expression(alloc, text, cut),
    }
}

fn answer_raw(
    alloc: Global,
    out: &mut String,
    env: &mut Env,
    asked: Asked<'_>,
    raw: &Raw,
) -> Result<(), AllocError> {
    match asked {
        Asked::Equations(question) => answer_equations(alloc, out, question, raw),
        _ => answer_typed(alloc, out, env, asked, raw),
    }
}

/// Writes what a formula is typed as.
pub fn answer_typed(
    alloc: Global,
    out: &mut String,
    env: &mut Env,
    asked: Asked<'_>,
    raw: &Raw,
) -> Result<(), AllocError> {
    let first = env.entries().len();
    let typed = typed(alloc, env, asked, raw);
    match &typed {
        Ok(formula) => write_found(alloc, out, env, asked, first, formula),
        Err(fault) => write_fault(out, fault),
    }
}

/// The type that an expression is to have.
fn expected(asked: Asked<'_>) -> Option<&Ty> {
    match asked {
        Asked::Truth(ty) => Some(ty),
        Asked::Expression(expected) => expected,
        _ => None,
    }
}

fn typed(alloc: Global, env: &mut Env, asked: Asked<'_>, raw: &Raw) -> Result<Formula, TypeFault> {
    match asked {
        Asked::Predicate(wanted) => type_predicate(alloc, env, wanted, raw),
        _ => type_expression(alloc, env, expected(asked), raw),
    }
}

/// Writes a formula, and what else is asked of it. The names that it added to the environment are taken out again.
fn write_found(
    alloc: Global,
    out: &mut String,
    env: &mut Env,
    asked: Asked<'_>,
    first: usize,
    formula: &Formula,
) -> Result<(), AllocError> {
    match asked {
        Asked::Predicate(_) => {
            write_formula(out, formula)?;
            write_entries(out, env.entries(), first)?;
            env.cut(first);
            Ok(())
        }
        Asked::Truth(_) | Asked::Typed => {
            write_formula(out, formula)?;
            out.push_str("⦂")?;
            write_type(out, formula.type_of(&Ty::Int))
        }
        Asked::Member(_) | Asked::Set => {
            add_found(alloc, out, env, asked, formula.type_of(&Ty::Int).members())
        }
        _ => write_formula(out, formula),
    }
}

/// Adds a member of a set whose members have this type.
fn add_found(
    alloc: Global,
    out: &mut String,
    env: &mut Env,
    asked: Asked<'_>,
    members: Option<&Ty>,
) -> Result<(), AllocError> {
    match (asked, members) {
        (Asked::Member(name), Some(ty)) => declare(alloc, out, env, name, ty),
        (_, Some(ty)) => add_member(alloc, out, env, ty),
        (_, None) => out.push_str("no set"),
    }
}

/// Writes what an action is typed as.
pub fn answer_action(
    alloc: Global,
    out: &mut String,
    env: &Env,
    text: &str,
) -> Result<(), AllocError> {
    if text.len() > LONGEST {
        return out.push_str("not read");
    }
    let cut = tokens(alloc, text);
    match &cut {
        Ok(cut) => answer_action_tokens(alloc, out, env, text, cut),
        Err(_) => out.push_str("not read"),
    }
}

fn answer_action_tokens(
    alloc: Global,
    out: &mut String,
    env: &Env,
    text: &str,
    cut: &[Token],
) -> Result<(), AllocError> {
    let read = action(alloc, text, cut);
    match &read {
        Ok(raw) => answer_raw_action(alloc, out, env, raw),
        Err(_) => out.push_str("not read"),
    }
}

fn answer_raw_action(
    alloc: Global,
    out: &mut String,
    env: &Env,
    raw: &RawAction,
) -> Result<(), AllocError> {
    let typed = type_action(alloc, env, raw);
    write_typed_action(out, &typed)
}

fn write_typed_action(
    out: &mut String,
    typed: &Result<Action, TypeFault>,
) -> Result<(), AllocError> {
    match typed {
        Ok(action) => write_action(out, action),
        Err(fault) => write_fault(out, fault),
    }
}
