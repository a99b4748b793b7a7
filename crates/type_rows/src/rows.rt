//! The kinds of rows.

use crate::equations::{Question, answer_membership, answer_products, answer_unequal};
use crate::operands::answer_operands;
use crate::showing::write_typed_name;
use crate::typing::{Asked, answer_action, answer_formula};
use formula_core::{Boxed, Env, Name, OutOfMemory, Ty};
use std::alloc::{AllocError, Global};

fn add_name(alloc: Global, names: &mut Vec<Name>, word: &str) -> bool {
    match Name::read(alloc, word) {
        Ok(name) => names.push(name).is_ok(),
        Err(_) => false,
    }
}

fn add_names(alloc: Global, names: &mut Vec<Name>, words: &str) -> bool {
    for word in words.split_whitespace() {
        if !add_name(alloc, names, word) {
            return false;
        }
    }
    true
}

fn answer_predicate(
    alloc: Global,
    out: &mut String,
    env: &mut Env,
    words: &str,
    text: &str,
) -> Result<(), AllocError> {
    let mut names = Vec::new(alloc);
    if add_names(alloc, &mut names, words) {
        answer_formula(alloc, out, env, Asked::Predicate(&names), text)
    } else {
        out.push_str("no names")
    }
}

/// The type of a carrier set with this name.
fn carrier_type(alloc: Global, name: Name) -> Result<Ty, OutOfMemory> {
    let member = Boxed::new(alloc, Ty::Given(name))?;
    Ok(Ty::Pow(member))
}

fn answer_named_carrier(
    alloc: Global,
    out: &mut String,
    env: &mut Env,
    name: Name,
    text: &str,
) -> Result<(), AllocError> {
    let ty = carrier_type(alloc, name);
    match &ty {
        Ok(ty) => declare(alloc, out, env, text, ty),
        Err(_) => Err(AllocError),
    }
}

fn answer_carrier(
    alloc: Global,
    out: &mut String,
    env: &mut Env,
    name: &str,
) -> Result<(), AllocError> {
    match Name::read(alloc, name) {
        Ok(read) => answer_named_carrier(alloc, out, env, read, name),
        Err(_) => out.push_str("no name"),
    }
}

/// Adds a name with its type.
fn add(alloc: Global, env: &mut Env, name: &str, ty: &Ty) -> Option<()> {
    let name = Name::read(alloc, name).ok()?;
    let ty = ty.copy(alloc).ok()?;
    env.add(name, ty).ok()
}

/// Adds a name with its type, and writes both.
pub fn declare(
    alloc: Global,
    out: &mut String,
    env: &mut Env,
    name: &str,
    ty: &Ty,
) -> Result<(), AllocError> {
    match add(alloc, env, name, ty) {
        Some(()) => write_typed_name(out, name, ty),
        None => out.push_str("not declared"),
    }
}

/// Adds a name for a member that has this type, behind the others.
pub fn add_member(
    alloc: Global,
    out: &mut String,
    env: &mut Env,
    ty: &Ty,
) -> Result<(), AllocError> {
    match add(alloc, env, "member", ty) {
        Some(()) => Ok(()),
        None => out.push_str("not declared"),
    }
}

/// Types an expression as a member of a set. Where the set is none, its fault is the answer.
fn answer_of_set(
    alloc: Global,
    out: &mut String,
    env: &mut Env,
    set: &str,
    text: &str,
) -> Result<(), AllocError> {
    let Ok(mut with_member) = env.copy(alloc) else {
        return Err(AllocError);
    };
    answer_formula(alloc, out, &mut with_member, Asked::Set, set)?;
    answer_of_last(alloc, out, env, &with_member, text)
}

fn answer_of_last(
    alloc: Global,
    out: &mut String,
    env: &mut Env,
    with_member: &Env,
    text: &str,
) -> Result<(), AllocError> {
    match with_member.entries().get(env.entries().len()) {
        Some((_, ty)) => answer_formula(alloc, out, env, Asked::Expression(Some(ty)), text),
        None => Ok(()),
    }
}

/// Writes the answer to a row.
pub fn answer(
    alloc: Global,
    out: &mut String,
    env: &mut Env,
    kind: &str,
    text: &str,
) -> Result<(), AllocError> {
    let (word, rest) = kind.split_once(' ').unwrap_or((kind, ""));
    match word {
        "name" if text == "carrier set" => answer_carrier(alloc, out, env, rest),
        "predicate" => answer_predicate(alloc, out, env, rest, text),
        "of" => answer_of_set(alloc, out, env, rest, text),
        "truth" => answer_formula(alloc, out, env, Asked::Truth(&Ty::Truth), text),
        "action" => answer_action(alloc, out, env, text),
        "operands" => answer_operands(alloc, out, env, rest, text),
        "products" => answer_products(alloc, out, text),
        "unequal" => answer_unequal(alloc, out, rest, text),
        "membership" if text == "ℤ" => answer_membership(alloc, out),
        _ => match asked(word, rest) {
            Some(asked) => answer_formula(alloc, out, env, asked, text),
            None => out.push_str("no such kind"),
        },
    }
}

fn asked<'a>(word: &str, rest: &'a str) -> Option<Asked<'a>> {
    match word {
        "name" => Some(Asked::Member(rest)),
        "expression" => Some(Asked::Expression(None)),
        "typed" => Some(Asked::Typed),
        "types" => Some(Asked::Equations(Question::Count)),
        "variable" => Some(Asked::Equations(Question::TypeOf(rest))),
        "closed" => Some(Asked::Equations(Question::Closed(rest))),
        _ => None,
    }
}
