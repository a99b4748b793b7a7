//! Formulas and actions with what they are typed as, each operator with operands that no text spells, and equations between types with what solves them.
//!
//! A line of the input is a kind, with its words, and a text behind a tab. It is printed with the answer behind another tab. Other lines
//! are headings, and are printed as they are. `name` with a name declares it, as a member of the set that is its text or as a `carrier set`.
//!
//! - `predicate` with the names that are wanted, `expression`, `of` with the set of its type, and `action` type their text. The answer is
//!   `clash`, `untyped`, `unknown NAME PLACE`, or what is found: a formula with its operators before their operands, and of a predicate
//!   the names that it adds. `truth` types a predicate as an expression of the type of predicates, and `typed` an expression; both have the type
//!   behind the formula.
//! - `operands 1 ⊤` and `operands ⊤ ⊤` type the operator that is their text with these operands, as a predicate.
//! - `types`, and `variable` and `closed` with a letter, solve the equations that are their text, in which `a`, `b` and `c` are variables, and
//!   other names carrier sets, but `Truth` the type of predicates. The answer is `no solution`, the number of the types of all solutions, or the
//!   type of a variable, by itself or as a term, or `none`. `membership` does so with the scheme of `∈`, whose member is an integer.
//! - `products` has so many variables behind the first, each a product of the one before it with itself, and an integer as the first.
//!   `unequal` has the same again from another variable on, with a truth value as the first, and the same type for the last ones.
#![tactic(auto)]

mod equations;
mod operands;
mod rows;
mod showing;
mod typing;

use crate::rows::answer;
use formula_core::Env;
use std::alloc::{AllocError, Global};
use std::io;

fn write_row(
    alloc: Global,
    rows: &mut String,
    env: &mut Env,
    line: &str,
) -> Result<(), AllocError> {
    rows.push_str(line)?;
    if let Some((kind, text)) = line.split_once('\t') {
        rows.push_str("\t")?;
        answer(alloc, rows, env, kind, text)?;
    }
    rows.push_str("\n")
}

fn write_rows(alloc: Global, rows: &mut String, input: &str) -> Result<(), AllocError> {
    let mut env = Env::new(alloc);
    for line in input.lines() {
        write_row(alloc, rows, &mut env, line)?;
    }
    Ok(())
}

fn main(rt: HostRuntime) -> io::Result<()> {
    let alloc = rt.alloc();
    let input = io::read_to_string(alloc, rt.reader())?;
    let mut rows = String::new(alloc);
    write_rows(alloc, &mut rows, &input)?;
    rt.print(rows.as_str())
}
