//! Rows of names, formulas, substitution and environments: each line has a call and what it answered.
//!
//! With a word and a number it makes two formulas of so many different names, or of so many binders, does one kind of work
//! on them, and prints what came of it: `bench/formula_work` takes the time.
#![tactic(auto)]

mod calls;
mod formulas;
mod others;
mod row;
mod shapes;
mod texts;
mod work;

use crate::calls::print_calls;
use crate::others::{print_environment, print_operators, print_sizes};
use crate::shapes::print_shapes;
use crate::texts::{print_lengths, print_made, print_texts};
use crate::work::{Work, answer, work_asked};
use std::{env, io};

// What the words ask for, where they do.
fn asked(rt: &HostRuntime) -> io::Result<Option<(Work, u32)>> {
    let mut words = env::args(rt)?;
    let _ = words.next();
    Ok(match (words.next(), words.next()) {
        (Some(work), Some(number)) => work_asked(work.as_str(), number.as_str()),
        _ => None,
    })
}

fn print_rows(rt: &HostRuntime) -> io::Result<()> {
    let alloc = rt.alloc();
    print_texts(rt, alloc)?;
    print_lengths(rt, alloc)?;
    print_made(rt, alloc)?;
    print_calls(rt, alloc)?;
    print_shapes(rt, alloc)?;
    print_environment(rt, alloc)?;
    print_sizes(rt)?;
    print_operators(rt)
}

fn main(rt: HostRuntime) -> io::Result<()> {
    match asked(&rt)? {
        Some((work, number)) => println!(rt; "{}", answer(rt.alloc(), work, number)),
        None => print_rows(&rt),
    }
}
