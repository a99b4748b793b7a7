//! An environment with a taken name, the size of a step counter, and the operators with their numbers.

use crate::calls::print_names;
use crate::row::{row, yes};
use formula_core::{Binder, Env, EnvFault, Name, OPERATORS, Op, Steps, Ty};
use std::alloc::Global;
use std::io;
use std::marker::Brand;

fn added(alloc: Global, env: &mut Env, name: &str, ty: Ty) -> Result<(), EnvFault> {
    match Name::read(alloc, name) {
        Ok(name) => env.add(name, ty),
        Err(_) => Err(EnvFault::OutOfMemory),
    }
}

fn add(alloc: Global, env: &mut Env, name: &str, ty: Ty) -> &'static str {
    match added(alloc, env, name, ty) {
        Ok(()) => "added",
        Err(EnvFault::Taken) => "taken",
        Err(EnvFault::OutOfMemory) => "no memory",
    }
}

fn is_integer_in(alloc: Global, env: &Env, name: &str) -> bool {
    match Name::read(alloc, name) {
        Ok(name) => match env.get(&name) {
            Some(ty) => ty.is_integer(),
            None => false,
        },
        Err(_) => false,
    }
}

fn print_integers(rt: &impl Print, alloc: Global, env: &Env) -> io::Result<()> {
    for name in ["x", "y"] {
        row(
            rt,
            "is an integer in the environment",
            name,
            yes(is_integer_in(alloc, env, name)),
        )?;
    }
    print_names(rt, "name in", "the environment", env.entries())
}

fn print_added(rt: &impl Print, alloc: Global, env: &mut Env) -> io::Result<()> {
    row(
        rt,
        "add to the environment as an integer",
        "x",
        add(alloc, env, "x", Ty::Int),
    )?;
    row(
        rt,
        "add to the environment as a boolean",
        "x",
        add(alloc, env, "x", Ty::Bool),
    )?;
    print_integers(rt, alloc, env)
}

pub fn print_environment(rt: &impl Print, alloc: Global) -> io::Result<()> {
    let mut env = Env::new(alloc);
    print_added(rt, alloc, &mut env)
}

pub fn print_sizes(rt: &impl Print) -> io::Result<()> {
    row(
        rt,
        "takes bytes",
        "a step counter",
        yes(size_of::<Steps<Brand>>() != 0),
    )
}

fn is_found(op: Op) -> bool {
    match Op::of_number(op.number()) {
        Some(found) => found.same(op),
        None => false,
    }
}

fn print_operator(rt: &impl Print, op: Op) -> io::Result<()> {
    println!(rt;
        "operator {op:?}\tnumber {}, found by it: {}",
        op.number(),
        yes(is_found(op))
    )
}

pub fn print_operators(rt: &impl Print) -> io::Result<()> {
    for op in OPERATORS {
        print_operator(rt, op)?;
    }
    row(
        rt,
        "is an operator's number",
        "72",
        yes(Op::of_number(72).is_some()),
    )?;
    row(
        rt,
        "is a binder's number",
        "5",
        yes(Binder::of_number(5).is_some()),
    )
}
