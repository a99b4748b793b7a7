//! Formulas that are well or not, up to the greatest height and size, each counted, copied and compared.

use crate::formulas::{Recipe, Step, make};
use crate::row::{row, yes};
use formula_core::{Binder, Formula, Op};
use std::alloc::Global;
use std::io;

struct Shape {
    what: &'static str,
    recipe: Recipe,
}

const TOP: (u32, Step) = (1, Step::Predicate(Op::Top, 0));

const SHAPES: [Shape; 4] = [
    Shape {
        what: "a set extension without members",
        recipe: &[(1, Step::Set(0))],
    },
    Shape {
        what: "∀ of no identifiers",
        recipe: &[TOP, (1, Step::Bind(Binder::ForAll, 0))],
    },
    Shape {
        what: "4,095 times ¬, and ⊤",
        recipe: &[TOP, (4_095, Step::Predicate(Op::Not, 1))],
    },
    Shape {
        what: "the set of 65,535 times 1",
        recipe: &[(65_535, Step::Int(1)), (1, Step::Set(65_535))],
    },
];

fn has_equal_copy(alloc: Global, f: &Formula) -> bool {
    match f.copy(alloc) {
        Ok(copy) => f.same(&copy),
        Err(_) => false,
    }
}

fn print_counts(rt: &impl Print, what: &str, f: &Formula) -> io::Result<()> {
    println!(rt;
        "size of {what:?}\tnodes {}, height {}",
        f.node_count(),
        f.height()
    )
}

fn print_shape(rt: &impl Print, alloc: Global, what: &str, items: &[Formula]) -> io::Result<()> {
    for f in items {
        print_counts(rt, what, f)?;
        row(rt, "is well", what, yes(f.is_well()))?;
        row(rt, "is within the limits", what, yes(f.is_within_limits()))?;
        row(
            rt,
            "is the same as its copy",
            what,
            yes(has_equal_copy(alloc, f)),
        )?;
    }
    Ok(())
}

fn print_made(rt: &impl Print, alloc: Global, shape: &Shape) -> io::Result<()> {
    let mut made = Vec::new(alloc);
    match make(alloc, shape.recipe, &mut made) {
        Some(()) => print_shape(rt, alloc, shape.what, &made),
        None => row(rt, "size of", shape.what, "no memory"),
    }
}

pub fn print_shapes(rt: &impl Print, alloc: Global) -> io::Result<()> {
    for shape in &SHAPES {
        print_made(rt, alloc, shape)?;
    }
    Ok(())
}
