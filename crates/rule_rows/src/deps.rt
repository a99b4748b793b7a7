//! What trees ask of sequents, and how long the tests of many sequents take.
ghost use Rattle.std.specs.Prelude.{◌≡◌, map};
ghost use Rattle.proof_deps.specs.Prints.{print_of};

use crate::reading::put;
use crate::showing::add_deps;
use crate::trees::add_answer;
use formula_core::List;
use proof_deps::{Deps, fits, fits_by, of, prints_of};
use sequent_core::{Sequent, Tree};
use std::alloc::Global;
use std::time::Instant;

// What the tree asks for. The inner None: it applies to no sequent.
fn deps_of(alloc: Global, tree: &Tree) -> Option<Option<Deps>> {
    of(alloc, tree).ok()
}

/// Writes what the last tree asks for.
pub fn add_asks(alloc: Global, trees: &[Tree], out: &mut String) -> Option<()> {
    let Some(tree) = trees.last() else {
        return out.push_str("no tree").ok();
    };
    match deps_of(alloc, tree)? {
        Some(deps) => add_deps(alloc, &deps, out).ok(),
        None => out.push_str("applies to none").ok(),
    }
}

/// Writes whether the sequent has what the tree asks for.
pub fn add_fits(alloc: Global, tree: &Tree, sequent: &Sequent, out: &mut String) -> Option<()> {
    match deps_of(alloc, tree)? {
        Some(deps) => add_answer(fits(&deps, sequent), out),
        None => add_answer(false, out),
    }
}

/// A sequent with the numbers of its hypotheses.
#[derive(Drop)]
struct Numbered {
    sequent: Sequent,
    prints: List<u64>,
    ghost numbers: { prints ≡ map print_of sequent.hyps },
}

fn with_numbers(alloc: Global, sequent: &Sequent) -> Option<Numbered> {
    let sequent = sequent.copy(alloc).ok()?;
    let prints = prints_of(alloc, sequent.hyps.items()).ok()?;
    Some(Numbered { sequent, prints })
}

fn copies_of(alloc: Global, sequent: &Sequent, copies: u32) -> Option<Vec<Numbered>> {
    let mut sequents = Vec::new(alloc);
    for _ in 0..copies {
        put(&mut sequents, with_numbers(alloc, sequent)?).ok()?;
    }
    Some(sequents)
}

fn has(deps: &Deps, it: &Numbered, by_numbers: bool) -> bool {
    if by_numbers {
        fits_by(deps, &it.sequent, &it.prints)
    } else {
        fits(deps, &it.sequent)
    }
}

fn count_fitting(deps: &Deps, sequents: &[Numbered], by_numbers: bool) -> u32 {
    let mut count: u32 = 0;
    for it in sequents {
        if has(deps, it, by_numbers) {
            count = count.saturating_add(1);
        }
    }
    count
}

fn add_test(
    rt: &HostRuntime,
    deps: &Deps,
    sequents: &[Numbered],
    by_numbers: bool,
    out: &mut String,
) -> Option<()> {
    let from = Instant::now(rt).ok()?;
    let count = count_fitting(deps, sequents, by_numbers);
    let spent = from.elapsed(rt).ok()?.as_micros();
    write!(out, "{count} fit in {spent} µs").ok()
}

fn add_tests(rt: &HostRuntime, deps: &Deps, sequents: &[Numbered], out: &mut String) -> Option<()> {
    add_test(rt, deps, sequents, false, out)?;
    out.push_str(", by numbers ").ok()?;
    add_test(rt, deps, sequents, true, out)
}

/// Writes how many of so many copies of the sequent have what the tree asks, and how long the tests take, without and with
/// the numbers of their hypotheses.
pub fn add_times(
    rt: &HostRuntime,
    alloc: Global,
    tree: &Tree,
    sequent: &Sequent,
    copies: u32,
    out: &mut String,
) -> Option<()> {
    let deps = deps_of(alloc, tree)??;
    let sequents = copies_of(alloc, sequent, copies)?;
    add_tests(rt, &deps, &sequents, out)
}
