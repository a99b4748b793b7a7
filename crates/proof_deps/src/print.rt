//! Numbers of formulas, by which they are found in lists.
ghost use Rattle.std.specs.Prelude.{◌≡◌, ◌*◌, ◌+◌, ◌%◌, ◌^◌, map, fold, unsigned_abs, IfOk};
ghost use Rattle.proof_deps.specs.Prints.{mixed, root_print, near_print, print_of, subformulas_of};

use formula_core::{Formula, List, Name, OutOfMemory};
use std::alloc::Global;

/// How many formulas are looked for at once.
pub const MANY: usize = 16;

/// The numbers of the formulas, in their order. Kept with them they serve `fits_by`.
pub fn prints_of(alloc: Global, formulas: &[Formula]) -> Result<List<u64>, OutOfMemory>
    ensures { IfOk result (λ prints. prints ≡ map print_of formulas.now) }
{
    let mut prints = Vec::new(alloc);
    for formula in formulas {
        prints.push(print(formula))?;
    }
    Ok(List::of(prints))
}

/// A number of the formula, by its root, its parts and theirs: formulas that are the same have the same one, and few
/// others have it.
pub fn print(formula: &Formula) -> u64
    ensures { result ≡ print_of formula.now }
{
    let parts = parts_of(formula);
    let mut print = root_print(formula);
    for part in parts {
        print = mixed(print, near_print(part));
    }
    print
}

fn near_print(formula: &Formula) -> u64
    ensures { result ≡ near_print formula.now }
{
    let parts = parts_of(formula);
    let mut print = root_print(formula);
    for part in parts {
        print = mixed(print, root_print(part));
    }
    print
}

fn root_print(formula: &Formula) -> u64
    ensures { result ≡ root_print formula.now }
{
    match formula {
        Formula::Int(number) => (number.unsigned_abs() % (1 << 61)) as u64,
        Formula::Free(name, _) => name_print(name),
        Formula::Bound(at, _) => mixed(1, *at as u64),
        Formula::Node(op, _, _) => op.number() as u64,
        Formula::Bind(binder, _, _, _) => 128 + binder.number() as u64,
    }
}

fn parts_of(formula: &Formula) -> &[Formula]
    ensures { result.now ≡ subformulas_of formula.now }
{
    match formula {
        Formula::Node(_, parts, _) => parts.items(),
        Formula::Bind(_, _, parts, _) => parts.items(),
        Formula::Int(_) | Formula::Free(_, _) | Formula::Bound(_, _) => &[],
    }
}

fn name_print(name: &Name) -> u64
    ensures { result ≡ fold mixed 2 name.now }
{
    let bytes = name.as_text().as_bytes();
    let mut print = 2;
    for byte in bytes {
        print = mixed(print, *byte as u64);
    }
    print
}

fn mixed(print: u64, next: u64) -> u64
    ensures { result ≡ mixed print next }
{
    print.wrapping_mul(0x9e37_79b9_7f4a_7c15).wrapping_add(next)
}

/// Where each of the first formulas may stand among the others, from one pass over these.
pub fn guessed_places(wanted: &[Formula], formulas: &[Formula]) -> [usize; MANY] {
    let mut places = [formulas.len(); MANY];
    let mut prints = [0u64; MANY];
    let count = wanted.len().min(MANY);
    for i in 0..count {
        prints[i] = print(&wanted[i]);
    }
    for at in 0..formulas.len() {
        let found = print(&formulas[at]);
        for i in 0..count {
            if prints[i] == found {
                places[i] = at;
            }
        }
    }
    places
}
