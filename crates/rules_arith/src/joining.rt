//! Linear forms: a constant, and atoms with their multiples in the order in which they were met.
ghost use Rattle.std.specs.Prelude.{◌≡◌, ◌++◌, IfOk};
ghost use Rattle.std.specs.List.{list_all};
ghost use Rattle.rule_table.specs.Linear.{multiple_of, is_met, checked, kept, further, is_zero, constant_form, atom, each_times, scaled, joined_by, is_constant, product_form, times_form, then_do};
ghost use Rattle.rules_arith.specs.Private.{act_of, times_by, with_coefficient, add_new, joined_with};

use crate::checked::{difference_of, product_of, sum_of};
use formula_core::{Formula, List, OutOfMemory};
use std::alloc::Global;
use std::marker::Model;

/// A value, or the two operands of the first operation that leaves i128.
pub(crate) type Checked<T> = Result<T, (i128, i128)>;

/// An expression that is taken as a whole, and how often it stands in a sum.
#[derive(Drop)]
pub(crate) struct Atom<'a> {
    formula: &'a Formula,
    multiple: i128,
}

impl<'a> Model for Atom<'a> {
    ghost use Rattle.std.specs.Prelude.{ℤ};
    ghost use Rattle.formula_core.specs.declared.Formula.{Formula};
    ghost use Rattle.formula_core.specs.contracts.formula.Formula as formula_type;
    ghost use Rattle.std.specs.Coded.{codes};

    ghost Value = { Formula × ℤ };

    ghost coded = { Prim.hlevel (codes, formula_type.the_row.coded) };

    ghost view = { λ a. (a.formula.now, a.multiple) };
}

/// A constant and atoms.
#[derive(Drop)]
pub(crate) struct LinearForm<'a> {
    constant: i128,
    atoms: List<Atom<'a>>,
}

impl<'a> Model for LinearForm<'a> {
    ghost use Rattle.rule_table.specs.Linear.{Linear};
    ghost use Rattle.formula_core.specs.contracts.formula.Formula as formula_type;
    ghost use Rattle.std.specs.Coded.{codes};

    ghost Value = { Linear };

    ghost coded = { Prim.hlevel (codes, formula_type.the_row.coded) };

    ghost view = { λ a. record { constant = a.constant; atoms = a.atoms } };
}

/// What joins two linear forms.
#[derive(Clone, Copy)]
pub(crate) enum Joining {
    Sum,
    Difference,
}

/// A factor of products, of which the other factor comes after it, or before it.
#[derive(Clone, Copy)]
pub(crate) enum Factor {
    First(i128),
    Second(i128),
}

/// A number.
pub(crate) fn of_number<'a>(alloc: Global, n: i128) -> LinearForm<'a>
    ensures form { result ≡ constant_form n }
{
    LinearForm {
        constant: n,
        atoms: List::of(Vec::new(alloc)),
    }
}

/// An expression that is taken as a whole.
pub(crate) fn of_atom(alloc: Global, f: &Formula) -> Result<LinearForm<'_>, OutOfMemory>
    ensures form { IfOk result (λ a. a ≡ atom f.now) }
{
    let mut atoms = Vec::new(alloc);
    atoms.push(Atom {
        formula: f,
        multiple: 1,
    })?;
    Ok(LinearForm {
        constant: 0,
        atoms: List::of(atoms),
    })
}

/// The multiple of an atom, which is 0 where it was not met.
fn multiple_of(atoms: &[Atom<'_>], f: &Formula) -> i128
    ensures { result ≡ multiple_of atoms.now f.now }
{
    for atom in atoms {
        if atom.formula.same(f) {
            return atom.multiple;
        }
    }
    0
}

/// Whether an atom was met.
fn is_met(atoms: &[Atom<'_>], f: &Formula) -> bool
    ensures { result ≡ is_met atoms.now f.now }
{
    for atom in atoms {
        if atom.formula.same(f) {
            return true;
        }
    }
    false
}

fn joined(joining: Joining, m: i128, n: i128) -> Checked<i128>
    ensures { result ≡ checked (act_of joining) m n }
{
    match joining {
        Joining::Sum => sum_of(m, n),
        Joining::Difference => difference_of(m, n),
    }
}

/// One more atom behind others, unless an operation left i128.
fn with_one<'a>(
    done: Checked<List<Atom<'a>>>,
    formula: &'a Formula,
    multiple: Checked<i128>,
) -> Result<Checked<List<Atom<'a>>>, OutOfMemory>
    ensures { IfOk result (λ o. o ≡ with_coefficient done.entry formula.now multiple) }
{
    match done {
        Ok(atoms) => match multiple {
            Ok(multiple) => {
                let mut atoms = atoms.into_vec();
                atoms.push(Atom { formula, multiple })?;
                Ok(Ok(List::of(atoms)))
            }
            Err(operands) => Ok(Err(operands)),
        },
        Err(operands) => Ok(Err(operands)),
    }
}

/// Each atom of the first form, joined with what the second has of it.
#[tactic(auto, using(crate::proofs::Atoms::kept_is_fold))]
fn kept<'a>(
    alloc: Global,
    joining: Joining,
    first: List<Atom<'a>>,
    second: &[Atom<'a>],
) -> Result<Checked<List<Atom<'a>>>, OutOfMemory>
    ensures atoms { IfOk result (λ o. o ≡ kept (act_of joining) second.now first.entry) }
{
    let mut done = Ok(List::of(Vec::new(alloc)));
    for atom in first.into_vec() {
        let sum = joined(joining, atom.multiple, multiple_of(second, atom.formula));
        done = with_one(done, atom.formula, sum)?;
    }
    Ok(done)
}

/// Each atom of the second form that the first doesn't have.
#[tactic(auto, using(crate::proofs::Atoms::further_is_fold))]
fn further<'a>(
    alloc: Global,
    joining: Joining,
    first: &[Atom<'a>],
    second: List<Atom<'a>>,
) -> Result<Checked<List<Atom<'a>>>, OutOfMemory>
    ensures atoms { IfOk result (λ o. o ≡ further (act_of joining) first.now second.entry) }
{
    let mut done = Ok(List::of(Vec::new(alloc)));
    for atom in second.into_vec() {
        done = add_new(joining, first, done, atom)?;
    }
    Ok(done)
}

/// One more atom behind others, where the first form doesn't have it.
fn add_new<'a>(
    joining: Joining,
    first: &[Atom<'a>],
    done: Checked<List<Atom<'a>>>,
    atom: Atom<'a>,
) -> Result<Checked<List<Atom<'a>>>, OutOfMemory>
    ensures { IfOk result (λ o. o ≡ add_new (act_of joining) first.now done.entry atom.entry) }
{
    if is_met(first, atom.formula) {
        return Ok(done);
    }
    with_one(done, atom.formula, joined(joining, 0, atom.multiple))
}

/// The sum or the difference of two forms.
pub(crate) fn joined_by<'a>(
    alloc: Global,
    joining: Joining,
    a: LinearForm<'a>,
    b: LinearForm<'a>,
) -> Result<Checked<LinearForm<'a>>, OutOfMemory>
    ensures { IfOk result (λ o. o ≡ joined_by (act_of joining) a.entry b.entry) }
{
    let constant = joined_constants(joining, &a, &b);
    let atoms = kept_atoms(alloc, joining, a, &b)?;
    joined_with(alloc, joining, constant, atoms, atoms_of(b))
}

fn joined_constants(joining: Joining, a: &LinearForm<'_>, b: &LinearForm<'_>) -> Checked<i128>
    ensures { result ≡ checked (act_of joining) a.now.constant b.now.constant }
{
    joined(joining, a.constant, b.constant)
}

fn kept_atoms<'a>(
    alloc: Global,
    joining: Joining,
    a: LinearForm<'a>,
    b: &LinearForm<'a>,
) -> Result<Checked<List<Atom<'a>>>, OutOfMemory>
    ensures atoms { IfOk result (λ o. o ≡ kept (act_of joining) b.now.atoms a.entry.atoms) }
{
    kept(alloc, joining, atoms_of(a), b.atoms.items())
}

fn atoms_of<'a>(a: LinearForm<'a>) -> List<Atom<'a>>
    ensures { result ≡ a.entry.atoms }
{
    let LinearForm { constant: _, atoms } = a;
    atoms
}

/// A form of a constant, of the atoms that are kept, and of those of another list that are new.
fn joined_with<'a>(
    alloc: Global,
    joining: Joining,
    constant: Checked<i128>,
    kept: Checked<List<Atom<'a>>>,
    others: List<Atom<'a>>,
) -> Result<Checked<LinearForm<'a>>, OutOfMemory>
    ensures { IfOk result (λ o. o ≡ joined_with (act_of joining) constant kept.entry others.entry) }
{
    let constant = match constant {
        Ok(constant) => constant,
        Err(operands) => return Ok(Err(operands)),
    };
    let atoms = match kept {
        Ok(atoms) => atoms,
        Err(operands) => return Ok(Err(operands)),
    };
    let new = match further(alloc, joining, atoms.items(), others)? {
        Ok(new) => new,
        Err(operands) => return Ok(Err(operands)),
    };
    Ok(Ok(LinearForm {
        constant,
        atoms: appended(atoms, new)?,
    }))
}

/// The atoms of one list, and then those of another.
fn appended<'a>(atoms: List<Atom<'a>>, more: List<Atom<'a>>) -> Result<List<Atom<'a>>, OutOfMemory>
    ensures { IfOk result (λ all. all ≡ atoms.entry ++ more.entry) }
{
    let mut all = atoms.into_vec();
    for atom in more.into_vec() {
        all.push(atom)?;
    }
    Ok(List::of(all))
}

/// The sum or the difference of two forms, unless an operation left i128 in one of them.
pub(crate) fn joined_forms<'a>(
    alloc: Global,
    joining: Joining,
    a: Checked<LinearForm<'a>>,
    b: Checked<LinearForm<'a>>,
) -> Result<Checked<LinearForm<'a>>, OutOfMemory>
    ensures { IfOk result (λ o. o ≡ then_do a.entry (λ x. then_do b.entry (joined_by (act_of joining) x))) }
{
    match a {
        Ok(a) => match b {
            Ok(b) => joined_by(alloc, joining, a, b),
            Err(operands) => Ok(Err(operands)),
        },
        Err(operands) => Ok(Err(operands)),
    }
}

fn multiplied(factor: Factor, n: i128) -> Checked<i128>
    ensures { result ≡ times_by factor n }
{
    match factor {
        Factor::First(k) => product_of(k, n),
        Factor::Second(k) => product_of(n, k),
    }
}

#[tactic(auto, using(crate::proofs::Atoms::each_times_is_fold))]
fn each_times<'a>(
    alloc: Global,
    factor: Factor,
    atoms: List<Atom<'a>>,
) -> Result<Checked<List<Atom<'a>>>, OutOfMemory>
    ensures { IfOk result (λ o. o ≡ each_times (times_by factor) atoms.entry) }
{
    let mut done = Ok(List::of(Vec::new(alloc)));
    for atom in atoms.into_vec() {
        done = with_one(done, atom.formula, multiplied(factor, atom.multiple))?;
    }
    Ok(done)
}

fn scaled<'a>(
    alloc: Global,
    factor: Factor,
    a: LinearForm<'a>,
) -> Result<Checked<LinearForm<'a>>, OutOfMemory>
    ensures { IfOk result (λ o. o ≡ scaled (times_by factor) a.entry) }
{
    let LinearForm { constant, atoms } = a;
    let constant = match multiplied(factor, constant) {
        Ok(constant) => constant,
        Err(operands) => return Ok(Err(operands)),
    };
    match each_times(alloc, factor, atoms)? {
        Ok(atoms) => Ok(Ok(LinearForm { constant, atoms })),
        Err(operands) => Ok(Err(operands)),
    }
}

/// A number times a form, unless an operation left i128 in it.
pub(crate) fn times_form<'a>(
    alloc: Global,
    k: i128,
    a: Checked<LinearForm<'a>>,
) -> Result<Checked<LinearForm<'a>>, OutOfMemory>
    ensures { IfOk result (λ o. o ≡ then_do a.entry (times_form k)) }
{
    match a {
        Ok(a) => scaled(alloc, Factor::First(k), a),
        Err(operands) => Ok(Err(operands)),
    }
}

/// Whether no atom has a multiple but 0.
pub(crate) fn is_constant(a: &LinearForm<'_>) -> bool
    ensures { result ≡ is_constant a.now }
{
    are_absent(a.atoms.items())
}

fn are_absent(atoms: &[Atom<'_>]) -> bool
    ensures { result ≡ list_all (λ atom. is_zero atom.1) atoms.now }
{
    for atom in atoms {
        if atom.multiple != 0 {
            return false;
        }
    }
    true
}

/// The constant of a form.
pub(crate) fn constant_of(a: &LinearForm<'_>) -> i128
    ensures { result ≡ a.now.constant }
{
    a.constant
}

/// The product of two forms, where one is constant; else the whole is an atom.
pub(crate) fn product_form<'a>(
    alloc: Global,
    f: &'a Formula,
    a: LinearForm<'a>,
    b: LinearForm<'a>,
) -> Result<Checked<LinearForm<'a>>, OutOfMemory>
    ensures { IfOk result (λ o. o ≡ product_form f.now a.entry b.entry) }
{
    if is_constant(&a) {
        return scaled(alloc, Factor::First(a.constant), b);
    }
    if is_constant(&b) {
        return scaled(alloc, Factor::Second(b.constant), a);
    }
    Ok(Ok(of_atom(alloc, f)?))
}
