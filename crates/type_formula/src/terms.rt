//! The rows of the table of types as terms.
ghost use Rattle.std.specs.Prelude.{◌≡◌, ◌+◌, ◌<◌, ◌^◌, ◌∷◌, [], map, replicate, IfOk};
ghost use Rattle.formula_core.specs.Rows.{row_of};
ghost use Rattle.formula_core.specs.Schemes.{operand_schemes, result_scheme, part_schemes, binder_scheme};
ghost use Rattle.formula_core.specs.SchemeView.{scheme_of};
ghost use Rattle.unification.specs.Terms.{term_of, instance_from, predicates};
ghost use Rattle.type_formula.specs.Partition.{partition_schemes};
ghost use Rattle.type_formula.specs.PrivateViews.{open_terms};

use formula_core::{BinaryRow, Binder, Op, OutOfMemory, Row, Scheme};
use std::alloc::Global;
use unification::Term;

/// The type of an operator, its letters being the variables from `first` on.
pub(crate) fn result_term(alloc: Global, op: Op, first: u32) -> Result<Term, OutOfMemory>
    requires { first + 3 < 2 ^ 32 }
    ensures { IfOk result (λ t. term_of t ≡ instance_from first (result_scheme (row_of op))) }
{
    match op.row() {
        Row::Nullary(row) => Term::of_scheme(alloc, &row.scheme(), first),
        Row::Unary(row) => Term::of_scheme(alloc, &row.scheme().1, first),
        Row::Binary(row) => Term::of_scheme(alloc, &row.scheme().2, first),
        Row::SetExtension => Term::of_scheme(alloc, &Scheme::of_set_extension().1, first),
    }
}

/// The types of the operands of an operator, of which a set extension has `count`.
pub(crate) fn operand_terms(
    alloc: Global,
    op: Op,
    count: usize,
    first: u32,
) -> Result<Vec<Term>, OutOfMemory>
    requires { first + 3 < 2 ^ 32 }
    ensures { IfOk result (λ v. open_terms v.items ≡ map (instance_from first) (operand_schemes (row_of op) count)) }
{
    match op.row() {
        Row::Nullary(_) => Ok(Vec::new(alloc)),
        Row::Unary(row) => one(alloc, Term::of_scheme(alloc, &row.scheme().0, first)?),
        Row::Binary(row) => {
            let (left, right, _) = row.scheme();
            let left = Term::of_scheme(alloc, &left, first)?;
            let right = Term::of_scheme(alloc, &right, first)?;
            two(alloc, left, right)
        }
        Row::SetExtension => {
            let member = Term::of_scheme(alloc, &Scheme::of_set_extension().0, first)?;
            copies(alloc, &member, count.saturating_sub(1))
        }
    }
}

/// The types of a set and its parts, of which there are `count`.
pub(crate) fn partition_terms(
    alloc: Global,
    count: usize,
    first: u32,
) -> Result<Vec<Term>, OutOfMemory>
    requires { first + 3 < 2 ^ 32 }
    ensures { IfOk result (λ v. open_terms v.items ≡ map (instance_from first) (partition_schemes count)) }
{
    let (set, _, _) = BinaryRow::SetOperation.scheme();
    let set = Term::of_scheme(alloc, &set, first)?;
    copies(alloc, &set, count.saturating_sub(1))
}

/// The type of a binder.
pub(crate) fn binder_term(alloc: Global, binder: Binder, first: u32) -> Result<Term, OutOfMemory>
    requires { first + 3 < 2 ^ 32 }
    ensures { IfOk result (λ t. term_of t ≡ instance_from first (binder_scheme binder)) }
{
    Term::of_scheme(alloc, &binder.scheme().1, first)
}

/// The types of the parts of a binder.
pub(crate) fn binder_terms(
    alloc: Global,
    binder: Binder,
    first: u32,
) -> Result<Vec<Term>, OutOfMemory>
    requires { first + 3 < 2 ^ 32 }
    ensures { IfOk result (λ v. open_terms v.items ≡ map (instance_from first) (part_schemes binder)) }
{
    match binder.scheme().0 {
        Some(scheme) => {
            let value = Term::of_scheme(alloc, &scheme, first)?;
            two(alloc, Term::Truth, value)
        }
        None => one(alloc, Term::Truth),
    }
}

fn one(alloc: Global, a: Term) -> Result<Vec<Term>, OutOfMemory>
    ensures { IfOk result (λ v. open_terms v.items ≡ term_of a ∷ []) }
{
    let mut terms = Vec::new(alloc);
    terms.push(a)?;
    Ok(terms)
}

fn two(alloc: Global, a: Term, b: Term) -> Result<Vec<Term>, OutOfMemory>
    ensures { IfOk result (λ v. open_terms v.items ≡ term_of a ∷ term_of b ∷ []) }
{
    let mut terms = Vec::new(alloc);
    terms.push(a)?;
    terms.push(b)?;
    Ok(terms)
}

/// A term and so many others that are the same.
fn copies(alloc: Global, term: &Term, others: usize) -> Result<Vec<Term>, OutOfMemory>
    ensures { IfOk result (λ v. open_terms v.items ≡ term_of term.now ∷ replicate others (term_of term.now)) }
{
    let mut terms = one(alloc, term.copy(alloc)?)?;
    for _k in 0..others {
        terms.push(term.copy(alloc)?)?;
    }
    Ok(terms)
}
