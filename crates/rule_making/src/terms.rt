//! The terms of a hint, typed.
ghost use Rattle.std.specs.Prelude.{◌≡◌, [], List, None, IfOk, MatchOption, slice_get};
ghost use Rattle.std.specs.Option.{option_copied};
ghost use Rattle.formula_core.specs.declared.formula.Formula.{Formula};
ghost use Rattle.type_formula.specs.Answers.{IsTheFormula};
ghost use Rattle.type_formula.specs.Views.{bare_of};
ghost use Rattle.rule_making.specs.Make.{IsTerm, IsTypedAlone, AreTerms};

use formula_core::{Env, Formula, List, OutOfMemory, Raw, Ty};
use std::alloc::Global;
use type_formula::{Tree, TypeFault, read, type_tree};

/// The terms, each with its one typing, the first ones of these types; None where one has no typing or several.
#[tactic(auto, using(crate::proofs::TermPlaces::laws))]
pub(crate) fn typed_terms(
    alloc: Global,
    env: &Env,
    types: &[Ty],
    raws: &[Raw],
) -> Result<Option<List<Formula>>, OutOfMemory>
    ensures { IfOk result (λ o. MatchOption o
        ((terms : List Formula) → AreTerms env.now types.now raws.now terms → ⊥)
        (λ terms. AreTerms env.now types.now raws.now terms)) }
{
    let mut terms = Vec::new(alloc);
    for i in 0..raws.len() {
        let Some(term) = typed_term(alloc, env, type_at(types, i), &raws[i])? else {
            return Ok(None);
        };
        terms.push(term)?;
    }
    Ok(Some(List::of(terms)))
}

fn type_at(types: &[Ty], i: usize) -> Option<&Ty>
    ensures { option_copied result ≡ slice_get types.now i }
{
    if i < types.len() {
        Some(&types[i])
    } else {
        None
    }
}

fn typed_term(
    alloc: Global,
    env: &Env,
    expected: Option<&Ty>,
    raw: &Raw,
) -> Result<Option<Formula>, OutOfMemory>
    ensures { IfOk result (λ o. MatchOption o
        ((f : Formula) → IsTerm env.now (option_copied expected.entry) raw.now f → ⊥)
        (λ f. IsTerm env.now (option_copied expected.entry) raw.now f)) }
{
    let tree = read(alloc, raw)?;
    match expected {
        Some(ty) => typed_as(alloc, env, Some(ty), &tree),
        None => typed_alone(alloc, env, &tree),
    }
}

/// As a predicate, or else as an expression.
fn typed_alone(alloc: Global, env: &Env, tree: &Tree) -> Result<Option<Formula>, OutOfMemory>
    ensures { IfOk result (λ o. MatchOption o
        ((f : Formula) → IsTypedAlone env.now (bare_of tree.now) f → ⊥)
        (λ f. IsTypedAlone env.now (bare_of tree.now) f)) }
{
    let truth = Ty::Truth;
    if let Some(f) = typed_as(alloc, env, Some(&truth), tree)? {
        return Ok(Some(f));
    }
    typed_as(alloc, env, None, tree)
}

fn typed_as(
    alloc: Global,
    env: &Env,
    expected: Option<&Ty>,
    tree: &Tree,
) -> Result<Option<Formula>, OutOfMemory>
    ensures { IfOk result (λ o. MatchOption o
        ((f : Formula) → IsTheFormula env.now [] (bare_of tree.now) (option_copied expected.entry) f → ⊥)
        (λ f. IsTheFormula env.now [] (bare_of tree.now) (option_copied expected.entry) f)) }
{
    match type_tree(alloc, env, &[], tree, expected) {
        Ok(f) => Ok(Some(f)),
        Err(fault) => no_term(fault),
    }
}

fn no_term(fault: TypeFault) -> Result<Option<Formula>, OutOfMemory>
    ensures none { IfOk result (λ o. o ≡ None) }
    ensures known { IfOk result (λ o. fault ≡ TypeFault.OutOfMemory → ⊥) }
{
    match fault {
        TypeFault::OutOfMemory => Err(OutOfMemory),
        _ => Ok(None),
    }
}
