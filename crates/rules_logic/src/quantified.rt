//! Rules of quantifiers: new names, and terms.
ghost use Rattle.std.specs.Prelude.{◌≡◌, IfOk, [], ◌∷◌, length, zip};
ghost use Rattle.formula_core.specs.Formulas.{instantiated};
ghost use Rattle.formula_core.specs.Shifting.{as_terms};
ghost use Rattle.rule_table.specs.Rows.{named, new_goal, new_hyp, all_r, ex_l, have_types, all_l, ex_r};
ghost use Rattle.formula_core.specs.Types.{same_type};
ghost use Rattle.formula_core.specs.Wellness.{type_of};

use crate::closing::instead_of;
use formula_core::{Binder, Formula, List, Name, OutOfMemory, Ty};
use rule_table::{
    Antecedent, Body, adds_one, backward, forward_one, one, one_after, one_bound, one_left, proves,
    wd_of_all,
};
use std::alloc::Global;

/// The names with the types of the bound identifiers, where there are as many.
#[tactic(auto, unfolding(rule_table::specs::Rows::named))]
fn named(
    alloc: Global,
    names: &[Name],
    types: &[Ty],
) -> Result<Option<List<(Name, Ty)>>, OutOfMemory>
    ensures { IfOk result (λ o. o ≡ named names.now types.now) }
{
    if names.len() != types.len() {
        return Ok(None);
    }
    Ok(Some(List::of(paired(alloc, names, types)?)))
}

/// Each name with its type.
#[tactic(auto, using(crate::proofs::Zips::zip_more))]
fn paired(alloc: Global, names: &[Name], types: &[Ty]) -> Result<Vec<(Name, Ty)>, OutOfMemory>
    requires { length names.now ≡ length types.now }
    ensures { IfOk result (λ ids. ids.items ≡ zip names.now types.now) }
{
    let mut ids = Vec::new(alloc);
    for i in 0..names.len() {
        ids.push((names[i].copy(alloc)?, types[i].copy(alloc)?))?;
    }
    Ok(ids)
}

/// The names, free.
fn as_terms(alloc: Global, ids: &[(Name, Ty)]) -> Result<Vec<Formula>, OutOfMemory>
    ensures { IfOk result (λ terms. terms.items ≡ as_terms ids.now) }
{
    let mut terms = Vec::new(alloc);
    for id in ids {
        terms.push(Formula::Free(id.0.copy(alloc)?, id.1.copy(alloc)?))?;
    }
    Ok(terms)
}

/// A body with new names in the place of its identifiers.
fn with_names(alloc: Global, body: &Formula, ids: &[(Name, Ty)]) -> Result<Formula, OutOfMemory>
    ensures { IfOk result (λ f. f ≡ instantiated (as_terms ids.now) 0 body.now) }
{
    let terms = as_terms(alloc, ids)?;
    body.instantiate_any(alloc, terms.as_slice())
}

/// Adds the identifiers, and proves the body of them.
fn new_goal(
    alloc: Global,
    idents: List<(Name, Ty)>,
    body: &Formula,
) -> Result<Antecedent, OutOfMemory>
    ensures { IfOk result (λ a. a ≡ new_goal idents body.now) }
{
    let goal = with_names(alloc, body, idents.items())?;
    Ok(Antecedent {
        idents,
        hyps: List::of(Vec::new(alloc)),
        goal: Some(goal),
    })
}

/// Adds the identifiers, and the body of them as a hypothesis.
fn new_hyp(
    alloc: Global,
    idents: List<(Name, Ty)>,
    body: &Formula,
) -> Result<Antecedent, OutOfMemory>
    ensures { IfOk result (λ a. a ≡ new_hyp idents body.now) }
{
    let hyp = with_names(alloc, body, idents.items())?;
    Ok(Antecedent {
        idents,
        hyps: one(alloc, hyp)?,
        goal: None,
    })
}

/// Universal quantifier in the goal: P is proved of new names.
pub fn all_r(alloc: Global, names: &[Name], g: &Formula) -> Result<Option<Body>, OutOfMemory>
    ensures row { IfOk result (λ o. o ≡ all_r names.now g.now) }
{
    let Some((types, p)) = one_bound(Binder::ForAll, g) else {
        return Ok(None);
    };
    let Some(idents) = named(alloc, names, types)? else {
        return Ok(None);
    };
    let left = one_left(alloc, new_goal(alloc, idents, p)?)?;
    Ok(Some(backward(alloc, g, left)?))
}

/// Existential quantifier in a hypothesis: P of new names is there.
pub fn ex_l(alloc: Global, names: &[Name], h: &Formula) -> Result<Option<Body>, OutOfMemory>
    ensures row { IfOk result (λ o. o ≡ ex_l names.now h.now) }
{
    let Some((types, p)) = one_bound(Binder::Exists, h) else {
        return Ok(None);
    };
    let Some(idents) = named(alloc, names, types)? else {
        return Ok(None);
    };
    let left = one_left(alloc, new_hyp(alloc, idents, p)?)?;
    Ok(Some(forward_one(alloc, h, left)?))
}

/// As many terms as types, each of its type.
#[tactic(auto, using(crate::proofs::Terms::laws))]
fn have_types(terms: &[Formula], types: &[Ty]) -> bool
    ensures { result ≡ have_types terms.now types.now }
{
    for i in 0..terms.len() {
        if types.len() <= i {
            return false;
        }
        if !has_type(&terms[i], &types[i]) {
            return false;
        }
    }
    types.len() <= terms.len()
}

/// Whether a term has this type.
fn has_type(term: &Formula, ty: &Ty) -> bool
    ensures { result ≡ same_type (type_of term.now) ty.now }
{
    let integer = Ty::Int;
    term.type_of(&integer).same(ty)
}

/// Instantiation of a universal hypothesis: the terms are well defined, and P of them is there.
pub fn all_l(alloc: Global, terms: &[Formula], h: &Formula) -> Result<Option<Body>, OutOfMemory>
    ensures row { IfOk result (λ o. o ≡ all_l terms.now h.now) }
{
    let Some((types, p)) = one_bound(Binder::ForAll, h) else {
        return Ok(None);
    };
    if !have_types(terms, types) {
        return Ok(None);
    }
    let condition = wd_of_all(alloc, terms)?;
    let Ok(made) = p.instantiate_any(alloc, terms) else {
        return instead_of(condition, Err(OutOfMemory));
    };
    let Ok(added) = adds_one(alloc, made) else {
        return instead_of(condition, Err(OutOfMemory));
    };
    let left = one_after(alloc, condition, added)?;
    Ok(Some(forward_one(alloc, h, left)?))
}

/// Instantiation of an existential goal: the terms are well defined, and P of them is proved.
pub fn ex_r(alloc: Global, terms: &[Formula], g: &Formula) -> Result<Option<Body>, OutOfMemory>
    ensures row { IfOk result (λ o. o ≡ ex_r terms.now g.now) }
{
    let Some((types, p)) = one_bound(Binder::Exists, g) else {
        return Ok(None);
    };
    if !have_types(terms, types) {
        return Ok(None);
    }
    let condition = wd_of_all(alloc, terms)?;
    let Ok(made) = p.instantiate_any(alloc, terms) else {
        return instead_of(condition, Err(OutOfMemory));
    };
    let proved = proves(alloc, made);
    let left = one_after(alloc, condition, proved)?;
    Ok(Some(backward(alloc, g, left)?))
}
