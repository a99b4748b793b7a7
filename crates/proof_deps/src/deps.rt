// What a proof tree asks of a sequent, and the test of a sequent.
ghost use Rattle.std.specs.Prelude.{◌≡◌, ◌↔◌, ◌<◌, None, map, length, get_or, IsTrue, IfOk, IfSome, Contains};
ghost use Rattle.std.specs.List.{AllByRecursion};
ghost use Rattle.formula_core.specs.Env.{type_in};
ghost use Rattle.formula_core.specs.Typed.{Stands};
ghost use Rattle.proof_deps.specs.Deps.{FitsIn};
ghost use Rattle.proof_deps.specs.Prints.{print_of};

use crate::print::{MANY, guessed_places, print};
use crate::way::is_among;
use formula_core::{Env, Formula, List, Name, OutOfMemory, Ty, copy_formulas, copy_identifiers};
use sequent_core::Sequent;
use std::alloc::Global;

/// What a proof tree asks of a sequent: its goal, hypotheses and names that it has, and names that it doesn't have.
#[derive(Drop)]
pub struct Deps {
    pub goal: Option<Formula>,
    pub hyps: List<Formula>,
    pub used: List<(Name, Ty)>,
    pub fresh: List<Name>,
}

impl Deps {
    pub fn copy(&self, alloc: Global) -> Result<Deps, OutOfMemory>
        ensures { IfOk result (λ copy. copy ≡ self.now) }
    {
        let goal = copy_goal(alloc, &self.goal)?;
        let hyps = copy_formulas(alloc, self.hyps.items())?;
        let used = copy_identifiers(alloc, self.used.items())?;
        let fresh = copy_names(alloc, self.fresh.items())?;
        Ok(Deps {
            goal,
            hyps,
            used,
            fresh,
        })
    }
}

fn copy_goal(alloc: Global, goal: &Option<Formula>) -> Result<Option<Formula>, OutOfMemory>
    ensures { IfOk result (λ copy. copy ≡ goal.now) }
{
    match goal {
        Some(formula) => Ok(Some(formula.copy(alloc)?)),
        None => Ok(None),
    }
}

fn copy_names(alloc: Global, names: &[Name]) -> Result<List<Name>, OutOfMemory>
    ensures { IfOk result (λ copies. copies ≡ names.now) }
{
    let mut copies = Vec::new(alloc);
    for name in names {
        copies.push(name.copy(alloc)?)?;
    }
    Ok(List::of(copies))
}

/// Whether the sequent has what the dependencies ask for. It takes no memory.
pub fn fits(deps: &Deps, sequent: &Sequent) -> bool
    ensures exact { IsTrue result ↔ FitsIn deps.now sequent.now }
{
    has_goal_and_names(deps, sequent) && has_hyps(deps.hyps.items(), sequent.hyps.items())
}

/// The same, with the numbers of the hypotheses (`prints_of`), which are looked through in their place: a hypothesis is
/// looked at where it has the number that is sought.
pub fn fits_by(deps: &Deps, sequent: &Sequent, prints: &List<u64>) -> bool
    requires prints { prints.now ≡ map print_of sequent.now.hyps }
    ensures exact { IsTrue result ↔ FitsIn deps.now sequent.now }
{
    has_goal_and_names(deps, sequent)
        && has_all(sequent.hyps.items(), prints.items(), deps.hyps.items())
}

fn has_goal_and_names(deps: &Deps, sequent: &Sequent) -> bool
    ensures { IsTrue result
        ↔ (IfSome deps.now.goal (λ g. g ≡ sequent.now.goal) × AllByRecursion (Stands sequent.now.env) deps.now.used
        × AllByRecursion (λ name. type_in sequent.now.env name ≡ None) deps.now.fresh) }
{
    has_goal(&deps.goal, &sequent.goal)
        && has_used(deps.used.items(), &sequent.env)
        && has_none(deps.fresh.items(), &sequent.env)
}

fn has_goal(wanted: &Option<Formula>, goal: &Formula) -> bool
    ensures { IsTrue result ↔ IfSome wanted.now (λ g. g ≡ goal.now) }
{
    match wanted {
        Some(formula) => formula.same(goal),
        None => true,
    }
}

/// Whether these are hypotheses. The place of each is guessed from its number, in one pass for many of them.
fn has_hyps(wanted: &[Formula], hyps: &[Formula]) -> bool
    ensures { IsTrue result ↔ AllByRecursion (Contains hyps.now) wanted.now }
{
    let mut places = [0; MANY];
    for i in 0..wanted.len() {
        if i % MANY == 0 {
            places = guessed_places(&wanted[i..], hyps);
        }
        if !has_hyp(hyps, &wanted[i], places[i % MANY]) {
            return false;
        }
    }
    true
}

fn has_hyp(hyps: &[Formula], wanted: &Formula, guess: usize) -> bool
    ensures { IsTrue result ↔ Contains hyps.now wanted.now }
{
    is_there(hyps, wanted, guess) || is_among(hyps, wanted)
}

fn is_there(hyps: &[Formula], wanted: &Formula, place: usize) -> bool
    ensures { IsTrue result → Contains hyps.now wanted.now }
{
    match hyps.get(place) {
        Some(hyp) => hyp.same(wanted),
        None => false,
    }
}

/// Whether all that are wanted are among the formulas, whose numbers these are.
fn has_all(formulas: &[Formula], prints: &[u64], wanted: &[Formula]) -> bool
    requires prints { prints.now ≡ map print_of formulas.now }
    ensures all { IsTrue result ↔ AllByRecursion (Contains formulas.now) wanted.now }
{
    for formula in wanted {
        if !has(formulas, prints, formula) {
            return false;
        }
    }
    true
}

fn has(formulas: &[Formula], prints: &[u64], wanted: &Formula) -> bool
    requires { prints.now ≡ map print_of formulas.now }
    ensures { IsTrue result ↔ Contains formulas.now wanted.now }
{
    let print = print(wanted);
    for at in 0..formulas.len() {
        if is_at(formulas, prints, at, wanted, print) {
            return true;
        }
    }
    false
}

/// Whether it is the formula at the place. The numbers are compared first.
fn is_at(formulas: &[Formula], prints: &[u64], at: usize, wanted: &Formula, print: u64) -> bool
    requires within { at < length formulas.now }
    requires prints { prints.now ≡ map print_of formulas.now }
    requires print { print ≡ print_of wanted.now }
    ensures { IsTrue result ↔ (get_or formulas.now at wanted.now ≡ wanted.now) }
{
    prints[at] == print && formulas[at].same(wanted)
}

fn has_used(wanted: &[(Name, Ty)], env: &Env) -> bool
    ensures { IsTrue result ↔ AllByRecursion (Stands env.now) wanted.now }
{
    for identifier in wanted {
        if !has_type(env, &identifier.0, &identifier.1) {
            return false;
        }
    }
    true
}

fn has_type(env: &Env, name: &Name, ty: &Ty) -> bool
    ensures { IsTrue result ↔ Stands env.now (name.now, ty.now) }
{
    match env.get(name) {
        Some(found) => found.same(ty),
        None => false,
    }
}

/// Whether none of the names stands in the environment.
pub fn has_none(names: &[Name], env: &Env) -> bool
    ensures { IsTrue result ↔ AllByRecursion (λ name. type_in env.now name ≡ None) names.now }
{
    for name in names {
        if env.get(name).is_some() {
            return false;
        }
    }
    true
}
