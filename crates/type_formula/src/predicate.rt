//! The one typing of a written formula.
ghost use Rattle.std.specs.Prelude.{◌≡◌, ℕ, suc, ◌+◌, ◌<◌, ◌^◌, length, take, List, [], IfOk, OnOk, OnErr, IsOk, IsErrOf, IsTrue, None, Some};
ghost use Rattle.formula_core.specs.Env.{type_in};
ghost use Rattle.formula_core.specs.Formulas.{free_of};
ghost use Rattle.formula_core.specs.Typed.{HasCarriers, IsTypedIn};
ghost use Rattle.formula_core.specs.Wellness.{is_well, type_of};
ghost use Rattle.type_formula.specs.Answers.{with_typed_name, with_names_typed, IsExpected, IsTheTyping, HasNoTyping, HasTwoTypings, IsTheFormula, HasNoFormula, HasTwoFormulas};
ghost use Rattle.type_formula.specs.CoreForms.{core_form};
ghost use Rattle.type_formula.specs.Laws.{IsExpectedOver, IsStanding, StandsAfter};
ghost use Rattle.type_formula.specs.Unknowns.{unknowns, first_name_by_place, unknown_in};
ghost use Rattle.type_formula.specs.Views.{bare_of};
ghost use Rattle.type_formula.specs.PrivateViews.{free_scope, expected_term};
ghost use Rattle.type_formula.specs.PrivateGenerated.{generated};
ghost use Rattle.unification.specs.Terms.{term_of};
ghost use Rattle.unification.specs.Solutions.{equations_of};
ghost use Rattle.std.specs.Option.{option_copied};

use crate::build::{BuildFault, build};
use crate::collect::{Surroundings, System, collect};
use crate::occurring::occurring_names;
use crate::reading::read;
use crate::tree::Tree;
use crate::unknown::search;
use formula_core::{Env, EnvFault, Formula, Name, OutOfMemory, Raw, Ty};
use std::alloc::{AllocFailed, Global};
use unification::{Equation, SolveFault, Term, solve};

/// Why a formula has no typing of its own.
#[derive(Debug, Drop)]
pub enum TypeFault {
    /// The first name, by its byte place, that is neither bound nor wanted nor in the environment.
    Unknown(Name, u32),
    Clash,
    Untyped,
    OutOfMemory,
}

impl<T: Drop> From<AllocFailed<T>> for TypeFault {
    ghost use Rattle.type_formula.specs.declared.predicate.TypeFault.TheVariants.{OutOfMemory};

    ghost from_gives = { λ _ e. e ≡ OutOfMemory };

    fn from(_: AllocFailed<T>) -> TypeFault {
        TypeFault::OutOfMemory
    }
}

impl From<OutOfMemory> for TypeFault {
    ghost use Rattle.type_formula.specs.declared.predicate.TypeFault.TheVariants.{OutOfMemory};

    ghost from_gives = { λ _ e. e ≡ OutOfMemory };

    fn from(_: OutOfMemory) -> TypeFault {
        TypeFault::OutOfMemory
    }
}

/// Types a predicate, and adds the wanted names that occur in it to the environment, in their order.
pub fn type_predicate(
    alloc: Global,
    env: &mut Env,
    wanted: &[Name],
    raw: &Raw,
) -> Result<Formula, TypeFault>
    // The typing, where there is exactly one.
    ensures typed { IfOk result (λ f. IsTheTyping env.old wanted.now raw.now f env.new) }
    ensures well { IfOk result (λ f. IsTrue (is_well f)) }
    ensures is_predicate { IfOk result (λ f. type_of f ≡ Ty.Truth) }
    ensures clash { IsErrOf result TypeFault.Clash → HasNoTyping env.old wanted.now raw.now }
    ensures untyped { IsErrOf result TypeFault.Untyped → HasTwoTypings env.old wanted.now raw.now }
    ensures unchanged { OnErr result (env.new ≡ env.old) }
    ensures standing { HasCarriers env.old → IfOk result (λ f. IsStanding env.old env.new f) }

    // An unknown name goes first.
    ensures unknown { (name : List ℕ) (place : ℕ) → IsErrOf result (TypeFault.Unknown name place)
        → unknown_in env.old wanted.now raw.now ≡ Some (name, place) }
    ensures known { IsOk result → unknown_in env.old wanted.now raw.now ≡ None }
    ensures known_clash { IsErrOf result TypeFault.Clash → unknown_in env.old wanted.now raw.now ≡ None }
    ensures known_untyped { IsErrOf result TypeFault.Untyped → unknown_in env.old wanted.now raw.now ≡ None }
{
    let formula = type_formula(alloc, env, wanted, raw, Some(&Ty::Truth))?;
    extend(alloc, env, wanted, &formula)?;
    Ok(formula)
}

/// Types an expression, of the expected type where one is given.
pub fn type_expression(
    alloc: Global,
    env: &Env,
    expected: Option<&Ty>,
    raw: &Raw,
) -> Result<Formula, TypeFault>
    // The typing, where there is exactly one.
    ensures typed { IfOk result (λ f. IsTheFormula env.now [] (core_form raw.now) (option_copied expected.entry) f) }
    ensures well { IfOk result (λ f. IsTrue (is_well f)) }
    ensures is_of_type { IfOk result (λ f. IsExpected (option_copied expected.entry) (type_of f)) }
    ensures clash { IsErrOf result TypeFault.Clash
        → HasNoFormula env.now [] (core_form raw.now) (option_copied expected.entry) }
    ensures untyped { IsErrOf result TypeFault.Untyped
        → HasTwoFormulas env.now [] (core_form raw.now) (option_copied expected.entry) }
    ensures standing { HasCarriers env.now → IsExpectedOver env.now (option_copied expected.entry)
        → IfOk result (λ f. IsTypedIn env.now f) }

    // An unknown name goes first.
    ensures unknown { (name : List ℕ) (place : ℕ) → IsErrOf result (TypeFault.Unknown name place)
        → unknown_in env.now [] raw.now ≡ Some (name, place) }
    ensures known { IsOk result → unknown_in env.now [] raw.now ≡ None }
    ensures known_clash { IsErrOf result TypeFault.Clash → unknown_in env.now [] raw.now ≡ None }
    ensures known_untyped { IsErrOf result TypeFault.Untyped → unknown_in env.now [] raw.now ≡ None }
{
    type_formula(alloc, env, &[], raw, expected)
}

/// Types a formula, of the expected type where one is given.
fn type_formula(
    alloc: Global,
    env: &Env,
    wanted: &[Name],
    raw: &Raw,
    expected: Option<&Ty>,
) -> Result<Formula, TypeFault>
    ensures typed { IfOk result (λ f.
        IsTheFormula env.now wanted.now (core_form raw.now) (option_copied expected.entry) f) }
    ensures well { IfOk result (λ f. IsTrue (is_well f)) }
    ensures is_of_type { IfOk result (λ f. IsExpected (option_copied expected.entry) (type_of f)) }
    ensures clash { IsErrOf result TypeFault.Clash
        → HasNoFormula env.now wanted.now (core_form raw.now) (option_copied expected.entry) }
    ensures untyped { IsErrOf result TypeFault.Untyped
        → HasTwoFormulas env.now wanted.now (core_form raw.now) (option_copied expected.entry) }
    ensures unknown { (name : List ℕ) (place : ℕ) → IsErrOf result (TypeFault.Unknown name place)
        → unknown_in env.now wanted.now raw.now ≡ Some (name, place) }
    ensures known { IsOk result → unknown_in env.now wanted.now raw.now ≡ None }
    ensures known_clash { IsErrOf result TypeFault.Clash → unknown_in env.now wanted.now raw.now ≡ None }
    ensures known_untyped { IsErrOf result TypeFault.Untyped → unknown_in env.now wanted.now raw.now ≡ None }
{
    let tree = read(alloc, raw)?;
    match find_unknown(alloc, env, wanted, &tree)? {
        Some((name, place)) => Err(TypeFault::Unknown(name, place)),
        None => type_tree(alloc, env, wanted, &tree, expected),
    }
}

/// The first name that is unknown.
fn find_unknown(
    alloc: Global,
    env: &Env,
    wanted: &[Name],
    tree: &Tree,
) -> Result<Option<(Name, u32)>, OutOfMemory>
    ensures { IfOk result (λ found. found ≡ first_name_by_place (unknowns env.now wanted.now [] (bare_of tree.now))) }
{
    let mut bound = Vec::new(alloc);
    let mut found = None;
    search(alloc, env, wanted, &mut bound, tree, &mut found)?;
    Ok(found)
}

/// Types a formula in core form. A name that is unknown has no type.
pub fn type_tree(
    alloc: Global,
    env: &Env,
    wanted: &[Name],
    tree: &Tree,
    expected: Option<&Ty>,
) -> Result<Formula, TypeFault>
    ensures typed { IfOk result (λ f.
        IsTheFormula env.now wanted.now (bare_of tree.now) (option_copied expected.entry) f) }
    ensures well { IfOk result (λ f. IsTrue (is_well f)) }
    ensures is_of_type { IfOk result (λ f. IsExpected (option_copied expected.entry) (type_of f)) }
    ensures clash { IsErrOf result TypeFault.Clash
        → HasNoFormula env.now wanted.now (bare_of tree.now) (option_copied expected.entry) }
    ensures untyped { IsErrOf result TypeFault.Untyped
        → HasTwoFormulas env.now wanted.now (bare_of tree.now) (option_copied expected.entry) }
    ensures standing { HasCarriers env.now → IsExpectedOver env.now (option_copied expected.entry)
        → IfOk result (λ f. StandsAfter env.now wanted.now f) }
    ensures unknown { (name : List ℕ) (place : ℕ) → IsErrOf result (TypeFault.Unknown name place) → ⊥ }
{
    let names = occurring_names(alloc, env, wanted, tree)?;
    type_over(alloc, env, &names, tree, expected)
}

/// Types a formula in core form, with a variable for each wanted name.
fn type_over(
    alloc: Global,
    env: &Env,
    wanted: &[Name],
    tree: &Tree,
    expected: Option<&Ty>,
) -> Result<Formula, TypeFault>
    ensures typed { IfOk result (λ f.
        IsTheFormula env.now wanted.now (bare_of tree.now) (option_copied expected.entry) f) }
    ensures well { IfOk result (λ f. IsTrue (is_well f)) }
    ensures is_of_type { IfOk result (λ f. IsExpected (option_copied expected.entry) (type_of f)) }
    ensures clash { IsErrOf result TypeFault.Clash
        → HasNoFormula env.now wanted.now (bare_of tree.now) (option_copied expected.entry) }
    ensures untyped { IsErrOf result TypeFault.Untyped
        → HasTwoFormulas env.now wanted.now (bare_of tree.now) (option_copied expected.entry) }
    ensures unknown { (name : List ℕ) (place : ℕ) → IsErrOf result (TypeFault.Unknown name place) → ⊥ }
{
    if wanted.len() >= u32::MAX as usize {
        return Err(TypeFault::OutOfMemory);
    }
    let first = wanted.len() as u32 + 1;
    let equations = equations_of_tree(alloc, env, wanted, tree, expected)?;
    let types = match solve(alloc, equations) {
        Ok(types) => types,
        Err(SolveFault::NoSolution) => return Err(TypeFault::Clash),
        Err(SolveFault::OutOfMemory) => return Err(TypeFault::OutOfMemory),
    };
    let mut next = first;
    let mut scope = Vec::new(alloc);
    match build(alloc, &types, &mut scope, &mut next, tree) {
        Ok(formula) => Ok(formula),
        Err(BuildFault::Untyped) => Err(TypeFault::Untyped),
        Err(BuildFault::OutOfMemory) => Err(TypeFault::OutOfMemory),
    }
}

/// The expected type, or a variable where none is expected.
fn expected_term(alloc: Global, expected: Option<&Ty>, variable: u32) -> Result<Term, OutOfMemory>
    ensures { IfOk result (λ t. term_of t ≡ expected_term (option_copied expected.entry) variable) }
{
    match expected {
        Some(ty) => Term::of_type(alloc, ty),
        None => Ok(Term::Var(variable)),
    }
}

fn equations_of_tree(
    alloc: Global,
    env: &Env,
    wanted: &[Name],
    tree: &Tree,
    expected: Option<&Ty>,
) -> Result<Vec<Equation>, OutOfMemory>
    requires { length wanted.now + 1 < 2 ^ 32 }
    ensures { IfOk result (λ es.
        equations_of es.items ≡ generated env.now [] (free_scope env.now wanted.now) (bare_of tree.now)
        (suc (length wanted.now)) (expected_term (option_copied expected.entry) (length wanted.now))) }
{
    let around = Surroundings { alloc, env, wanted };
    let mut scope = Vec::new(alloc);
    let variable = wanted.len() as u32;
    let mut system = System {
        next: variable + 1,
        equations: Vec::new(alloc),
    };
    let term = expected_term(alloc, expected, variable)?;
    collect(&around, &mut scope, &mut system, tree, term)?;
    Ok(system.equations)
}

/// Adds the wanted names that occur in a formula. Where memory runs out nothing changes.
fn extend(
    alloc: Global,
    env: &mut Env,
    wanted: &[Name],
    formula: &Formula,
) -> Result<(), OutOfMemory>
    ensures extended { OnOk result (env.new ≡ with_names_typed env.old wanted.now formula.now) }
    ensures unchanged { OnErr result (env.new ≡ env.old) }
{
    let len = env.entries().len();
    match add_names(alloc, env, wanted, formula) {
        Ok(()) => Ok(()),
        Err(fault) => {
            env.cut(len);
            Err(fault)
        }
    }
}

/// Adds the wanted names that occur in a formula, as long as there is memory.
fn add_names(
    alloc: Global,
    env: &mut Env,
    wanted: &[Name],
    formula: &Formula,
) -> Result<(), OutOfMemory>
    ensures added { OnOk result (env.new ≡ with_names_typed env.old wanted.now formula.now) }
    ensures kept { take (length env.old) env.new ≡ env.old }
{
    let free = formula.free(alloc)?;
    for name in wanted {
        add_name(alloc, env, name, &free)?;
    }
    Ok(())
}

fn add_name(
    alloc: Global,
    env: &mut Env,
    name: &Name,
    free: &[(Name, Ty)],
) -> Result<(), OutOfMemory>
    ensures added { OnOk result (env.new ≡ with_typed_name env.old name.now (type_in free.now name.now)) }
    ensures unchanged { OnErr result (env.new ≡ env.old) }
{
    match type_among(free, name) {
        Some(ty) => add_typed(alloc, env, name, ty),
        None => Ok(()),
    }
}

fn add_typed(alloc: Global, env: &mut Env, name: &Name, ty: &Ty) -> Result<(), OutOfMemory>
    ensures added { OnOk result (env.new ≡ with_typed_name env.old name.now (Some ty.now)) }
    ensures unchanged { OnErr result (env.new ≡ env.old) }
{
    let name = name.copy(alloc)?;
    match env.add(name, ty.copy(alloc)?) {
        Ok(()) => Ok(()),
        Err(EnvFault::Taken) => Ok(()),
        Err(EnvFault::OutOfMemory) => Err(OutOfMemory),
    }
}

fn type_among<'a>(free: &'a [(Name, Ty)], name: &Name) -> Option<&'a Ty>
    ensures { option_copied result ≡ type_in free.now name.now }
{
    for entry in free {
        if name.same(&entry.0) {
            return Some(&entry.1);
        }
    }
    None
}
