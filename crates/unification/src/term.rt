ghost use Rattle.std.specs.Prelude.{◌≡◌, ◌+◌, ◌<◌, ◌^◌, IfOk};
ghost use Rattle.unification.specs.Terms.{term_of, open_of, instance_from, variable, powerset, product};
ghost use Rattle.unification.specs.PrivateGraph.{variable_count};
ghost use Rattle.formula_core.specs.SchemeView.{scheme_of, letter_of};

use formula_core::{Letter, Name, OutOfMemory, Scheme, Ty};
use std::alloc::Global;

/// A type with variables, which are numbered.
#[derive(Drop)]
pub enum Term {
    Int,
    Bool,
    Truth,
    Given(Name),
    Var(u32),
    Pow(Box<Term>),
    Pair(Box<Term>, Box<Term>),
}

impl Term {
    pub fn copy(&self, alloc: Global) -> Result<Term, OutOfMemory>
        ensures { IfOk result (λ t. term_of t ≡ term_of self.now) }
    {
        match self {
            Term::Int => Ok(Term::Int),
            Term::Bool => Ok(Term::Bool),
            Term::Truth => Ok(Term::Truth),
            Term::Given(name) => Ok(Term::Given(name.copy(alloc)?)),
            Term::Var(i) => Ok(Term::Var(*i)),
            Term::Pow(part) => power(alloc, part.copy(alloc)?),
            Term::Pair(left, right) => {
                let left = left.copy(alloc)?;
                let right = right.copy(alloc)?;
                pair(alloc, left, right)
            }
        }
    }

    /// The type, without variables.
    #[tactic(auto, using(crate::proofs::Terms::open_of_equations))]
    pub fn of_type(alloc: Global, ty: &Ty) -> Result<Term, OutOfMemory>
        ensures { IfOk result (λ t. term_of t ≡ open_of ty.now) }
    {
        match ty {
            Ty::Int => Ok(Term::Int),
            Ty::Bool => Ok(Term::Bool),
            Ty::Truth => Ok(Term::Truth),
            Ty::Given(name) => Ok(Term::Given(name.copy(alloc)?)),
            Ty::Pow(part) => power(alloc, Term::of_type(alloc, part.get())?),
            Ty::Pair(left, right) => {
                let left = Term::of_type(alloc, left.get())?;
                let right = Term::of_type(alloc, right.get())?;
                pair(alloc, left, right)
            }
        }
    }

    /// The type scheme, with four variables from `first` on for its letters.
    #[tactic(auto, using(formula_core::proofs::SchemeView::scheme_equations))]
    pub fn of_scheme(alloc: Global, scheme: &Scheme, first: u32) -> Result<Term, OutOfMemory>
        requires { first + 3 < 2 ^ 32 }
        ensures { IfOk result (λ t. term_of t ≡ instance_from first (scheme_of scheme.now)) }
    {
        match scheme {
            Scheme::Any(letter) => Ok(Term::Var(letter_variable(*letter, first))),
            Scheme::Int => Ok(Term::Int),
            Scheme::Bool => Ok(Term::Bool),
            Scheme::Truth => Ok(Term::Truth),
            Scheme::Pow(part) => power(alloc, Term::of_scheme(alloc, part, first)?),
            Scheme::Pair(left, right) => {
                let left = Term::of_scheme(alloc, left, first)?;
                let right = Term::of_scheme(alloc, right, first)?;
                pair(alloc, left, right)
            }
        }
    }

    /// How many variables there are up to its greatest one.
    pub(crate) fn variables(&self) -> usize
        ensures { result ≡ variable_count (term_of self.now) }
    {
        match self {
            Term::Int => 0,
            Term::Bool => 0,
            Term::Truth => 0,
            Term::Given(_) => 0,
            Term::Var(i) => *i as usize + 1,
            Term::Pow(part) => part.variables(),
            Term::Pair(left, right) => left.variables().max(right.variables()),
        }
    }
}

fn power(alloc: Global, part: Term) -> Result<Term, OutOfMemory>
    ensures { IfOk result (λ t. term_of t ≡ powerset (term_of part)) }
{
    Ok(Term::Pow(Box::new(alloc, part)?))
}

fn pair(alloc: Global, left: Term, right: Term) -> Result<Term, OutOfMemory>
    ensures { IfOk result (λ t. term_of t ≡ product (term_of left) (term_of right)) }
{
    let left = Box::new(alloc, left)?;
    Ok(Term::Pair(left, Box::new(alloc, right)?))
}

fn letter_variable(letter: Letter, first: u32) -> u32
    requires { first + 3 < 2 ^ 32 }
    ensures { variable result ≡ instance_from first (letter_of letter) }
{
    match letter {
        Letter::Alpha => first,
        Letter::Beta => first + 1,
        Letter::Gamma => first + 2,
        Letter::Delta => first + 3,
    }
}
