//! The table of types: the types of the operands of an operator and its own, as type schemes.
ghost use Rattle.std.specs.Prelude.{◌≡◌, ◌∷◌, ◌-◌, ℕ, replicate, option_map, option_to_list};
ghost use Rattle.formula_core.specs.Schemes.{truth, nullary_scheme, unary_scheme, binary_scheme, operand_schemes, result_scheme, part_schemes, binder_scheme};
ghost use Rattle.formula_core.specs.declared.row.Row.TheVariants.{SetExtension};
ghost use Rattle.formula_core.specs.SchemeView.{scheme_of};

use crate::op::Binder;
use crate::row::{BinaryRow, NullaryRow, UnaryRow};

/// A letter of the table, which stands for any type of values.
#[derive(Clone, Copy, Debug, PartialEq, Eq)]
pub enum Letter {
    Alpha,
    Beta,
    Gamma,
    Delta,
}

/// A type with letters.
#[derive(Clone, Copy)]
pub enum Scheme {
    Any(Letter),
    Int,
    Bool,
    Truth,
    Pow(&'static Scheme),
    Pair(&'static Scheme, &'static Scheme),
}

const ALPHA: Scheme = Scheme::Any(Letter::Alpha);

const BETA: Scheme = Scheme::Any(Letter::Beta);

const GAMMA: Scheme = Scheme::Any(Letter::Gamma);

const DELTA: Scheme = Scheme::Any(Letter::Delta);

const PAIR: Scheme = Scheme::Pair(&ALPHA, &BETA);

const INTEGERS: Scheme = Scheme::Pow(&Scheme::Int);

const BOOLEANS: Scheme = Scheme::Pow(&Scheme::Bool);

const SET_OF_ALPHA: Scheme = Scheme::Pow(&ALPHA);

const SET_OF_BETA: Scheme = Scheme::Pow(&BETA);

const SET_OF_SETS: Scheme = Scheme::Pow(&Scheme::Pow(&ALPHA));

const SET_OF_RELATIONS: Scheme = Scheme::Pow(&Scheme::Pow(&Scheme::Pair(&ALPHA, &BETA)));

const ALPHA_TO_ALPHA: Scheme = Scheme::Pow(&Scheme::Pair(&ALPHA, &ALPHA));

const ALPHA_TO_BETA: Scheme = Scheme::Pow(&Scheme::Pair(&ALPHA, &BETA));

const ALPHA_TO_GAMMA: Scheme = Scheme::Pow(&Scheme::Pair(&ALPHA, &GAMMA));

const BETA_TO_ALPHA: Scheme = Scheme::Pow(&Scheme::Pair(&BETA, &ALPHA));

const BETA_TO_GAMMA: Scheme = Scheme::Pow(&Scheme::Pair(&BETA, &GAMMA));

const GAMMA_TO_DELTA: Scheme = Scheme::Pow(&Scheme::Pair(&GAMMA, &DELTA));

const INTEGER_TO_INTEGER: Scheme = Scheme::Pow(&Scheme::Pair(&Scheme::Int, &Scheme::Int));

const FIRST_PROJECTION: Scheme = Scheme::Pow(&Scheme::Pair(&Scheme::Pair(&ALPHA, &BETA), &ALPHA));

const SECOND_PROJECTION: Scheme = Scheme::Pow(&Scheme::Pair(&Scheme::Pair(&ALPHA, &BETA), &BETA));

const PARALLEL_PRODUCT: Scheme = Scheme::Pow(&Scheme::Pair(
    &Scheme::Pair(&ALPHA, &GAMMA),
    &Scheme::Pair(&BETA, &DELTA),
));

const DIRECT_PRODUCT: Scheme = Scheme::Pow(&Scheme::Pair(&ALPHA, &Scheme::Pair(&BETA, &GAMMA)));

impl NullaryRow {
    /// The type of an operator of the row.
    #[tactic(auto, using(crate::proofs::SchemeView::scheme_equations))]
    pub fn scheme(self) -> Scheme
        ensures { scheme_of result ≡ nullary_scheme self }
    {
        match self {
            NullaryRow::Predicate => Scheme::Truth,
            NullaryRow::TruthValue => Scheme::Bool,
            NullaryRow::TruthValueSet => BOOLEANS,
            NullaryRow::IntegerSet => INTEGERS,
            NullaryRow::EmptySet => SET_OF_ALPHA,
            NullaryRow::Identity => ALPHA_TO_ALPHA,
            NullaryRow::FirstProjection => FIRST_PROJECTION,
            NullaryRow::SecondProjection => SECOND_PROJECTION,
            NullaryRow::IntegerMap => INTEGER_TO_INTEGER,
        }
    }
}

impl UnaryRow {
    /// The types of the operand of an operator of the row, and of the operator.
    #[tactic(auto, using(crate::proofs::SchemeView::scheme_equations))]
    pub fn scheme(self) -> (Scheme, Scheme)
        ensures { (scheme_of result.0, scheme_of result.1) ≡ unary_scheme self }
    {
        match self {
            UnaryRow::Negation => (Scheme::Truth, Scheme::Truth),
            UnaryRow::Finiteness => (SET_OF_ALPHA, Scheme::Truth),
            UnaryRow::Opposite => (Scheme::Int, Scheme::Int),
            UnaryRow::Converse => (ALPHA_TO_BETA, BETA_TO_ALPHA),
            UnaryRow::PowerSet => (SET_OF_ALPHA, SET_OF_SETS),
            UnaryRow::Cardinality => (SET_OF_ALPHA, Scheme::Int),
            UnaryRow::Domain => (ALPHA_TO_BETA, SET_OF_ALPHA),
            UnaryRow::Range => (ALPHA_TO_BETA, SET_OF_BETA),
            UnaryRow::Flattening => (SET_OF_SETS, SET_OF_ALPHA),
            UnaryRow::Extremum => (INTEGERS, Scheme::Int),
            UnaryRow::TruthOf => (Scheme::Truth, Scheme::Bool),
        }
    }
}

impl BinaryRow {
    /// The types of the two operands of an operator of the row, and of the operator.
    #[tactic(auto, using(crate::proofs::SchemeView::scheme_equations))]
    pub fn scheme(self) -> (Scheme, Scheme, Scheme)
        ensures { (scheme_of result.0, scheme_of result.1, scheme_of result.2) ≡ binary_scheme self }
    {
        match self {
            BinaryRow::Connective => (Scheme::Truth, Scheme::Truth, Scheme::Truth),
            BinaryRow::Equality => (ALPHA, ALPHA, Scheme::Truth),
            BinaryRow::Membership => (ALPHA, SET_OF_ALPHA, Scheme::Truth),
            BinaryRow::Inclusion => (SET_OF_ALPHA, SET_OF_ALPHA, Scheme::Truth),
            BinaryRow::Comparison => (Scheme::Int, Scheme::Int, Scheme::Truth),
            BinaryRow::Maplet => (ALPHA, BETA, PAIR),
            BinaryRow::RelationSet => (SET_OF_ALPHA, SET_OF_BETA, SET_OF_RELATIONS),
            BinaryRow::SetOperation => (SET_OF_ALPHA, SET_OF_ALPHA, SET_OF_ALPHA),
            BinaryRow::Product => (SET_OF_ALPHA, SET_OF_BETA, ALPHA_TO_BETA),
            BinaryRow::DomainFilter => (SET_OF_ALPHA, ALPHA_TO_BETA, ALPHA_TO_BETA),
            BinaryRow::RangeFilter => (ALPHA_TO_BETA, SET_OF_BETA, ALPHA_TO_BETA),
            BinaryRow::Overriding => (ALPHA_TO_BETA, ALPHA_TO_BETA, ALPHA_TO_BETA),
            BinaryRow::Composition => (ALPHA_TO_BETA, BETA_TO_GAMMA, ALPHA_TO_GAMMA),
            BinaryRow::ParallelProduct => (ALPHA_TO_BETA, GAMMA_TO_DELTA, PARALLEL_PRODUCT),
            BinaryRow::DirectProduct => (ALPHA_TO_BETA, ALPHA_TO_GAMMA, DIRECT_PRODUCT),
            BinaryRow::Interval => (Scheme::Int, Scheme::Int, INTEGERS),
            BinaryRow::Arithmetic => (Scheme::Int, Scheme::Int, Scheme::Int),
            BinaryRow::Application => (ALPHA_TO_BETA, ALPHA, BETA),
            BinaryRow::Image => (ALPHA_TO_BETA, SET_OF_ALPHA, SET_OF_BETA),
        }
    }
}

impl Binder {
    /// The type of the expression of a binder, where it has one, and of the binder. Its predicate is a `Truth`.
    #[tactic(auto, using(crate::proofs::SchemeView::scheme_equations))]
    pub fn scheme(self) -> (Option<Scheme>, Scheme)
        ensures parts { truth ∷ option_to_list (option_map scheme_of result.0) ≡ part_schemes self }
        ensures whole { scheme_of result.1 ≡ binder_scheme self }
    {
        match self {
            Binder::ForAll | Binder::Exists => (None, Scheme::Truth),
            Binder::Comprehension => (Some(ALPHA), SET_OF_ALPHA),
            Binder::QuantifiedUnion => (Some(SET_OF_ALPHA), SET_OF_ALPHA),
            Binder::QuantifiedIntersection => (Some(SET_OF_ALPHA), SET_OF_ALPHA),
        }
    }
}

impl Scheme {
    /// The type of each member of a set extension, and of the set extension.
    #[tactic(auto, using(crate::proofs::SchemeView::scheme_equations))]
    pub fn of_set_extension() -> (Scheme, Scheme)
        ensures member { (k : ℕ)
            → operand_schemes SetExtension k ≡ scheme_of result.0 ∷ replicate (k - 1) (scheme_of result.0) }
        ensures whole { scheme_of result.1 ≡ result_scheme SetExtension }
    {
        (ALPHA, SET_OF_ALPHA)
    }
}
