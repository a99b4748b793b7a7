//! How operators and binders are written: their signs, and the classes of the tokens by which they are known.

ghost use Rattle.std.specs.Prelude.{◌≡◌};
ghost use Rattle.math_grammar.specs.Private.{spellings_of};
ghost use Rattle.math_grammar.specs.Operators.{spelled_sign, spelled_form, sign_of, op_form, form_class, class_of, raw_sign_of, raw_class_of, binder_sign_of, binder_class_of, raw_binder_sign_of, raw_binder_class_of};

use crate::levels::{Binding, Bracket, Call, Level};
use crate::symbols::Symbol;
use formula_core::{Binder, Op, RawBinder, RawOp};

/// How an operator stands to its operands.
#[derive(Clone, Copy, Debug)]
pub enum Form {
    /// ⊤ and ⊥.
    Truth,
    Constant,
    Call(Call),
    Not,
    /// − before one operand.
    Negation,
    /// − between two operands.
    Minus,
    /// Each other operator between two operands.
    Infix(Level),
    /// Behind one operand.
    Converse,
    /// What the bracket opens: an application, an image or a set of members.
    Open(Bracket),
}

/// How each operator is written, at its number: its sign, and how it stands to its operands.
pub const SPELLINGS: [(Op, &str, Form); 72] = [
    (Op::Top, "⊤", Form::Truth),
    (Op::Bottom, "⊥", Form::Truth),
    (Op::Not, "¬", Form::Not),
    (Op::And, "∧", Form::Infix(Level::Conjunction)),
    (Op::Or, "∨", Form::Infix(Level::Disjunction)),
    (Op::Implies, "⇒", Form::Infix(Level::Implication)),
    (Op::Equivalent, "⇔", Form::Infix(Level::Implication)),
    (Op::Equal, "=", Form::Infix(Level::Relation)),
    (Op::Member, "∈", Form::Infix(Level::Relation)),
    (Op::ProperSubset, "⊂", Form::Infix(Level::Relation)),
    (Op::Subset, "⊆", Form::Infix(Level::Relation)),
    (Op::Less, "<", Form::Infix(Level::Relation)),
    (Op::LessOrEqual, "≤", Form::Infix(Level::Relation)),
    (Op::Finite, "finite", Form::Call(Call::Finite)),
    (Op::TrueValue, "TRUE", Form::Constant),
    (Op::FalseValue, "FALSE", Form::Constant),
    (Op::Booleans, "BOOL", Form::Constant),
    (Op::Integers, "ℤ", Form::Constant),
    (Op::Naturals, "ℕ", Form::Constant),
    (Op::PositiveNaturals, "ℕ1", Form::Constant),
    (Op::EmptySet, "∅", Form::Constant),
    (Op::Identity, "id", Form::Constant),
    (Op::FirstProjection, "prj1", Form::Constant),
    (Op::SecondProjection, "prj2", Form::Constant),
    (Op::Predecessor, "pred", Form::Constant),
    (Op::Successor, "succ", Form::Constant),
    (Op::Maplet, "↦", Form::Infix(Level::Maplet)),
    (Op::Relations, "↔", Form::Infix(Level::Arrow)),
    (Op::TotalRelations, "<<->", Form::Infix(Level::Arrow)),
    (Op::SurjectiveRelations, "<->>", Form::Infix(Level::Arrow)),
    (
        Op::TotalSurjectiveRelations,
        "<<->>",
        Form::Infix(Level::Arrow),
    ),
    (Op::PartialFunctions, "⇸", Form::Infix(Level::Arrow)),
    (Op::TotalFunctions, "→", Form::Infix(Level::Arrow)),
    (Op::PartialInjections, "⤔", Form::Infix(Level::Arrow)),
    (Op::TotalInjections, "↣", Form::Infix(Level::Arrow)),
    (Op::PartialSurjections, "⤀", Form::Infix(Level::Arrow)),
    (Op::TotalSurjections, "↠", Form::Infix(Level::Arrow)),
    (Op::Bijections, "⤖", Form::Infix(Level::Arrow)),
    (Op::Union, "∪", Form::Infix(Level::SetOperator)),
    (Op::Intersection, "∩", Form::Infix(Level::SetOperator)),
    (Op::Difference, "∖", Form::Infix(Level::SetOperator)),
    (Op::Product, "×", Form::Infix(Level::SetOperator)),
    (Op::DomainRestriction, "◁", Form::Infix(Level::SetOperator)),
    (Op::DomainSubtraction, "⩤", Form::Infix(Level::SetOperator)),
    (Op::RangeRestriction, "▷", Form::Infix(Level::SetOperator)),
    (Op::RangeSubtraction, "⩥", Form::Infix(Level::SetOperator)),
    (Op::Overriding, "<+", Form::Infix(Level::SetOperator)),
    (Op::Composition, ";", Form::Infix(Level::SetOperator)),
    (Op::ParallelProduct, "∥", Form::Infix(Level::SetOperator)),
    (Op::DirectProduct, "⊗", Form::Infix(Level::SetOperator)),
    (Op::Interval, "‥", Form::Infix(Level::Interval)),
    (Op::Plus, "+", Form::Infix(Level::Additive)),
    (Op::Minus, "−", Form::Minus),
    (Op::Times, "∗", Form::Infix(Level::Multiplicative)),
    (Op::Divide, "÷", Form::Infix(Level::Multiplicative)),
    (Op::Modulo, "mod", Form::Infix(Level::Multiplicative)),
    (Op::Power, "^", Form::Infix(Level::Power)),
    (Op::Negate, "−", Form::Negation),
    (Op::Converse, "∼", Form::Converse),
    (Op::Apply, "", Form::Open(Bracket::Round)),
    (Op::Image, "", Form::Open(Bracket::Square)),
    (Op::PowerSet, "ℙ", Form::Call(Call::Function)),
    (Op::NonEmptyPowerSet, "ℙ1", Form::Call(Call::Function)),
    (Op::Cardinality, "card", Form::Call(Call::Function)),
    (Op::Domain, "dom", Form::Call(Call::Function)),
    (Op::Range, "ran", Form::Call(Call::Function)),
    (Op::GeneralUnion, "union", Form::Call(Call::Function)),
    (Op::GeneralIntersection, "inter", Form::Call(Call::Function)),
    (Op::Minimum, "min", Form::Call(Call::Function)),
    (Op::Maximum, "max", Form::Call(Call::Function)),
    (Op::BoolOf, "bool", Form::Call(Call::Bool)),
    (Op::SetExtension, "", Form::Open(Bracket::Brace)),
];

#[tactic(auto, using(crate::proofs::Rows::sign_there))]
fn spelled_sign(table: &[(Op, &'static str, Form)], at: usize) -> &'static str
    ensures { result.now ≡ spelled_sign (spellings_of table.now) at }
{
    match table.get(at) {
        Some(row) => row.1,
        None => "",
    }
}

fn spelled_form(table: &[(Op, &'static str, Form)], at: usize) -> Form
    ensures { result ≡ spelled_form (spellings_of table.now) at }
{
    match table.get(at) {
        Some(row) => row.2,
        None => Form::Constant,
    }
}

/// The sign of an operator. One that a bracket opens has none.
pub fn sign_of(op: Op) -> &'static str
    ensures { result.now ≡ sign_of op }
{
    spelled_sign(&SPELLINGS, op.number() as usize)
}

/// How an operator stands to its operands.
pub fn op_form(op: Op) -> Form
    ensures { result ≡ op_form op }
{
    spelled_form(&SPELLINGS, op.number() as usize)
}

/// The class of the token by which an operator of this form is known.
fn form_class(form: Form, op: Op) -> Symbol
    ensures { result ≡ form_class form op }
{
    match form {
        Form::Truth => Symbol::Truth(op),
        Form::Constant => Symbol::Constant(op),
        Form::Call(call) => Symbol::Call(call, RawOp::Plain(op)),
        Form::Not => Symbol::Not,
        Form::Negation | Form::Minus => Symbol::Minus,
        Form::Infix(level) => Symbol::Infix(level, RawOp::Plain(op)),
        Form::Converse => Symbol::Converse,
        Form::Open(bracket) => Symbol::Open(bracket),
    }
}

/// The sign of an operator as it is written.
pub fn raw_sign_of(op: RawOp) -> &'static str
    ensures { result.now ≡ raw_sign_of op }
{
    match op {
        RawOp::Plain(op) => sign_of(op),
        RawOp::NotEqual => "≠",
        RawOp::NotMember => "∉",
        RawOp::NotProperSubset => "⊄",
        RawOp::NotSubset => "⊈",
        RawOp::Greater => ">",
        RawOp::GreaterOrEqual => "≥",
        RawOp::BackwardComposition => "∘",
        RawOp::Partition => "partition",
        RawOp::OfType => "⦂",
    }
}

/// The class of the token by which an operator is known: its sign, or the bracket that opens there.
pub fn raw_class_of(op: RawOp) -> Symbol
    ensures { result ≡ raw_class_of op }
{
    match op {
        RawOp::Plain(op) => form_class(op_form(op), op),
        RawOp::NotEqual
        | RawOp::NotMember
        | RawOp::NotProperSubset
        | RawOp::NotSubset
        | RawOp::Greater
        | RawOp::GreaterOrEqual => Symbol::Infix(Level::Relation, op),
        RawOp::BackwardComposition => Symbol::Infix(Level::SetOperator, op),
        RawOp::Partition => Symbol::Call(Call::Partition, op),
        RawOp::OfType => Symbol::Infix(Level::Typing, op),
    }
}

/// The sign of a binder.
pub fn binder_sign_of(binder: Binder) -> &'static str
    ensures { result.now ≡ binder_sign_of binder }
{
    match binder {
        Binder::ForAll => "∀",
        Binder::Exists => "∃",
        Binder::Comprehension => "{",
        Binder::QuantifiedUnion => "⋃",
        Binder::QuantifiedIntersection => "⋂",
    }
}

fn binder_class_of(binder: Binder) -> Symbol
    ensures { result ≡ binder_class_of binder }
{
    match binder {
        Binder::ForAll | Binder::Exists => Symbol::Binder(Binding::Quantified(binder)),
        Binder::Comprehension => Symbol::Open(Bracket::Brace),
        Binder::QuantifiedUnion | Binder::QuantifiedIntersection => {
            Symbol::Binder(Binding::Reaching(binder))
        }
    }
}

/// The sign of a binder as it is written.
pub fn raw_binder_sign_of(binder: RawBinder) -> &'static str
    ensures { result.now ≡ raw_binder_sign_of binder }
{
    match binder {
        RawBinder::Plain(binder) | RawBinder::Implicit(binder) => binder_sign_of(binder),
        RawBinder::Lambda => "λ",
    }
}

/// The class of the sign of a binder.
pub fn raw_binder_class_of(binder: RawBinder) -> Symbol
    ensures { result ≡ raw_binder_class_of binder }
{
    match binder {
        RawBinder::Plain(binder) | RawBinder::Implicit(binder) => binder_class_of(binder),
        RawBinder::Lambda => Symbol::Binder(Binding::Lambda),
    }
}
