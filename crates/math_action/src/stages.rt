//! What is read of an action.

ghost use Rattle.std.specs.Prelude.{◌≡◌};
ghost use Rattle.math_action.specs.PrivateMachine.{hole_after, ends_at};

use formula_core::{List, Raw, Ref};
use formula_parse::Phase;
use math_grammar::{Bracket, Hole, Symbol};

/// What stands before a formula.
#[derive(Drop)]
pub enum Head {
    /// Targets and ≔, and the expressions before this one.
    Assign(List<Ref>, List<Raw>),
    /// A name and the parenthesis behind it.
    Argument(Ref),
    /// A name with its argument, and ≔.
    Apply(Ref, Raw),
    ChooseIn(Ref),
    ChooseSuch(List<Ref>),
}

/// How far an action is read.
#[derive(Drop)]
pub enum Stage {
    /// A target is wanted behind those before.
    Target(List<Ref>),
    /// A target is held.
    Named(List<Ref>, Ref),
    /// A formula is read.
    Formula(Head, Phase),
    /// ≔ is wanted behind a name with its argument.
    Applied(Ref, Raw),
}

impl Head {
    /// What the formula behind it is.
    pub fn goal(&self) -> Hole
        ensures { result ≡ hole_after self.now }
    {
        match self {
            Head::ChooseSuch(_) => Hole::Predicate,
            _ => Hole::Expression,
        }
    }

    /// Whether the sign may end the formula behind it.
    pub fn ends_at(&self, symbol: Symbol) -> bool
        ensures { result ≡ ends_at self.now symbol }
    {
        match (self, symbol) {
            (Head::Assign(_, _), Symbol::Comma) => true,
            (Head::Argument(_), Symbol::Close(Bracket::Round)) => true,
            _ => false,
        }
    }
}
