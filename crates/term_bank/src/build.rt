//! Formulas put together in a bank.
use crate::bank::Bank;
use crate::stop::Stop;
use crate::term::{Head, Id};
use formula_core::Op;

impl Bank {
    pub fn int(&mut self, n: i128) -> Result<Id, Stop> {
        self.add(Head::Int(n), &[], &[], Bank::INT)
    }

    /// A number, which is negated where it is below 0.
    pub fn numeral(&mut self, n: i128) -> Result<Id, Stop> {
        if n >= 0 {
            return self.int(n);
        }
        match n.checked_neg() {
            Some(positive) => {
                let literal = self.int(positive)?;
                self.add(Head::Node(Op::Negate), &[literal], &[], Bank::INT)
            }
            None => Err(Stop::Spent),
        }
    }

    /// An operator without parts that makes a predicate.
    pub fn constant(&mut self, op: Op) -> Result<Id, Stop> {
        self.add(Head::Node(op), &[], &[], Bank::TRUTH)
    }

    pub fn truth_value(&mut self, op: Op) -> Result<Id, Stop> {
        self.add(Head::Node(op), &[], &[], Bank::BOOL)
    }

    pub fn not(&mut self, f: Id) -> Result<Id, Stop> {
        self.add(Head::Node(Op::Not), &[f], &[], Bank::TRUTH)
    }

    /// The negation of a formula, or `NONE` where the bank lacks it.
    pub fn existing_not(&self, f: Id) -> Id {
        self.existing(Head::Node(Op::Not), &[f], Bank::TRUTH)
    }

    /// The equation of two formulas, or `NONE` where the bank lacks it.
    pub fn existing_equal(&self, left: Id, right: Id) -> Id {
        self.existing(Head::Node(Op::Equal), &[left, right], Bank::TRUTH)
    }

    /// A predicate of two parts.
    pub fn both(&mut self, op: Op, left: Id, right: Id) -> Result<Id, Stop> {
        self.add(Head::Node(op), &[left, right], &[], Bank::TRUTH)
    }

    pub fn equal(&mut self, left: Id, right: Id) -> Result<Id, Stop> {
        self.both(Op::Equal, left, right)
    }

    pub fn member(&mut self, element: Id, set: Id) -> Result<Id, Stop> {
        self.both(Op::Member, element, set)
    }

    pub fn maplet(&mut self, left: Id, right: Id) -> Result<Id, Stop> {
        let ty = self.pair_type(self.term(left).ty, self.term(right).ty)?;
        self.add(Head::Node(Op::Maplet), &[left, right], &[], ty)
    }

    /// An equation turned round.
    pub fn turned(&mut self, equation: Id) -> Result<Id, Stop> {
        let (left, right) = self.two(equation);
        self.equal(right, left)
    }

    /// An operator on two parts that has the type of the first.
    pub fn like_first(&mut self, op: Op, left: Id, right: Id) -> Result<Id, Stop> {
        let ty = self.term(left).ty;
        self.add(Head::Node(op), &[left, right], &[], ty)
    }
}
