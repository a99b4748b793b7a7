//! What a kind of rule has of its own, and whether it is a review.
ghost use Rattle.std.specs.Prelude.{◌≡◌};
ghost use Rattle.rule_table.specs.Rules.{terms_of};
ghost use Rattle.rule_table.specs.Parts.{law_in, place_in, multipliers_in, is_review};

use crate::kind::RuleKind;
use formula_core::Formula;

impl RuleKind {
    /// The terms of a kind that takes terms.
    pub fn terms(&self) -> &[Formula]
        ensures terms { result.now ≡ terms_of self.now }
    {
        match self {
            RuleKind::AllL(terms) => terms.items(),
            RuleKind::ExR(terms) => terms.items(),
            _ => &[],
        }
    }

    /// The number of the law of a kind that rewrites, or 0.
    pub fn law(&self) -> u8
        ensures law { result ≡ law_in self.now }
    {
        match self {
            RuleKind::RwGoal(law, _) => *law,
            RuleKind::RwHyp(law, _) => *law,
            _ => 0,
        }
    }

    /// The place at which a kind rewrites.
    pub fn place(&self) -> &[u32]
        ensures place { result.now ≡ place_in self.now }
    {
        match self {
            RuleKind::RwGoal(_, place) => place.items(),
            RuleKind::RwHyp(_, place) => place.items(),
            _ => &[],
        }
    }

    /// The multipliers of a sum of hypotheses.
    pub fn multipliers(&self) -> &[i128]
        ensures multipliers { result.now ≡ multipliers_in self.now }
    {
        match self {
            RuleKind::Linear(multipliers) => multipliers.items(),
            _ => &[],
        }
    }

    /// Whether it is a review, which proves nothing.
    pub fn is_review(&self) -> bool
        ensures review { result ≡ is_review self.now }
    {
        match self {
            RuleKind::Review => true,
            _ => false,
        }
    }
}
