//! The kinds of rule.
ghost use Rattle.std.specs.Prelude.{◌≡◌};
ghost use Rattle.rule_table.specs.Kinds.{kind_number};

use formula_core::{Formula, List};

/// The kinds of rule, in the order of their numbers, each with the word that names it in a step of a proof.
pub enum RuleKind {
    /// `hyp`: the goal is a hypothesis.
    Hyp,
    /// `top`: the goal `⊤`.
    Top,
    /// `bot`: a hypothesis `⊥`.
    Bot,
    /// `contr`: a hypothesis and its negation.
    Contr,
    /// `andR`: a goal `P ∧ Q`.
    AndR,
    /// `andL`: a hypothesis `P ∧ Q`.
    AndL,
    /// `orR`: a goal `P ∨ Q`.
    OrR,
    /// `orL`: a hypothesis `P ∨ Q`.
    OrL,
    /// `impR`: a goal `P ⇒ Q`.
    ImpR,
    /// `impL`: a hypothesis `P ⇒ Q`.
    ImpL,
    /// `mp`: a hypothesis `P ⇒ Q`, with `P`.
    Mp,
    /// `iffR`: a goal `P ⇔ Q`.
    IffR,
    /// `iffL`: a hypothesis `P ⇔ Q`.
    IffL,
    /// `notR`: a goal `¬P`.
    NotR,
    /// `notL`: a hypothesis `¬P`.
    NotL,
    /// `contra`: the negated goal is assumed.
    Contra,
    /// `allR`: a goal `∀x·P`, for new names.
    AllR,
    /// `allL`: a hypothesis `∀x·P`, of these terms, one for each bound identifier.
    AllL(List<Formula>),
    /// `exR`: a goal `∃x·P`, of these terms, one for each bound identifier.
    ExR(List<Formula>),
    /// `exL`: a hypothesis `∃x·P`, for new names.
    ExL,
    /// `cut`: a chosen predicate is proved, and added.
    Cut,
    /// `cases`: a chosen predicate holds, or its negation.
    Cases,
    /// `review`: a person takes the goal for proved.
    Review,
    /// `eqRefl`: a goal `E = E`.
    EqRefl,
    /// `eqGoal`: the goal, rewritten by an equation.
    EqGoal,
    /// `eqHyp`: a hypothesis, rewritten by an equation.
    EqHyp,
    /// `boolCases`: a chosen expression is `TRUE`, or `FALSE`.
    BoolCases,
    /// `boolDiff`: a hypothesis `TRUE = FALSE`.
    BoolDiff,
    /// `rwGoal`: the goal, rewritten by the law with this number at this place.
    RwGoal(u8, List<u32>),
    /// `rwHyp`: a hypothesis, rewritten by the law with this number at this place.
    RwHyp(u8, List<u32>),
    /// `linear`: a sum of the hypotheses, each with its multiplier, contradicts the negated goal.
    Linear(List<i128>),
    /// `cardNat`: a chosen finite set has at least 0 members.
    CardNat,
    /// `funIn`: a function at a chosen argument is in its range.
    FunIn,
    /// `funEq`: a pair in a function gives its value.
    FunEq,
    /// `overOther`: an overridden function is as before at other arguments.
    OverOther,
}

// One call drops it, where a derive would take each variant apart in every function that owns one.
impl Drop for RuleKind {
    fn drop(self) {
        match self {
            RuleKind::Hyp => {}
            RuleKind::Top => {}
            RuleKind::Bot => {}
            RuleKind::Contr => {}
            RuleKind::AndR => {}
            RuleKind::AndL => {}
            RuleKind::OrR => {}
            RuleKind::OrL => {}
            RuleKind::ImpR => {}
            RuleKind::ImpL => {}
            RuleKind::Mp => {}
            RuleKind::IffR => {}
            RuleKind::IffL => {}
            RuleKind::NotR => {}
            RuleKind::NotL => {}
            RuleKind::Contra => {}
            RuleKind::AllR => {}
            RuleKind::AllL(_) => {}
            RuleKind::ExR(_) => {}
            RuleKind::ExL => {}
            RuleKind::Cut => {}
            RuleKind::Cases => {}
            RuleKind::Review => {}
            RuleKind::EqRefl => {}
            RuleKind::EqGoal => {}
            RuleKind::EqHyp => {}
            RuleKind::BoolCases => {}
            RuleKind::BoolDiff => {}
            RuleKind::RwGoal(_, _) => {}
            RuleKind::RwHyp(_, _) => {}
            RuleKind::Linear(_) => {}
            RuleKind::CardNat => {}
            RuleKind::FunIn => {}
            RuleKind::FunEq => {}
            RuleKind::OverOther => {}
        }
    }
}

impl RuleKind {
    /// Its number, from 1 to 35.
    pub fn number(&self) -> u8
        ensures number { result ≡ kind_number self.now }
    {
        match self {
            RuleKind::Hyp => 1,
            RuleKind::Top => 2,
            RuleKind::Bot => 3,
            RuleKind::Contr => 4,
            RuleKind::AndR => 5,
            RuleKind::AndL => 6,
            RuleKind::OrR => 7,
            RuleKind::OrL => 8,
            RuleKind::ImpR => 9,
            RuleKind::ImpL => 10,
            RuleKind::Mp => 11,
            RuleKind::IffR => 12,
            RuleKind::IffL => 13,
            RuleKind::NotR => 14,
            RuleKind::NotL => 15,
            RuleKind::Contra => 16,
            RuleKind::AllR => 17,
            RuleKind::AllL(_) => 18,
            RuleKind::ExR(_) => 19,
            RuleKind::ExL => 20,
            RuleKind::Cut => 21,
            RuleKind::Cases => 22,
            RuleKind::Review => 23,
            RuleKind::EqRefl => 24,
            RuleKind::EqGoal => 25,
            RuleKind::EqHyp => 26,
            RuleKind::BoolCases => 27,
            RuleKind::BoolDiff => 28,
            RuleKind::RwGoal(_, _) => 29,
            RuleKind::RwHyp(_, _) => 30,
            RuleKind::Linear(_) => 31,
            RuleKind::CardNat => 32,
            RuleKind::FunIn => 33,
            RuleKind::FunEq => 34,
            RuleKind::OverOther => 35,
        }
    }
}
