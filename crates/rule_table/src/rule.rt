//! What a rule is made of.
use crate::kind::RuleKind;
use formula_core::{Formula, List, Name, Ty};

/// What a rule leaves to prove: identifiers and hypotheses that are added, and a new goal, if any.
pub struct Antecedent {
    pub idents: List<(Name, Ty)>,
    pub hyps: List<Formula>,
    pub goal: Option<Formula>,
}

// One call drops it, where a derive would drop each field in every function that owns one.
impl Drop for Antecedent {
    fn drop(self) {
        let Antecedent {
            idents: _,
            hyps: _,
            goal: _,
        } = self;
    }
}

/// One step of a proof.
pub struct Rule {
    pub kind: RuleKind,
    pub needed_goal: Option<Formula>,
    pub needed_hyps: List<Formula>,
    pub used: List<(Name, Ty)>,
    pub antecedents: List<Antecedent>,
}

// One call drops it, where a derive would drop each field in every function that owns one.
impl Drop for Rule {
    fn drop(self) {
        let Rule {
            kind: _,
            needed_goal: _,
            needed_hyps: _,
            used: _,
            antecedents: _,
        } = self;
    }
}

/// What a rule needs and leaves.
#[derive(Drop)]
pub struct Body {
    pub goal: Option<Formula>,
    pub hyps: List<Formula>,
    pub antecedents: List<Antecedent>,
}

/// What a rule is made of: the goal, the hypotheses, new names, and a chosen formula, of each what its kind takes.
#[derive(Drop)]
pub struct Main {
    pub goal: Option<Formula>,
    pub hyps: List<Formula>,
    pub names: List<Name>,
    pub chosen: Option<Formula>,
}
