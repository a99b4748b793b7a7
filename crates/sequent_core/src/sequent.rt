// Sequents, and what stands over them.
ghost use Rattle.std.specs.Prelude.{◌≡◌, ◌↔◌, IsTrue, IfOk, Contains};

use formula_core::{Env, Formula, List, OutOfMemory, PoName, copy_formulas, same_formulas};
use std::alloc::Global;

/// Hypotheses and a goal, predicates whose identifiers stand in the environment.
#[derive(Drop)]
pub struct Sequent {
    pub env: Env,
    pub hyps: List<Formula>,
    pub goal: Formula,
}

/// A sequent to be proved, under its name.
#[derive(Drop)]
pub struct Obligation {
    pub name: PoName,
    pub sequent: Sequent,
}

/// A piece of proof work that was taken: the sequent as it was then.
#[derive(Drop)]
pub struct Ticket {
    pub number: u64,
    pub name: PoName,
    pub sequent: Sequent,
}

impl Sequent {
    pub fn copy(&self, alloc: Global) -> Result<Sequent, OutOfMemory>
        ensures { IfOk result (λ copy. copy ≡ self.now) }
    {
        let env = self.env.copy(alloc)?;
        let hyps = copy_formulas(alloc, self.hyps.items())?;
        let goal = self.goal.copy(alloc)?;
        Ok(Sequent { env, hyps, goal })
    }

    pub fn same(&self, other: &Sequent) -> bool
        ensures { IsTrue result ↔ (self.now ≡ other.now) }
    {
        self.goal.same(&other.goal)
            && same_formulas(self.hyps.items(), other.hyps.items())
            && self.env.same(&other.env)
    }

    /// Whether the formula is one of the hypotheses.
    pub fn has_hypothesis(&self, formula: &Formula) -> bool
        ensures { IsTrue result ↔ Contains self.now.hyps formula.now }
    {
        is_among(self.hyps.items(), formula)
    }
}

fn is_among(formulas: &[Formula], formula: &Formula) -> bool
    ensures { IsTrue result ↔ Contains formulas.now formula.now }
{
    for other in formulas {
        if other.same(formula) {
            return true;
        }
    }
    false
}

impl Obligation {
    pub fn copy(&self, alloc: Global) -> Result<Obligation, OutOfMemory>
        ensures { IfOk result (λ copy. copy ≡ self.now) }
    {
        let name = self.name.copy(alloc)?;
        let sequent = self.sequent.copy(alloc)?;
        Ok(Obligation { name, sequent })
    }
}
