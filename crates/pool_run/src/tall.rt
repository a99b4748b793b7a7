//! Formulas that are higher than the stack of a program or of a thread as it begins.

use formula_core::{Formula, List, Op, OutOfMemory, Ty};
use prover_pool::Task;
use sequent_core::{Attempt, Prover, Sequent};
use std::alloc::Global;

/// How high they are: some hundred megabytes of stack go down them.
const HEIGHT: u32 = 200_000;

// ⊤ under so many ¬.
fn tower(alloc: Global, height: u32) -> Result<Formula, OutOfMemory> {
    let mut tower = Formula::Node(Op::Top, List::of(Vec::new(alloc)), Ty::Truth);
    for _ in 0..height {
        let mut parts = Vec::with_capacity(alloc, 1)?;
        parts.push_reserved(tower);
        tower = Formula::Node(Op::Not, List::of(parts), Ty::Truth);
    }
    Ok(tower)
}

// Whether a tower is the same as its copy.
fn has_equal_copy(alloc: Global) -> bool {
    let Ok(tower) = tower(alloc, HEIGHT) else {
        return false;
    };
    match tower.copy(alloc) {
        Ok(copy) => tower.same(&copy),
        Err(_) => false,
    }
}

/// Makes a tower and compares it with a copy.
#[derive(Drop)]
pub struct Climbing {
    pub alloc: Global,
}

impl Task for Climbing {
    ghost use Rattle.std.specs.Prelude.{⊤};

    // Whether they are the same.
    type Output = bool;

    ghost can_run = { λ climbing. ⊤ };

    ghost gives = { λ climbing same. ⊤ };

    fn run(self) -> bool {
        has_equal_copy(self.alloc)
    }
}

/// Finds no proof, but makes a tower and compares it with a copy; where they differ, it has too little memory.
pub struct Climber;

impl Prover for Climber {
    ghost use Rattle.sequent_core.specs.declared.Attempt.TheVariants.{NoProof, NoMemory};
    ghost use Rattle.std.specs.Prelude.{◌≡◌, ◌⊎◌};

    ghost sure = { λ prover sequent. ⊥ };

    ghost answers = { λ prover sequent attempt. (attempt ≡ NoProof) ⊎ (attempt ≡ NoMemory) };

    fn attempt(&self, alloc: Global, _sequent: &Sequent) -> Attempt {
        if has_equal_copy(alloc) {
            Attempt::NoProof
        } else {
            Attempt::NoMemory
        }
    }
}
