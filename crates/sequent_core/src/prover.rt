// Provers, by what they may answer.
ghost use Rattle.std.specs.Prelude.{◌≡◌, ◌≤◌, ◌<◌, ◌^◌};
ghost use Rattle.sequent_core.specs.declared.sequent.Sequent.{Sequent};
ghost use Rattle.sequent_core.specs.declared.prover.Attempt.{Attempt};
ghost use Rattle.sequent_core.specs.Sequents.{IsSequent};
ghost use Rattle.sequent_core.specs.Provers.{IsGood};
ghost use Rattle.sequent_core.specs.Members.{members_of, tree_members};

use crate::sequent::Sequent;
use crate::tree::Tree;
use std::alloc::Global;

/// What a prover answers: a proof, that it found none, or that memory ran out.
#[derive(Drop)]
pub enum Attempt {
    Found(Tree),
    NoProof,
    NoMemory,
}

/// The fewest members of lists that no attempt may have together.
const TOO_MANY_MEMBERS: u64 = 1 << 32;

impl Attempt {
    /// The proof, or out of memory where its lists have together 2^32 members or more.
    pub fn found(tree: Tree) -> Attempt
        ensures found { tree_members tree < 2 ^ 32 → result ≡ Attempt.Found tree }
        ensures too_many { 2 ^ 32 ≤ tree_members tree → result ≡ Attempt.NoMemory }
        ensures few { members_of result < 2 ^ 32 }
    {
        if tree.member_count() < TOO_MANY_MEMBERS {
            Attempt::Found(tree)
        } else {
            Attempt::NoMemory
        }
    }
}

/// A prover of sequents.
pub trait Prover {
    // The sequents that it proves unless memory runs out.
    ghost sure: { Self → Sequent → Type 0 };

    // What it may answer for a sequent.
    ghost answers: { Self → Sequent → Attempt → Type 0 };

    /// Tries to prove the sequent.
    fn attempt(&self, alloc: Global, sequent: &Sequent) -> Attempt
        requires { IsSequent sequent.now }
        ensures allowed { answers self.now sequent.now result }
        ensures sure { sure self.now sequent.now → IsGood result sequent.now }
        ensures few { members_of result < 2 ^ 32 };
}
