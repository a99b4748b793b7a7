// Proofs as they are stored.
ghost use Rattle.std.specs.Prelude.{◌≡◌, ◌↔◌, IsTrue, IfOk};

use formula_core::OutOfMemory;
use sequent_core::Tree;
use std::alloc::Global;

/// Who made a stored proof.
#[derive(Debug, PartialEq, Eq, Clone, Copy)]
pub enum Origin {
    /// It was stored before origins were kept.
    Unknown,
    /// A user's step or prune.
    User,
    /// A prover's finish.
    Prover,
}

/// A stored proof.
#[derive(Drop)]
pub struct Proof {
    pub tree: Tree,
    pub origin: Origin,
}

impl Origin {
    pub fn same(self, other: Origin) -> bool
        ensures { IsTrue result ↔ (self ≡ other) }
    {
        self == other
    }
}

impl Proof {
    pub fn copy(&self, alloc: Global) -> Result<Proof, OutOfMemory>
        ensures { IfOk result (λ copy. copy ≡ self.now) }
    {
        let tree = self.tree.copy(alloc)?;
        Ok(Proof {
            tree,
            origin: self.origin,
        })
    }

    pub fn same(&self, other: &Proof) -> bool
        ensures { IsTrue result ↔ (self.now ≡ other.now) }
    {
        self.origin.same(other.origin) && self.tree.same(&other.tree)
    }
}
