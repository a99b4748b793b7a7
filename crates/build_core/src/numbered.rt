//! Obligations with the numbers of their hypotheses.

ghost use Rattle.std.specs.Prelude.{◌≡◌, IfOk};
ghost use Rattle.build_core.specs.Prints.{prints_in};

use formula_core::{List, OutOfMemory};
use proof_deps::prints_of;
use sequent_core::Obligation;
use std::alloc::Global;
use std::marker::Model;

/// An obligation with the numbers of its hypotheses, by which they are looked for. Contracts see the obligation alone.
#[derive(Drop)]
pub struct Numbered {
    obligation: Obligation,
    prints: List<u64>,
}

impl Model for Numbered {
    ghost use Rattle.sequent_core.specs.declared.sequent.Obligation.{Obligation};
    ghost use Rattle.sequent_core.specs.contracts.sequent.Obligation as kept;

    ghost Value = { Obligation };

    ghost coded = { kept.the_row.coded };

    ghost use Rattle.std.specs.Prelude.{◌≡◌};
    ghost use Rattle.build_core.specs.Prints.{prints_in};

    ghost view = { λ n. n.obligation };

    ghost invariant = { λ n. n.prints ≡ prints_in n.obligation };
}

impl Numbered {
    /// Numbers the hypotheses of an obligation.
    pub fn of(alloc: Global, obligation: Obligation) -> Result<Numbered, OutOfMemory>
        ensures numbered { IfOk result (λ numbered. numbered ≡ obligation) }
    {
        let prints = prints_of(alloc, obligation.sequent.hyps.items())?;
        Ok(Numbered { obligation, prints })
    }

    /// The obligation.
    pub fn obligation(&self) -> &Obligation
        ensures obligation { result.now ≡ self.now }
    {
        &self.obligation
    }

    /// The numbers of its hypotheses.
    pub fn prints(&self) -> &List<u64>
        ensures prints { result.now ≡ prints_in self.now }
    {
        &self.prints
    }
}
