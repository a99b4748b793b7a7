// Whether obligations follow by plain rules.
ghost use Rattle.std.specs.Prelude.{◌≤◌, ◌+◌, IfOk};
ghost use Rattle.core_steps.specs.declared.events.Event.{Event};
ghost use Rattle.core_steps.specs.declared.events.Question.{Question};
ghost use Rattle.core_steps.specs.Proving.{ShowsFollows};
ghost use Rattle.status_core.specs.PrivateParts.{ComesAs, Prepares};

use crate::core_state::Core;
use core_steps::Reply;
use formula_core::{OutOfMemory, PoName, Steps};
use prepared_events::Prepared;
use sequent_core::Sequent;
use std::sync::ledger::Ledger;
use table_lookup::follows_by;

impl Core {
    /// What comes of the question whether an obligation follows by its tree, which is looked through at most once.
    pub(crate) fn prepare_follows<L: Ledger>(
        &self,
        name: &PoName,
        steps: &mut Steps<L>,
    ) -> Result<Prepared, OutOfMemory>
        ensures prepared { IfOk result (λ p. Prepares self.now (Event.Ask (Question.Follows name.now)) p) }
        ensures steps { steps.new ≤ steps.old + 1 }
    {
        match self.find(name) {
            None => self.tell_none(name),
            Some(obligation) => self.show_follows(name, &obligation.sequent, steps),
        }
    }

    // It is told whether the sequent follows by the stored tree.
    fn show_follows<L: Ledger>(
        &self,
        name: &PoName,
        sequent: &Sequent,
        steps: &mut Steps<L>,
    ) -> Result<Prepared, OutOfMemory>
        ensures comes { IfOk result (λ p. ComesAs self.now (ShowsFollows self.now name.now sequent.now) p) }
        ensures steps { steps.new ≤ steps.old + 1 }
    {
        let stored = self.durable.proofs.get(name);
        let answer = follows_by(self.alloc, stored, sequent, steps)?;
        let name = name.copy(self.alloc)?;
        Ok(self.tell(Reply::Followed(name, answer)))
    }
}
