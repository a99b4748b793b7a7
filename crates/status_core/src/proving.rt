// A user's work on the proof of an obligation.
ghost use Rattle.std.specs.Prelude.{◌≡◌, ◌≤◌, ◌+◌, ◌↔◌, IsTrue, IfOk, Ok};
ghost use Rattle.std.specs.Option.{option_copied};
ghost use Rattle.sequent_core.specs.declared.Sequent.{Sequent};
ghost use Rattle.sequent_core.specs.declared.Tree.{Tree};
ghost use Rattle.sequent_core.specs.Sequents.{IsSequent};
ghost use Rattle.sequent_core.specs.Trees.{Applies};
ghost use Rattle.rule_making.specs.Make.{Answers, FitsAt};
ghost use Rattle.proof_steps.specs.Places.{HasLeaf};
ghost use Rattle.core_steps.specs.declared.events.Event.{Event};
ghost use Rattle.core_steps.specs.declared.events.Question.{Question};
ghost use Rattle.core_steps.specs.Stored.{AreFactsOf};
ghost use Rattle.core_steps.specs.Proving.{Keeps, Puts, StepsAt, StepsIn, PrunesAt, ShowsAt, stored_tree, tree_in};
ghost use Rattle.status_core.specs.PrivateParts.{IsHeldProof, IsMade, IsShownAt, ComesAs, Prepares};

use crate::core_state::Core;
use core_steps::{Facts, Reply, Room, StoredProof, facts_of, status_by};
use formula_core::{OutOfMemory, PoName, Steps};
use prepared_events::{Prepared, Storing};
use proof_entries::{Origin, Proof};
use proof_steps::{StepFault, leaf_there, prune, step};
use rule_making::{RuleFault, make};
use sequent_core::{Hint, Path, Rule, Sequent, Tree};
use std::sync::ledger::Ledger;
use table_lookup::status_of;

/// What is held for a tree that is to be stored: its name, once to be told, what is known of it, and memory.
#[derive(Drop)]
pub struct Held {
    pub told: PoName,
    pub name: PoName,
    pub facts: Facts,
    pub room: Room<(PoName, StoredProof)>,
}

/// The stored tree, or this leaf.
pub fn tree_of<'a>(stored: Option<&'a StoredProof>, leaf: &'a Tree) -> &'a Tree
    requires { leaf.now ≡ Tree.Leaf }
    ensures { result.now ≡ tree_in (option_copied stored.entry) }
{
    match stored {
        None => leaf,
        Some(stored) => &stored.proof().tree,
    }
}

/// Whether the stored tree applies to the sequent.
pub fn does_apply(stored: Option<&StoredProof>, sequent: &Sequent) -> bool
    requires { IsSequent sequent.now }
    ensures { IsTrue result ↔ Applies (tree_in (option_copied stored.entry)) sequent.now }
{
    match stored {
        None => true,
        Some(stored) => stored.applies(sequent),
    }
}

impl Core {
    /// What comes of a step. The new tree is looked through at most once.
    pub(crate) fn prepare_step<L: Ledger>(
        &self,
        name: &PoName,
        path: &Path,
        kind: u8,
        hint: &Hint,
        steps: &mut Steps<L>,
    ) -> Result<Prepared, OutOfMemory>
        ensures prepared { IfOk result (λ p. Prepares self.now (Event.Step name.now path.now kind hint.now) p) }
        ensures steps { steps.new ≤ steps.old + 1 }
    {
        match self.find(name) {
            None => self.tell_none(name),
            Some(obligation) => { self.step_on(name, &obligation.sequent, path, kind, hint, steps) }
        }
    }

    // A step in the proof of the sequent.
    fn step_on<L: Ledger>(
        &self,
        name: &PoName,
        sequent: &Sequent,
        path: &Path,
        kind: u8,
        hint: &Hint,
        steps: &mut Steps<L>,
    ) -> Result<Prepared, OutOfMemory>
        requires { IsSequent sequent.now }
        ensures comes { IfOk result (λ p.
            ComesAs self.now (StepsAt self.now name.now path.now kind hint.now sequent.now) p) }
        ensures steps { steps.new ≤ steps.old + 1 }
    {
        let stored = self.durable.proofs.get(name);
        if does_apply(stored, sequent) {
            let bare = Tree::Leaf;
            return self.step_in(
                name,
                sequent,
                tree_of(stored, &bare),
                path,
                kind,
                hint,
                steps,
            );
        }
        Ok(self.tell(Reply::Broken))
    }

    // A step in a tree that applies.
    fn step_in<L: Ledger>(
        &self,
        name: &PoName,
        sequent: &Sequent,
        tree: &Tree,
        path: &Path,
        kind: u8,
        hint: &Hint,
        steps: &mut Steps<L>,
    ) -> Result<Prepared, OutOfMemory>
        requires sequent { IsSequent sequent.now }
        requires applies { Applies tree.now sequent.now }
        ensures comes { IfOk result (λ p.
            ComesAs self.now (StepsIn self.now name.now path.now kind hint.now sequent.now tree.now) p) }
        ensures steps { steps.new ≤ steps.old + 1 }
    {
        match leaf_there(tree, self.alloc, sequent, path)? {
            None => Ok(self.tell(Reply::NoLeaf)),
            Some(leaf) => {
                let rule = self.rule_at(kind, hint, &leaf)?;
                self.put_made(name, sequent, tree, path, rule, steps)
            }
        }
    }

    // The rule that the hint names, or why there is none.
    fn rule_at(
        &self,
        kind: u8,
        hint: &Hint,
        leaf: &Sequent,
    ) -> Result<Result<Rule, RuleFault>, OutOfMemory>
        ensures { IfOk result (λ made. Answers kind hint.now leaf.now made × IsMade leaf.now made) }
    {
        match make(self.alloc, kind, hint, leaf) {
            Ok(rule) => Ok(Ok(rule)),
            Err(RuleFault::OutOfMemory) => Err(OutOfMemory),
            Err(fault) => Ok(Err(fault)),
        }
    }

    // The rule is put at the leaf of the path, if one was made.
    fn put_made<L: Ledger>(
        &self,
        name: &PoName,
        sequent: &Sequent,
        tree: &Tree,
        path: &Path,
        made: Result<Rule, RuleFault>,
        steps: &mut Steps<L>,
    ) -> Result<Prepared, OutOfMemory>
        requires sequent { IsSequent sequent.now }
        requires applies { Applies tree.now sequent.now }
        requires fits { HasLeaf path.now tree.now sequent.now (λ leaf. IsMade leaf made) }
        ensures comes { IfOk result (λ p.
            ComesAs self.now (Puts self.now name.now sequent.now tree.now path.now made) p) }
        ensures steps { steps.new ≤ steps.old + 1 }
    {
        match made {
            Ok(rule) => self.put(name, sequent, tree, path, rule, steps),
            Err(fault) => Ok(self.tell(Reply::Rule(fault))),
        }
    }

    // The rule is put at the leaf of the path.
    fn put<L: Ledger>(
        &self,
        name: &PoName,
        sequent: &Sequent,
        tree: &Tree,
        path: &Path,
        rule: Rule,
        steps: &mut Steps<L>,
    ) -> Result<Prepared, OutOfMemory>
        requires sequent { IsSequent sequent.now }
        requires applies { Applies tree.now sequent.now }
        requires fits { HasLeaf path.now tree.now sequent.now (FitsAt rule) }
        ensures comes { IfOk result (λ p.
            ComesAs self.now (Puts self.now name.now sequent.now tree.now path.now (Ok rule)) p) }
        ensures steps { steps.new ≤ steps.old + 1 }
    {
        let Ok(mut tree) = tree.copy(self.alloc) else {
            drop(rule);
            return Err(OutOfMemory);
        };
        match step(&mut tree, self.alloc, sequent, path, rule) {
            Ok(()) => self.keep_tree(name, sequent, tree, steps),
            Err(StepFault::TreeFull) => {
                drop(tree);
                Ok(self.tell(Reply::TreeFull))
            }
            Err(StepFault::OutOfMemory) => {
                drop(tree);
                Err(OutOfMemory)
            }
            Err(StepFault::NoLeaf) => unreachable!(),
            Err(StepFault::NoFit) => unreachable!(),
        }
    }

    // The tree is stored as the user's, and its status is told.
    fn keep_tree<L: Ledger>(
        &self,
        name: &PoName,
        sequent: &Sequent,
        tree: Tree,
        steps: &mut Steps<L>,
    ) -> Result<Prepared, OutOfMemory>
        requires { IsSequent sequent.now }
        ensures comes { IfOk result (λ p. ComesAs self.now (Keeps self.now name.now sequent.now tree) p) }
        ensures steps { steps.new ≤ steps.old + 1 }
    {
        let Ok(held) = self.hold(name, &tree, steps) else {
            drop(tree);
            return Err(OutOfMemory);
        };
        Ok(self.keep_held(held, sequent, tree))
    }

    // What is wanted for the tree to be stored under the name.
    fn hold<L: Ledger>(
        &self,
        name: &PoName,
        tree: &Tree,
        steps: &mut Steps<L>,
    ) -> Result<Held, OutOfMemory>
        ensures held { IfOk result (λ held. IsHeldProof self.now.durable.proofs name.now tree.now held) }
        ensures steps { steps.new ≤ steps.old + 1 }
    {
        let facts = facts_of(self.alloc, tree, steps)?;
        self.hold_with(name, facts)
    }

    /// What is wanted for a tree with these facts to be stored under the name.
    pub(crate) fn hold_with(&self, name: &PoName, facts: Facts) -> Result<Held, OutOfMemory>
        ensures { (tree : Tree) → AreFactsOf tree facts
            → IfOk result (λ held. IsHeldProof self.now.durable.proofs name.now tree held) }
    {
        let room = self.durable.proofs.room_for(self.alloc, name)?;
        let told = name.copy(self.alloc)?;
        let name = name.copy(self.alloc)?;
        Ok(Held {
            told,
            name,
            facts,
            room,
        })
    }

    // The tree is stored as the user's with what is held for it, and its status is told.
    fn keep_held(&self, held: Held, sequent: &Sequent, tree: Tree) -> Prepared
        requires sequent { IsSequent sequent.now }
        requires held { IsHeldProof self.now.durable.proofs held.name tree held }
        ensures { ComesAs self.now (Keeps self.now held.name sequent.now tree) result }
    {
        let Held {
            told,
            name,
            facts,
            room,
        } = held;
        let status = status_by(&facts, sequent);
        let origin = Origin::User;
        let reply = Reply::Now(told, status);
        let proof = Proof { tree, origin };
        let storing = Storing {
            name,
            proof,
            facts,
            room,
        };
        self.keep(reply, storing)
    }

    /// What comes of a prune. The new tree is looked through at most once.
    pub(crate) fn prepare_prune<L: Ledger>(
        &self,
        name: &PoName,
        path: &Path,
        steps: &mut Steps<L>,
    ) -> Result<Prepared, OutOfMemory>
        ensures prepared { IfOk result (λ p. Prepares self.now (Event.Prune name.now path.now) p) }
        ensures steps { steps.new ≤ steps.old + 1 }
    {
        match self.find(name) {
            None => self.tell_none(name),
            Some(obligation) => self.prune_on(name, &obligation.sequent, path, steps),
        }
    }

    // A prune in the proof of the sequent.
    fn prune_on<L: Ledger>(
        &self,
        name: &PoName,
        sequent: &Sequent,
        path: &Path,
        steps: &mut Steps<L>,
    ) -> Result<Prepared, OutOfMemory>
        requires { IsSequent sequent.now }
        ensures comes { IfOk result (λ p. ComesAs self.now (PrunesAt self.now name.now path.now sequent.now) p) }
        ensures steps { steps.new ≤ steps.old + 1 }
    {
        let mut tree = self.copy_tree(name)?;
        match prune(&mut tree, path) {
            Ok(()) => self.keep_tree(name, sequent, tree, steps),
            Err(_) => {
                drop(tree);
                Ok(self.tell(Reply::NoNode))
            }
        }
    }

    // The tree that is stored under the name, or a bare leaf, as a copy.
    fn copy_tree(&self, name: &PoName) -> Result<Tree, OutOfMemory>
        ensures { IfOk result (λ tree. tree ≡ stored_tree self.now.durable.proofs name.now) }
    {
        match self.durable.proofs.get(name) {
            None => Ok(Tree::Leaf),
            Some(stored) => stored.proof().tree.copy(self.alloc),
        }
    }

    /// What comes of the question for an obligation.
    pub(crate) fn prepare_show(
        &self,
        name: &PoName,
        path: Option<&Path>,
    ) -> Result<Prepared, OutOfMemory>
        ensures { IfOk result (λ p.
            Prepares self.now (Event.Ask (Question.Show name.now (option_copied path.entry))) p) }
    {
        match self.find(name) {
            None => self.tell_none(name),
            Some(obligation) => self.show(name, &obligation.sequent, path),
        }
    }

    // The status is told, with the sequent or that at the leaf of the path.
    fn show(
        &self,
        name: &PoName,
        sequent: &Sequent,
        path: Option<&Path>,
    ) -> Result<Prepared, OutOfMemory>
        requires { IsSequent sequent.now }
        ensures { IfOk result (λ p.
            ComesAs self.now (ShowsAt self.now name.now (option_copied path.entry) sequent.now) p) }
    {
        let status = status_of(&self.durable.proofs, name, sequent);
        match self.shown_sequent(name, sequent, path)? {
            None => Ok(self.tell(Reply::NoLeaf)),
            Some(shown) => {
                let name = name.copy(self.alloc)?;
                Ok(self.tell(Reply::Shown(name, status, shown)))
            }
        }
    }

    // The sequent, or that at the leaf of the path, where the tree applies.
    fn shown_sequent(
        &self,
        name: &PoName,
        sequent: &Sequent,
        path: Option<&Path>,
    ) -> Result<Option<Sequent>, OutOfMemory>
        requires { IsSequent sequent.now }
        ensures { IfOk result (λ shown.
            IsShownAt (stored_tree self.now.durable.proofs name.now) sequent.now (option_copied path.entry) shown) }
    {
        match path {
            None => Ok(Some(sequent.copy(self.alloc)?)),
            Some(path) => {
                let stored = self.durable.proofs.get(name);
                if does_apply(stored, sequent) {
                    let bare = Tree::Leaf;
                    return leaf_there(tree_of(stored, &bare), self.alloc, sequent, path);
                }
                Ok(None)
            }
        }
    }
}
