// Stored proofs, with what they ask of a sequent.
ghost use Rattle.std.specs.Prelude.{◌≡◌, ◌↔◌, ◌+◌, map, IsTrue, IfOk, Some};
ghost use Rattle.sequent_core.specs.declared.Sequent.{Sequent};
ghost use Rattle.sequent_core.specs.declared.Tree.{Tree};
ghost use Rattle.sequent_core.specs.Sequents.{IsSequent};
ghost use Rattle.sequent_core.specs.Trees.{Applies, IsTallyOf};
ghost use Rattle.proof_deps.specs.Prints.{print_of};
ghost use Rattle.core_steps.specs.Status.{IsTreeStatus, IsStatus, IsUnsettled, origin_of};
ghost use Rattle.core_steps.specs.Stored.{AreFactsOf, IsSettledAs};

use crate::events::Status;
use formula_core::{List, OutOfMemory, Steps};
use proof_deps::{Deps, fits, fits_by, of};
use proof_entries::{Origin, Proof};
use sequent_core::{Sequent, Tally, Tree};
use std::alloc::Global;
use std::marker::Model;
use std::sync::ledger::Ledger;

/// What is known of a tree: what it asks of a sequent, if it applies to any, and its status where it applies.
#[derive(Drop)]
pub struct Facts {
    pub deps: Option<Deps>,
    pub settled: Status,
}

/// A stored proof, with what is known of its tree. Contracts see the proof alone.
#[derive(Drop)]
pub struct StoredProof {
    proof: Proof,
    facts: Facts,
}

impl Model for StoredProof {
    ghost use Rattle.proof_entries.specs.declared.Proof.{Proof};
    ghost use Rattle.proof_entries.specs.contracts.proof.Proof as kept;

    ghost Value = { Proof };

    ghost coded = { kept.the_row.coded };

    ghost use Rattle.core_steps.specs.Stored.{AreFactsOf};

    ghost view = { λ s. s.proof };

    ghost invariant = { λ s. AreFactsOf s.proof.tree s.facts };
}

// The status of the tree, of which this is told, wherever it applies.
fn settled(tree: &Tree, tally: Tally) -> Status
    requires tally { IsTallyOf tree.now tally }
    ensures { IsSettledAs tree.now result }
{
    if tree.is_leaf() {
        return Status::Unattempted;
    }
    if !tally.closed {
        return Status::Pending;
    }
    if tally.reviewed {
        return Status::Reviewed;
    }
    Status::Discharged
}

/// What is known of the tree. The whole tree is looked through, which is one step of the counter.
pub fn facts_of<L: Ledger>(
    alloc: Global,
    tree: &Tree,
    steps: &mut Steps<L>,
) -> Result<Facts, OutOfMemory>
    ensures facts { IfOk result (λ facts. AreFactsOf tree.now facts) }
    ensures step { steps.new ≡ steps.old + 1 }
{
    facts_by(alloc, tree, tree.tally(), steps)
}

/// The same, by what a walk through the tree told.
pub fn facts_by<L: Ledger>(
    alloc: Global,
    tree: &Tree,
    tally: Tally,
    steps: &mut Steps<L>,
) -> Result<Facts, OutOfMemory>
    requires tally { IsTallyOf tree.now tally }
    ensures facts { IfOk result (λ facts. AreFactsOf tree.now facts) }
    ensures step { steps.new ≡ steps.old + 1 }
{
    steps.tick();
    let deps = of(alloc, tree)?;
    Ok(Facts {
        deps,
        settled: settled(tree, tally),
    })
}

/// Whether the tree applies to the sequent.
pub fn applies(facts: &Facts, sequent: &Sequent) -> bool
    requires { IsSequent sequent.now }
    ensures { (tree : Tree) → AreFactsOf tree facts.now → IsTrue result ↔ Applies tree sequent.now }
{
    match &facts.deps {
        Some(deps) => fits(deps, sequent),
        None => false,
    }
}

// The same, with the numbers of the hypotheses, by which they are looked for.
fn applies_with(facts: &Facts, sequent: &Sequent, prints: &List<u64>) -> bool
    requires sequent { IsSequent sequent.now }
    requires prints { prints.now ≡ map print_of sequent.now.hyps }
    ensures { (tree : Tree) → AreFactsOf tree facts.now → IsTrue result ↔ Applies tree sequent.now }
{
    match &facts.deps {
        Some(deps) => fits_by(deps, sequent, prints),
        None => false,
    }
}

// The status of a tree that applies to a sequent, or doesn't.
fn status_where(facts: &Facts, applies: bool) -> Status
    ensures { (tree : Tree) (s : Sequent) → AreFactsOf tree facts.now → (IsTrue applies ↔ Applies tree s)
        → IsTreeStatus tree s result }
{
    if facts.settled == Status::Unattempted {
        return Status::Unattempted;
    }
    if applies {
        return facts.settled;
    }
    Status::Broken
}

/// The status of the tree for the sequent.
pub fn status_by(facts: &Facts, sequent: &Sequent) -> Status
    requires { IsSequent sequent.now }
    ensures { (tree : Tree) → AreFactsOf tree facts.now → IsTreeStatus tree sequent.now result }
{
    status_where(facts, applies(facts, sequent))
}

impl StoredProof {
    /// The proof with what is known of it. Its tree is looked through, which is one step of the counter.
    pub fn of<L: Ledger>(
        alloc: Global,
        proof: Proof,
        steps: &mut Steps<L>,
    ) -> Result<StoredProof, OutOfMemory>
        ensures proof { IfOk result (λ stored. stored ≡ proof) }
        ensures step { steps.new ≡ steps.old + 1 }
    {
        let facts = facts_of(alloc, &proof.tree, steps)?;
        Ok(StoredProof { proof, facts })
    }

    /// The proof with these facts of its tree. It takes no memory.
    pub fn with(proof: Proof, facts: Facts) -> StoredProof
        requires { AreFactsOf proof.tree facts }
        ensures { result ≡ proof }
    {
        StoredProof { proof, facts }
    }

    /// The proof.
    pub fn proof(&self) -> &Proof
        ensures { result.now ≡ self.now }
    {
        &self.proof
    }

    /// Whether the tree applies to the sequent.
    pub fn applies(&self, sequent: &Sequent) -> bool
        requires { IsSequent sequent.now }
        ensures { IsTrue result ↔ Applies self.now.tree sequent.now }
    {
        applies(&self.facts, sequent)
    }

    /// The status of the proof for the sequent.
    pub fn status(&self, sequent: &Sequent) -> Status
        requires { IsSequent sequent.now }
        ensures { IsTreeStatus self.now.tree sequent.now result }
    {
        status_by(&self.facts, sequent)
    }

    /// The same, with the numbers of the sequent's hypotheses (`prints_of`), by which they are looked for.
    pub fn status_with(&self, sequent: &Sequent, prints: &List<u64>) -> Status
        requires sequent { IsSequent sequent.now }
        requires prints { prints.now ≡ map print_of sequent.now.hyps }
        ensures { IsTreeStatus self.now.tree sequent.now result }
    {
        status_where(&self.facts, applies_with(&self.facts, sequent, prints))
    }

    /// Who made the proof, unless its tree is a bare leaf.
    pub fn origin(&self) -> Option<Origin>
        ensures { result ≡ origin_of (Some self.now) }
    {
        match &self.proof.tree {
            Tree::Leaf => None,
            Tree::Node(_, _) => Some(self.proof.origin),
        }
    }
}

/// Whether a prover may be asked.
pub fn is_unsettled(status: Status) -> bool
    ensures { IsTrue result ↔ IsUnsettled status }
{
    matches!(status, Status::Unattempted | Status::Broken)
}
