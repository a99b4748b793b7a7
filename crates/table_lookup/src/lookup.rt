// Looking for tickets, and for what is known of an obligation.
ghost use Rattle.std.specs.Prelude.{◌≡◌, ◌≢◌, ◌<◌, ◌≤◌, ◌+◌, ◌↔◌, ℕ, List, length, map, take, IsTrue, IfOk, IfSome, IsSome, MatchOption, Some};
ghost use Rattle.std.specs.Option.{option_copied, option_map};
ghost use Rattle.std.specs.FinMap.{FinMap, get};
ghost use Rattle.std.specs.List.{AllByRecursion, HoldsAt};
ghost use Rattle.std.specs.Arc.{arc_value};
ghost use Rattle.sequent_core.specs.Provers.{IsGoodTree};
ghost use Rattle.sequent_core.specs.Sequents.{IsSequent};
ghost use Rattle.po_rules.specs.Sequents.{AreSequents};
ghost use Rattle.proof_entries.specs.declared.Proof.{Proof};
ghost use Rattle.readings_core.specs.Follows.{IsFollowsAnswer};
ghost use Rattle.core_steps.specs.Durable.{text_cmp};
ghost use Rattle.core_steps.specs.Proving.{tree_in};
ghost use Rattle.core_steps.specs.Stored.{AreFactsOf};
ghost use Rattle.core_steps.specs.declared.events.Status.{Status};
ghost use Rattle.core_steps.specs.Status.{IsStatus, IsUnsettledBy, origin_of};
ghost use Rattle.core_steps.specs.Tickets.{CanTake, IsFor, IsPresentStatus, CanStore};
ghost use Rattle.table_lookup.specs.Tickets.{IsTicketAt};

use build_core::Numbered;
use core_steps::{Facts, Follows, PoMap, Status, StoredProof, facts_by, is_unsettled, status_by};
use formula_core::{OutOfMemory, PoName, Steps};
use proof_entries::Origin;
use proof_tree::is_good;
use readings_core::follows;
use sequent_core::{Obligation, Sequent, Ticket, Tree};
use std::alloc::Global;
use std::sync::Arc;
use std::sync::ledger::Ledger;

/// The most nodes of a tree that may be stored.
const MOST_NODES: u64 = 2048;

fn is_for(ticket: &Ticket, obligation: &Obligation) -> bool
    ensures { IsTrue result ↔ IsFor obligation.now ticket.now }
{
    ticket.name.same(&obligation.name) && ticket.sequent.same(&obligation.sequent)
}

// Whether no ticket for this obligation is out.
fn is_not_out(out: &[Ticket], obligation: &Obligation) -> bool
    ensures { IsTrue result ↔ AllByRecursion (λ ticket. IsFor obligation.now ticket → ⊥) out.now }
{
    for ticket in out {
        if is_for(ticket, obligation) {
            return false;
        }
    }
    true
}

// Whether the sequent of this obligation isn't the last tried one of its name.
fn is_not_tried(tried: &PoMap<Sequent>, obligation: &Obligation) -> bool
    ensures { IsTrue result ↔ (get tried.now obligation.now.name ≢ Some obligation.now.sequent) }
{
    match tried.get(&obligation.name) {
        None => true,
        Some(sequent) => !sequent.same(&obligation.sequent),
    }
}

/// The status of the proof that is stored under the name.
pub fn status_of(proofs: &PoMap<StoredProof>, name: &PoName, sequent: &Sequent) -> Status
    requires sequent { IsSequent sequent.now }
    ensures status { IsStatus (get proofs.now name.now) sequent.now result }
{
    match proofs.get(name) {
        None => Status::Unattempted,
        Some(stored) => stored.status(sequent),
    }
}

// The same for an obligation whose hypotheses are numbered: they are looked for by their numbers.
fn status_with(proofs: &PoMap<StoredProof>, numbered: &Numbered) -> Status
    requires sequent { IsSequent numbered.now.sequent }
    ensures status { IsStatus (get proofs.now numbered.now.name) numbered.now.sequent result }
{
    let obligation = numbered.obligation();
    match proofs.get(&obligation.name) {
        None => Status::Unattempted,
        Some(stored) => stored.status_with(&obligation.sequent, numbered.prints()),
    }
}

/// The status of the proof that is stored for the obligation, and who made it, by one search.
pub fn status_and_origin(
    proofs: &PoMap<StoredProof>,
    numbered: &Numbered,
) -> (Status, Option<Origin>)
    requires sequent { IsSequent numbered.now.sequent }
    ensures status { IsStatus (get proofs.now numbered.now.name) numbered.now.sequent result.0 }
    ensures origin { result.1 ≡ origin_of (get proofs.now numbered.now.name) }
{
    let obligation = numbered.obligation();
    match proofs.get(&obligation.name) {
        None => (Status::Unattempted, None),
        Some(stored) => (
            stored.status_with(&obligation.sequent, numbered.prints()),
            stored.origin(),
        ),
    }
}

// Whether the obligation is unattempted or broken.
fn is_unsettled_by(proofs: &PoMap<StoredProof>, obligation: &Obligation) -> bool
    requires { IsSequent obligation.now.sequent }
    ensures { IsTrue result ↔ IsUnsettledBy proofs.now obligation.now }
{
    is_unsettled(status_of(proofs, &obligation.name, &obligation.sequent))
}

// The same, by the numbers of its hypotheses.
fn is_unsettled_with(proofs: &PoMap<StoredProof>, numbered: &Numbered) -> bool
    requires { IsSequent numbered.now.sequent }
    ensures { IsTrue result ↔ IsUnsettledBy proofs.now numbered.now }
{
    is_unsettled(status_with(proofs, numbered))
}

/// Whether the obligation is unattempted or broken, and no ticket for it is out.
pub fn is_free(proofs: &PoMap<StoredProof>, out: &[Ticket], obligation: &Obligation) -> bool
    requires sequent { IsSequent obligation.now.sequent }
    ensures free { IsTrue result ↔ (IsUnsettledBy proofs.now obligation.now
        × AllByRecursion (λ ticket. IsFor obligation.now ticket → ⊥) out.now) }
{
    is_unsettled_by(proofs, obligation) && is_not_out(out, obligation)
}

// Whether the obligation is open.
fn can_take(
    proofs: &PoMap<StoredProof>,
    out: &[Ticket],
    tried: &PoMap<Sequent>,
    numbered: &Numbered,
) -> bool
    requires { IsSequent numbered.now.sequent }
    ensures { IsTrue result ↔ CanTake proofs.now out.now tried.now numbered.now }
{
    let obligation = numbered.obligation();
    is_not_out(out, obligation)
        && is_not_tried(tried, obligation)
        && is_unsettled_with(proofs, numbered)
}

/// The place of the first open obligation, where none before `from` is open.
pub fn first_open(
    proofs: &PoMap<StoredProof>,
    out: &[Ticket],
    tried: &PoMap<Sequent>,
    table: &[Arc<Numbered>],
    from: usize,
) -> Option<usize>
    requires sequents { AreSequents (map arc_value table.now) }
    requires closed { AllByRecursion (λ o. CanTake proofs.now out.now tried.now o
        → ⊥) (take from (map arc_value table.now)) }
    ensures first { MatchOption result
        (AllByRecursion (λ o. CanTake proofs.now out.now tried.now o → ⊥) (map arc_value table.now))
        (λ at. (at < length (map arc_value table.now))
        × AllByRecursion (λ o. CanTake proofs.now out.now tried.now o → ⊥) (take at (map arc_value table.now))
        × HoldsAt (λ o. CanTake proofs.now out.now tried.now o) (map arc_value table.now) at) }
{
    for at in from..table.len() {
        if can_take(proofs, out, tried, &table[at]) {
            return Some(at);
        }
    }
    None
}

/// The place of the first ticket of this number.
pub fn ticket_at(out: &[Ticket], number: u64) -> Option<usize>
    ensures place { IsTicketAt out.now number result }
{
    for (at, ticket) in out.iter().enumerate() {
        if ticket.number == number {
            return Some(at);
        }
    }
    None
}

/// The status of the name for its present sequent.
pub fn present_status(
    proofs: &PoMap<StoredProof>,
    name: &PoName,
    obligation: Option<&Obligation>,
) -> Option<Status>
    requires sequent { IfSome (option_copied obligation) (λ o. IsSequent o.sequent) }
    ensures status { IsPresentStatus proofs.now name.now
        (option_map (λ o. o.sequent) (option_copied obligation.entry)) result }
{
    match obligation {
        None => None,
        Some(obligation) => Some(status_of(proofs, name, &obligation.sequent)),
    }
}

fn is_discharged(status: Status) -> bool
    ensures { IsTrue result ↔ (status ≡ Status.Discharged) }
{
    matches!(status, Status::Discharged)
}

// What is known of the tree, where it is a good proof of the sequent. Its nodes are counted first.
fn facts_if_good<L: Ledger>(
    alloc: Global,
    tree: &Tree,
    sequent: &Sequent,
    steps: &mut Steps<L>,
) -> Result<Option<Facts>, OutOfMemory>
    requires { IsSequent sequent.now }
    ensures facts { IfOk result (λ found. IfSome found (AreFactsOf tree.now)) }
    ensures good { IfOk result (λ found. IsSome found ↔ IsGoodTree tree.now sequent.now) }
    ensures step { steps.new ≤ steps.old + 1 }
{
    let tally = tree.tally();
    if tally.nodes > MOST_NODES {
        return Ok(None);
    }
    let facts = facts_by(alloc, tree, tally, steps)?;
    if is_discharged(status_by(&facts, sequent)) {
        return Ok(Some(facts));
    }
    Ok(None)
}

/// What is known of the tree, where it may be stored for the present sequent of a name, whose status this is. The tree is
/// looked through at most once, which is a step of the counter.
pub fn facts_to_store<L: Ledger>(
    alloc: Global,
    status: Option<Status>,
    obligation: Option<&Obligation>,
    tree: &Tree,
    steps: &mut Steps<L>,
) -> Result<Option<Facts>, OutOfMemory>
    requires sequent { IfSome (option_copied obligation) (λ o. IsSequent o.sequent) }
    ensures facts { IfOk result (λ found. IfSome found (AreFactsOf tree.now)) }
    ensures can { (proofs : FinMap text_cmp Proof) (name : List ℕ) →
        IsPresentStatus proofs name (option_map (λ o. o.sequent) (option_copied obligation.entry)) status →
        IfOk result (λ found.
        IsSome found ↔ CanStore proofs name (option_map (λ o. o.sequent) (option_copied obligation.entry)) tree.now) }
    ensures step { steps.new ≤ steps.old + 1 }
{
    let Some(obligation) = obligation else {
        return Ok(None);
    };
    let Some(status) = status else {
        return Ok(None);
    };
    if !is_unsettled(status) {
        return Ok(None);
    }
    facts_if_good(alloc, tree, &obligation.sequent, steps)
}

/// Whether the tree may be stored as a proof of the sequent. It is looked through, which is one step of the counter.
pub fn is_good_proof<L: Ledger>(
    alloc: Global,
    tree: &Tree,
    sequent: &Sequent,
    steps: &mut Steps<L>,
) -> Result<bool, OutOfMemory>
    ensures good { IfOk result (λ good. IsTrue good ↔ IsGoodTree tree.now sequent.now) }
    ensures step { steps.new ≡ steps.old + 1 }
{
    steps.tick();
    is_good(tree, alloc, sequent)
}

/// What is said of the tree of the stored proof, or of a bare leaf. It is looked through, which is one step of the counter.
pub fn follows_by<L: Ledger>(
    alloc: Global,
    stored: Option<&StoredProof>,
    sequent: &Sequent,
    steps: &mut Steps<L>,
) -> Result<Follows, OutOfMemory>
    ensures answer { IfOk result (IsFollowsAnswer (tree_in (option_copied stored.entry)) sequent.now) }
    ensures step { steps.new ≡ steps.old + 1 }
{
    steps.tick();
    match stored {
        None => follows(&Tree::Leaf, alloc, sequent),
        Some(stored) => follows(&stored.proof().tree, alloc, sequent),
    }
}
