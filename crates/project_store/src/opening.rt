// The core that the records of a journal lead to.
ghost use Rattle.std.specs.Prelude.{◌≡◌, ◌<◌, ◌≤◌, ◌+◌, List, IfOk, OnOk, MatchResult, IsErrOf};
ghost use Rattle.std.specs.List.{AllByRecursion};
ghost use Rattle.std.specs.FinMap as map;
ghost use Rattle.outside.specs.declared.side.Side.{Side};
ghost use Rattle.journal_core.specs.Start.{bodies_of, ArePlaced};
ghost use Rattle.proof_entries.specs.declared.Entry.{Entry};
ghost use Rattle.sequent_core.specs.declared.Obligation.{Obligation};
ghost use Rattle.core_steps.specs.declared.durable.Durable.{Durable};
ghost use Rattle.core_steps.specs.State.{no_texts, opened};
ghost use Rattle.core_steps.specs.Table.{IsTableWithin};
ghost use Rattle.project_store.specs.Records.{IsBody, IsSmall, Leads, after_all};
ghost use Rattle.project_store.specs.Opening.{IsStop};
ghost use Rattle.project_store.specs.Private.{HasShortTexts, IsCoreFault, IsReplayFault, IsSingle};

use crate::entering::enter_all;
use crate::fault::{BodyFault, OpenFault};
use crate::reading::read_body;
use build_core::BuildFault;
use core_steps::Durable;
use formula_core::Steps;
use journal_core::Piece;
use status_core::Core;
use std::alloc::Global;
use std::marker::Brand;
use std::sync::ledger::{Blank, Ledger};

/// The most texts of a project.
const MOST_TEXTS: usize = 256;

/// The core that these records lead to from nothing.
#[tactic(auto, using(crate::proofs::Shorts::small_project, crate::proofs::Shorts::buildable, crate::proofs::Shorts::led_too_far, crate::proofs::Shorts::stop_of_core))]
pub(crate) fn open_core<L: Ledger>(
    alloc: Global,
    pieces: &[Piece],
    steps: &mut Steps<L>,
) -> Result<Core, OpenFault>
    ensures opened { IfOk result (λ core.
        (core ≡ opened core.durable) × Leads no_texts (bodies_of pieces.now) core.durable) }
    ensures fits { IfOk result (λ core. (table : List Obligation) × IsTableWithin core.durable.built table) }
    ensures small { IfOk result (λ core. IsSmall core.durable) }
    ensures fault { MatchResult result (λ _. Unit {0})
        (λ fault. (on : Side) → ArePlaced on 16 pieces.now → IsCoreFault (bodies_of pieces.now) on fault) }
    ensures single { OnOk result (AllByRecursion IsSingle (bodies_of pieces.now)) }
    ensures own { IsErrOf result OpenFault.DiskFault → ⊥ }
    ensures steps { IfOk result (λ core. steps.new ≤ steps.old + map.len core.durable.built) }
{
    let durable = match replay::<Brand>(alloc, pieces, Blank::new(1)) {
        Ok(durable) => durable,
        Err(fault) => return Err(fault),
    };
    match Core::start(alloc, durable, steps) {
        Ok(core) => Ok(core),
        Err(BuildFault::TableFull(n)) => Err(OpenFault::TableFull(n)),
        Err(BuildFault::OutOfMemory) => Err(OpenFault::OutOfMemory),
    }
}

// What these records lead to from nothing, or the first that doesn't lead on. Looks through their proofs are counted apart.
#[tactic(auto, using(crate::proofs::Replays::none_replayed, crate::proofs::Replays::next_replayed, crate::proofs::Replays::stuck_there, crate::proofs::Replays::end_led, crate::proofs::Replays::end_single, crate::proofs::Replays::end_small, crate::proofs::Replays::end_short))]
fn replay<L: Ledger>(alloc: Global, pieces: &[Piece], blank: Blank) -> Result<Durable, OpenFault>
    requires name { blank.name ≡ L.name }
    requires parts { blank.parts ≡ L.parts }
    requires some { 0 < blank.parts }
    ensures led { MatchResult result (λ led. Leads no_texts (bodies_of pieces.now) led)
        (λ fault. (on : Side) → ArePlaced on 16 pieces.now → IsReplayFault (bodies_of pieces.now) on fault) }
    ensures single { OnOk result (AllByRecursion IsSingle (bodies_of pieces.now)) }
    ensures own { IsErrOf result OpenFault.DiskFault → ⊥ }
    ensures small { IfOk result IsSmall }
    ensures short { IfOk result HasShortTexts }
{
    let mut steps = Steps::<L>::open(blank);
    let mut durable = Durable::empty(alloc);
    let mut rest = pieces;
    while let Some((first, behind)) = rest.split_first() {
        match replay_body(alloc, &mut durable, &first.bytes, &mut steps) {
            Ok(()) => {}
            Err(BodyFault::Bad) => return Err(OpenFault::Damaged(first.side, first.at)),
            Err(BodyFault::OutOfMemory) => return Err(OpenFault::OutOfMemory),
        }
        rest = behind;
    }
    Ok(durable)
}

// What a record leads to, if it leads on.
#[tactic(auto, using(crate::proofs::Replays::no_body, crate::proofs::Replays::too_many, crate::proofs::Replays::one_reading, crate::proofs::Shorts::stays_short))]
fn replay_body<L: Ledger>(
    alloc: Global,
    durable: &mut Durable,
    body: &[u8],
    steps: &mut Steps<L>,
) -> Result<(), BodyFault>
    requires short { HasShortTexts durable.old }
    ensures led { OnOk result ((es : List Entry)
        × IsBody body.now es × IsSmall (after_all durable.old es) × (durable.new ≡ after_all durable.old es)) }
    ensures single { OnOk result (IsSingle body.now) }
    ensures stop { IsErrOf result BodyFault.Bad → IsStop durable.old body.now }
    ensures short { OnOk result (HasShortTexts durable.new) }
{
    let entries = match read_body(alloc, body) {
        Ok(entries) => entries,
        Err(fault) => return Err(fault),
    };
    if enter_all(alloc, durable, entries, steps).is_err() {
        return Err(BodyFault::OutOfMemory);
    }
    if durable.texts.len() > MOST_TEXTS {
        return Err(BodyFault::Bad);
    }
    Ok(())
}
