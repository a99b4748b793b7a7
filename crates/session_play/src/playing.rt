//! Chair 0 and the workers beside it, from the start of a desk to its end.
ghost use Rattle.std.specs.Prelude.{◌≡◌, ◌+◌, ◌<◌, ◌^◌, [], All, length, IfOk, IfErr, OnErr};
ghost use Rattle.std.specs.Thread.{IsSync};
ghost use Rattle.turn_desk.specs.Log.{AllJoined, JoinedStay, NoneFrom};
ghost use Rattle.turn_desk.specs.Chairs.{IsOf, AreNew, AreSame, IsSameChair, first_chair};
ghost use Rattle.prover_pool.specs.Work.{HasMarkLast};
ghost use Rattle.prover_pool.specs.Shift.{fair, EachServed};
ghost use Rattle.session_streams.specs.Streams.{reading, writing};
ghost use Rattle.session_talk.specs.Conversing.{Converses};
ghost use Rattle.session_play.specs.Playing.{IsPlayed};

use outside::{Gate, Sink, Source};
use prover_pool::{Notices, Office, Tools, Work, crew};
use sequent_core::Prover;
use session_talk::{Ending, converse};
use std::alloc::Global;
use std::sync::Wait;
use std::thread::{Threads, join_mut};
use store_log::EventStore;
use turn_desk::{Chair, Desk, Kept};

// The dialogue of chair 0, after which the workers are to end.
fn lead<R: Wait, V: EventStore, I: Source, O: Sink, P: Prover, G: Gate>(
    tools: &Tools<'_, R, P, G>,
    office: &Office<'_, V>,
    chair: &mut Chair<V>,
    input: &mut I,
    output: &mut O,
) -> Ending
    requires { IsOf office.now.desk.now chair.old × (chair.old.number ≡ 0) × (chair.old.seen ≡ []) }
    ensures chair { IsSameChair chair.old chair.new }
    ensures ended { Converses (fair (P.answers tools.now.prover.now) (P.sure tools.now.prover.now))
        office.now.desk.now.base 0
        (reading (I.left input.old) (I.left input.new) (I.faults input.old) (I.faults input.new))
        (writing (O.written output.old) (O.written output.new) (O.faults output.old) (O.faults output.new))
        chair.new.seen result }
{
    let ending = converse(tools, office, chair, input, output);
    office.notices.shut(tools.rt);
    ending
}

// Each worker serves.
fn serve_all<R: Threads + Wait + Sync, V: Work + Send, P: Prover + Sync, G: Gate + Sync>(
    tools: &Tools<'_, R, P, G>,
    office: &Office<'_, V>,
    chairs: &mut Vec<Chair<V>>,
)
    requires { All (IsOf office.now.desk.now) chairs.old.items }
    ensures same { AreSame chairs.old.items chairs.new.items }
    ensures served { EachServed V.chair_of V.meaning
        (fair (P.answers tools.now.prover.now) (P.sure tools.now.prover.now))
        office.now.desk.now.base chairs.old.items chairs.new.items }
{
    crew(tools, office, chairs.as_mut_slice());
}

// A desk for the value, chair 0, and so many chairs for workers.
fn seat<V: Kept>(
    alloc: Global,
    workers: u32,
    value: V,
) -> Result<(Desk<V>, Chair<V>, Vec<Chair<V>>), V>
    requires { (V.log value ≡ []) × (workers + 1 < 2 ^ 32) }
    ensures desk { IfOk result (λ made. made.0.base ≡ V.base value) }
    ensures first { IfOk result (λ made. made.1 ≡ record (first_chair made.0) { made = 1 + workers }) }
    ensures count { IfOk result (λ made. length made.2.items ≡ workers) }
    ensures workers { IfOk result (λ made. AreNew (first_chair made.0) 1 made.2.items) }
    ensures refused { IfErr result (λ same. same ≡ value) }
{
    let Ok(mut chairs) = Vec::with_capacity(alloc, workers as usize) else {
        return Err(value);
    };
    let (desk, mut first) = Desk::start(alloc, value)?;
    first.split_all(&desk, &mut chairs, workers);
    Ok((desk, first, chairs))
}

// The dialogue of chair 0, while the workers serve. Where no thread can be made the dialogue comes first.
fn converse_beside<
    R: Threads + Wait + Sync,
    V: EventStore + Send,
    I: Source,
    O: Sink,
    P: Prover + Sync,
    G: Gate + Sync,
>(
    tools: &Tools<'_, R, P, G>,
    office: &Office<'_, V>,
    first: &mut Chair<V>,
    chairs: &mut Vec<Chair<V>>,
    input: &mut I,
    output: &mut O,
) -> Ending
    requires first { IsOf office.now.desk.now first.old × (first.old.number ≡ 0) × (first.old.seen ≡ []) }
    requires chairs { All (IsOf office.now.desk.now) chairs.old.items }
    ensures first { IsSameChair first.old first.new }
    ensures chairs { AreSame chairs.old.items chairs.new.items }
    ensures served { EachServed V.chair_of V.meaning
        (fair (P.answers tools.now.prover.now) (P.sure tools.now.prover.now))
        office.now.desk.now.base chairs.old.items chairs.new.items }
    ensures ended { Converses (fair (P.answers tools.now.prover.now) (P.sure tools.now.prover.now))
        office.now.desk.now.base 0
        (reading (I.left input.old) (I.left input.new) (I.faults input.old) (I.faults input.new))
        (writing (O.written output.old) (O.written output.new) (O.faults output.old) (O.faults output.new))
        first.new.seen result }
{
    let mut user = || -> Ending
        requires { IsOf office.now.desk.now first.now × (first.now.number ≡ 0) × (first.now.seen ≡ []) }
        ensures { IsSameChair first.entry.now first.exit.now
            × Converses (fair (P.answers tools.entry.now.prover.now) (P.sure tools.entry.now.prover.now))
            office.entry.now.desk.now.base 0
            (reading (I.left input.entry.now) (I.left input.exit.now)
            (I.faults input.entry.now) (I.faults input.exit.now))
            (writing (O.written output.entry.now) (O.written output.exit.now)
            (O.faults output.entry.now) (O.faults output.exit.now))
            first.exit.now.seen result }
    { lead(tools, office, first, input, output) };
    let mut team = ||
        requires { IsSync R.row × All (IsOf office.now.desk.now) chairs.now.items }
        ensures { AreSame chairs.entry.now.items chairs.exit.now.items
            × EachServed V.chair_of V.meaning
            (fair (P.answers tools.entry.now.prover.now) (P.sure tools.entry.now.prover.now))
            office.entry.now.desk.now.base chairs.entry.now.items chairs.exit.now.items }
    { serve_all(tools, office, chairs) };
    let ((), ending) = join_mut(tools.rt, &mut team, &mut user);
    ending
}

// Closes the desk. In the log of its value a mark stands at the end, if there is one.
fn close_desk<V: Work>(desk: Desk<V>, first: Chair<V>) -> V
    requires of { IsOf desk first }
    requires first { first.number ≡ 0 }
    requires all { AllJoined first.joined first.made }
    ensures log { V.log result ≡ first.seen }
    ensures base { V.base result ≡ desk.base }
    ensures joined { JoinedStay V.chair_of first.joined (V.log result) }
    ensures unmade { NoneFrom V.chair_of first.made (V.log result) }
    ensures marks { HasMarkLast V.meaning (V.log result) }
{
    desk.close(first)
}

/// Lets so many workers serve a store beside the dialogue with the user, and gives the store back, with how the
/// commands ended.
///
/// # Errors
///
/// The store, where memory ran out at the start: then nothing was read, written or done.
pub fn play<
    R: Threads + Wait + Sync,
    V: EventStore + Send,
    I: Source,
    O: Sink,
    P: Prover + Sync,
    G: Gate + Sync,
>(
    tools: &Tools<'_, R, P, G>,
    workers: u32,
    store: V,
    input: &mut I,
    output: &mut O,
) -> Result<(V, Ending), V>
    requires { (V.log store ≡ []) × (workers + 1 < 2 ^ 32) }
    ensures base { IfOk result (λ played. V.base played.0 ≡ V.base store) }
    ensures played { IfOk result (λ played. IsPlayed V.chair_of V.meaning
        (fair (P.answers tools.now.prover.now) (P.sure tools.now.prover.now)) workers (V.base store) (V.log played.0)
        (reading (I.left input.old) (I.left input.new) (I.faults input.old) (I.faults input.new))
        (writing (O.written output.old) (O.written output.new) (O.faults output.old) (O.faults output.new)) played.1) }
    ensures refused { IfErr result (λ same. same ≡ store) }
    ensures untouched { OnErr result ((input.new ≡ input.old) × (output.new ≡ output.old)) }
{
    let (desk, mut first, mut chairs) = seat(tools.alloc, workers, store)?;
    let notices = Notices::new();
    let office = Office {
        desk: &desk,
        notices: &notices,
    };
    let ending = converse_beside(tools, &office, &mut first, &mut chairs, input, output);
    first.join_all(&desk, chairs);
    Ok((close_desk(desk, first), ending))
}
