//! Workers beside a user, from the start of a desk to its end.
ghost use Rattle.std.specs.Prelude.{◌≡◌, ◌+◌, ◌<◌, ◌≤◌, ◌^◌, [], ℕ, All, IfOk, IfErr, vec_capacity, length};
ghost use Rattle.std.specs.Thread.{IsSync};
ghost use Rattle.turn_desk.specs.Log.{NoneFrom};
ghost use Rattle.turn_desk.specs.Chairs.{IsOf, AreSame, IsSameChair};
ghost use Rattle.prover_pool.specs.Shift.{fair, EachServed, WasServed};
ghost use Rattle.pool_run.specs.Tray.{log_of, chair_of_entry, tray_meaning};

use crate::tray::{CountFinishes, Tray};
use outside::Gate;
use prover_pool::{Notices, Office, Tools, Work, crew};
use sequent_core::Prover;
use std::sync::Wait;
use std::thread::{Threads, join_mut};
use turn_desk::{Chair, Desk};

/// When the user shuts the notices.
#[derive(Clone, Copy)]
pub enum Shut {
    /// Before any worker begins.
    First,
    /// Once there were so many finishes.
    After(usize),
    /// Not at all: the workers stop at a fault.
    Never,
}

// Waits until there were so many finishes.
fn wait_for<R: Wait>(rt: &R, office: &Office<'_, Tray>, first: &mut Chair<Tray>, finishes: usize)
    requires { IsOf office.now.desk.now first.old }
    ensures { IsSameChair first.old first.new }
{
    for _ in rt.forever() {
        if office.desk.act(rt, first, CountFinishes) >= finishes {
            return;
        }
        office.notices.finished(rt);
    }
    unreachable!()
}

// What the user does beside the workers.
fn use_desk<R: Wait>(rt: &R, office: &Office<'_, Tray>, first: &mut Chair<Tray>, shut: Shut)
    requires { IsOf office.now.desk.now first.old }
    ensures { IsSameChair first.old first.new }
{
    if let Shut::After(finishes) = shut {
        wait_for(rt, office, first, finishes);
        office.notices.shut(rt);
    }
}

// Each worker serves.
fn serve_all<R: Threads + Wait + Sync, V: Work + Send, P: Prover + Sync, G: Gate + Sync>(
    tools: &Tools<'_, R, P, G>,
    office: &Office<'_, V>,
    chairs: &mut Vec<Chair<V>>,
)
    requires { All (IsOf office.now.desk.now) chairs.old.items }
    ensures same { AreSame chairs.old.items chairs.new.items }
    ensures served { EachServed V.chair_of V.meaning
        (fair (P.answers tools.now.prover.now) (P.sure tools.now.prover.now))
        office.now.desk.now.base chairs.old.items chairs.new.items }
{
    crew(tools, office, chairs.as_mut_slice());
}

// What the user does, while the workers serve.
fn use_beside<R: Threads + Wait + Sync, P: Prover + Sync, G: Gate + Sync>(
    tools: &Tools<'_, R, P, G>,
    office: &Office<'_, Tray>,
    first: &mut Chair<Tray>,
    chairs: &mut Vec<Chair<Tray>>,
    shut: Shut,
)
    requires first { IsOf office.now.desk.now first.old }
    requires chairs { All (IsOf office.now.desk.now) chairs.old.items }
    ensures first { IsSameChair first.old first.new }
    ensures chairs { AreSame chairs.old.items chairs.new.items }
    ensures served { EachServed chair_of_entry tray_meaning
        (fair (P.answers tools.now.prover.now) (P.sure tools.now.prover.now))
        office.now.desk.now.base chairs.old.items chairs.new.items }
{
    let mut user = ||
        requires { IsOf office.now.desk.now first.now }
        ensures { IsSameChair first.entry.now first.exit.now }
    { use_desk(tools.rt, office, first, shut) };
    let mut team = ||
        requires { IsSync R.row × All (IsOf office.now.desk.now) chairs.now.items }
        ensures { AreSame chairs.entry.now.items chairs.exit.now.items
            × EachServed chair_of_entry tray_meaning
            (fair (P.answers tools.entry.now.prover.now) (P.sure tools.entry.now.prover.now))
            office.entry.now.desk.now.base chairs.entry.now.items chairs.exit.now.items }
    { serve_all(tools, office, chairs) };
    join_mut(tools.rt, &mut user, &mut team);
}

/// Lets so many workers serve a tray beside a user, and gives the tray back.
///
/// # Errors
///
/// The tray, where memory ran out at the start.
pub fn work_beside<R: Threads + Wait + Sync, P: Prover + Sync, G: Gate + Sync>(
    tools: &Tools<'_, R, P, G>,
    tray: Tray,
    workers: u32,
    shut: Shut,
) -> Result<Tray, Tray>
    requires { (log_of tray ≡ []) × (workers + 1 < 2 ^ 32) }
    ensures served { IfOk result (λ done. (k : ℕ) → 0 < k → k ≤ workers
        → WasServed chair_of_entry tray_meaning (fair (P.answers tools.now.prover.now) (P.sure tools.now.prover.now))
        tray.room k [] (log_of done)) }
    ensures no_other { IfOk result (λ done. NoneFrom chair_of_entry (workers + 1) (log_of done)) }
    ensures refused { IfErr result (λ same. same ≡ tray) }
{
    let Ok(mut chairs) = Vec::with_capacity(tools.alloc, workers as usize) else {
        return Err(tray);
    };
    let (desk, mut first) = Desk::start(tools.alloc, tray)?;
    let notices = Notices::new();
    if matches!(shut, Shut::First) {
        notices.shut(tools.rt);
    }
    first.split_all(&desk, &mut chairs, workers);
    let office = Office {
        desk: &desk,
        notices: &notices,
    };
    use_beside(tools, &office, &mut first, &mut chairs, shut);
    first.join_all(&desk, chairs);
    Ok(desk.close(first))
}
