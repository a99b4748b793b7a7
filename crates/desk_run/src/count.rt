//! Chairs that count beside each other.
ghost use Rattle.std.specs.Prelude.{◌≡◌, ◌+◌, ◌<◌, ◌≤◌, ◌^◌, ℕ, All, IfOk, length};
ghost use Rattle.std.specs.Thread.{IsSync};
ghost use Rattle.turn_desk.specs.Log.{NoneFrom};
ghost use Rattle.turn_desk.specs.Chairs.{IsOf};
ghost use Rattle.desk_run.specs.Counting.{count_of};
ghost use Rattle.desk_run.specs.Private.{HasCounted, EachHasCounted};

use crate::tally::{Count, Tally};
use std::alloc::{AllocError, Global};
use std::sync::Wait;
use std::thread::{Threads, for_each_mut, join};
use turn_desk::{Chair, Desk};

// Counts so often.
fn count<R: Wait>(rt: &R, desk: &Desk<Tally>, chair: &mut Chair<Tally>, acts: u32)
    requires { IsOf desk.now chair.old }
    ensures { HasCounted acts chair.old chair.new }
{
    for _ in 0..acts {
        desk.act(rt, chair, Count);
    }
}

fn count_first<R: Wait>(
    rt: &R,
    desk: &Desk<Tally>,
    mut first: Chair<Tally>,
    acts: u32,
) -> Chair<Tally>
    requires { IsOf desk.now first }
    ensures { HasCounted acts first result }
{
    count(rt, desk, &mut first, acts);
    first
}

// Each chair counts so often, beside the others.
fn count_each<R: Threads + Wait + Sync>(
    rt: &R,
    desk: &Desk<Tally>,
    chairs: &mut [Chair<Tally>],
    acts: u32,
)
    requires { All (IsOf desk.now) chairs.old }
    ensures { EachHasCounted acts chairs.old chairs.new }
{
    if chairs.is_empty() {
        return;
    }
    let threads = chairs.len();
    for_each_mut(
        rt,
        chairs,
        threads,
        &|_, chair: &mut Chair<Tally>|
            requires { IsOf desk.now chair.old }
            ensures { HasCounted acts chair.old chair.new }
        { count(rt, desk, chair, acts) },
    );
}

fn count_others<R: Threads + Wait + Sync>(
    rt: &R,
    desk: &Desk<Tally>,
    mut chairs: Vec<Chair<Tally>>,
    acts: u32,
) -> Vec<Chair<Tally>>
    requires { All (IsOf desk.now) chairs.items }
    ensures { EachHasCounted acts chairs.items result.items }
{
    count_each(rt, desk, chairs.as_mut_slice(), acts);
    chairs
}

/// So many chairs of a desk, one of them chair 0, count so often each, and the value comes back.
///
/// # Errors
///
/// Memory ran out at the start. Later it makes a chair count less often.
pub fn count_beside<R: Threads + Wait + Sync>(
    rt: &R,
    alloc: Global,
    chairs: u32,
    acts: u32,
) -> Result<Tally, AllocError>
    requires { (0 < chairs) × (chairs < 2 ^ 32) }
    ensures counts { IfOk result (λ tally. (k : ℕ) → k < chairs → count_of k tally.entries.items ≤ acts) }
    ensures no_other { IfOk result (λ tally. NoneFrom (λ e. e) chairs tally.entries.items) }
{
    let mut others = Vec::with_capacity(alloc, (chairs - 1) as usize)?;
    let entries = Vec::new(alloc);
    let Ok((desk, mut first)) = Desk::start(alloc, Tally { entries }) else {
        return Err(AllocError);
    };
    first.split_all(&desk, &mut others, chairs - 1);
    let (mut first, others) = join(
        rt,
        || -> Chair<Tally>
            requires { IsOf desk first }
            ensures { HasCounted acts first result }
        { count_first(rt, &desk, first, acts) },
        || -> Vec<Chair<Tally>>
            requires { IsSync R.row × All (IsOf desk) others.items }
            ensures { EachHasCounted acts others.items result.items }
        { count_others(rt, &desk, others, acts) },
    );
    first.join_all(&desk, others);
    Ok(desk.close(first))
}
