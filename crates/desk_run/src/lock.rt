//! The same counting under a lock, to compare the time.
use crate::tally::{Tally, count_once};
use std::alloc::{AllocError, Global};
use std::sync::{Mutex, Wait};
use std::thread::{Threads, for_each_mut};

fn count_locked<R: Wait>(rt: &R, tally: &Mutex<Tally>, number: u32, acts: u32) {
    for _ in 0..acts {
        let mut tally = tally.lock(rt);
        count_once(&mut tally, number);
    }
}

/// So many threads count so often each.
///
/// # Errors
///
/// Memory ran out at the start. Later it makes a thread count less often.
pub fn lock_beside<R: Threads + Wait + Sync>(
    rt: &R,
    alloc: Global,
    threads: u32,
    acts: u32,
) -> Result<Tally, AllocError> {
    let mut numbers = Vec::with_capacity(alloc, threads as usize)?;
    for number in 0..threads {
        numbers.push(number)?;
    }
    let entries = Vec::new(alloc);
    let tally = Mutex::new(Tally { entries });
    if threads > 0 {
        let count = |_, number: &mut u32| count_locked(rt, &tally, *number, acts);
        for_each_mut(rt, numbers.as_mut_slice(), threads as usize, &count);
    }
    Ok(tally.into_inner())
}
