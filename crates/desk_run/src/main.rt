//! Eight chairs of a desk count on one value from eight threads, a thousand acts each. Prints how often each counted.
//!
//! With the words `desk THREADS ACTS` or `lock THREADS ACTS` it counts so often at a desk, or under a lock, and prints how
//! many entries there are: `bench/desk_turns` takes the time of both.
#![tactic(auto)]

mod count;
mod lock;
mod tally;

use crate::count::count_beside;
use crate::lock::lock_beside;
use crate::tally::Tally;
use std::alloc::{AllocError, Global};
use std::process::ExitCode;
use std::sync::Wait;
use std::thread::Threads;
use std::{env, io};

const CHAIRS: u32 = 8;

const ACTS: u32 = 1_000;

// Counts as the words say. None where they are none of the two forms.
fn counted<R: Threads + Wait + Sync>(
    rt: &R,
    alloc: Global,
    words: &[String],
) -> Option<Result<Tally, AllocError>> {
    let [kind, threads, acts] = words else {
        return None;
    };
    let threads = threads.parse().ok()?;
    let acts = acts.parse().ok()?;
    if threads == 0 {
        return None;
    }
    match kind.as_str() {
        "desk" => Some(count_beside(rt, alloc, threads, acts)),
        "lock" => Some(lock_beside(rt, alloc, threads, acts)),
        _ => None,
    }
}

fn main(rt: HostRuntime) -> io::Result<ExitCode> {
    let mut words = Vec::new(rt.alloc());
    for word in env::args(&rt)?.skip(1) {
        words.push(word)?;
    }
    if words.is_empty() {
        let tally = count_beside(&rt, rt.alloc(), CHAIRS, ACTS)?;
        for number in 0..CHAIRS {
            let count = tally
                .entries
                .iter()
                .filter(|chair| **chair == number)
                .count();
            println!(rt; "chair {number}: {count}")?;
        }
        println!(rt; "all: {}", tally.entries.len())?;
        return Ok(ExitCode::SUCCESS);
    }
    match counted(&rt, rt.alloc(), &words) {
        Some(tally) => {
            println!(rt; "all: {}", tally?.entries.len())?;
            Ok(ExitCode::SUCCESS)
        }
        None => {
            println!(rt; "usage: desk_run [desk|lock THREADS ACTS]")?;
            Ok(ExitCode::from(2))
        }
    }
}
