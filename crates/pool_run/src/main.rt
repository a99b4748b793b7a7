//! Workers over a small value: all work is done, notices are shut at first, more workers than work, a fault, and formulas
//! that are higher than the stack of a thread as it begins.
//! What is printed is the same whatever the schedule.
#![tactic(auto)]

ghost use Rattle.std.specs.Prelude.{◌+◌, ◌<◌, ◌^◌};

mod tall;
mod tray;
mod work;

use crate::tall::{Climber, Climbing};
use crate::tray::{Outcome, Step, Tray, What};
use crate::work::{Shut, work_beside};
use outside::OpenGate;
use prover_pool::{Tools, run_deep};
use sequent_core::{Attempt, Prover, Sequent};
use std::alloc::{AllocError, Global};
use std::io;
use std::sync::Wait;
use std::thread::Threads;

// Finds no proof.
struct NoProver;

impl Prover for NoProver {
    ghost use Rattle.sequent_core.specs.declared.Attempt.TheVariants.{NoProof};
    ghost use Rattle.std.specs.Prelude.{◌≡◌};

    ghost sure = { λ prover sequent. ⊥ };

    ghost answers = { λ prover sequent attempt. attempt ≡ NoProof };

    fn attempt(&self, _alloc: Global, _sequent: &Sequent) -> Attempt {
        Attempt::NoProof
    }
}

// What is printed of a tray when its workers are done.
fn line(alloc: Global, name: &str, workers: u32, tray: &Tray) -> Result<String, AllocError> {
    let left = tray.left;
    let finished = tray.finishes();
    let fault = if tray.fault.is_some() {
        ", and a fault"
    } else {
        ""
    };
    let is_spent = |step: &Step| matches!(step.what, What::Finish(_, Outcome::NoMemory));
    let memory = if tray.steps.iter().any(is_spent) {
        ", out of memory"
    } else {
        ""
    };
    let is_idle = |number: &u32| !tray.has_take_of(*number);
    let idle = (0..workers).map(|place| place + 1).filter(is_idle).count();
    format!(in alloc;
        "{name}: {left} left, {finished} finished, {idle} workers without a take{fault}{memory}"
    )
}

// What is printed of a tray with so many pieces and so much room, which so many workers serve.
fn row<R: Threads + Wait + Sync, P: Prover + Sync>(
    tools: &Tools<'_, R, P, OpenGate>,
    name: &str,
    left: u64,
    workers: u32,
    room: usize,
    shut: Shut,
) -> io::Result<String>
    requires { workers + 1 < 2 ^ 32 }
{
    let tray = Tray {
        left,
        room,
        steps: Vec::new(tools.alloc),
        fault: None,
    };
    let Ok(tray) = work_beside(tools, tray, workers, shut) else {
        return Err(io::Error::from(io::ErrorKind::OutOfMemory));
    };
    Ok(line(tools.alloc, name, workers, &tray)?)
}

fn main(rt: HostRuntime) -> io::Result<()> {
    let rows = [
        ("all work is done", 5, 3, 100, Shut::After(5)),
        ("shut at first", 5, 3, 100, Shut::First),
        ("more workers than work", 1, 3, 100, Shut::First),
        ("no workers", 2, 0, 100, Shut::First),
        ("a fault at a take", 5, 1, 4, Shut::Never),
        ("a fault at a finish", 5, 1, 3, Shut::Never),
        ("a fault at once", 5, 3, 0, Shut::Never),
    ];
    let tools = Tools {
        rt: &rt,
        alloc: rt.alloc(),
        prover: &NoProver,
        gate: &OpenGate,
    };
    for (name, left, workers, room, shut) in rows {
        println!(rt; "{}", row(&tools, name, left, workers, room, shut)?)?;
    }
    let tools = Tools {
        rt: &rt,
        alloc: rt.alloc(),
        prover: &Climber,
        gate: &OpenGate,
    };
    println!(rt;
        "{}",
        row(&tools, "a high formula", 1, 1, 100, Shut::First)?
    )?;
    if run_deep(&rt, Climbing { alloc: rt.alloc() }) {
        println!(rt; "a high formula without a worker: the same as its copy")?;
    }
    Ok(())
}
