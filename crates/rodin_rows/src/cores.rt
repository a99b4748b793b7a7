//! The acts of a store, done by a core alone.
ghost use Rattle.std.specs.Prelude.{◌≡◌, ◌+◌, ◌<◌, ◌≤◌, ◌^◌, IfOk};
ghost use Rattle.std.specs.FinMap as map;
ghost use Rattle.core_steps.specs.State.{opened, no_texts};

use crate::replies::add_reply_line;
use core_steps::{BuildFault, Durable, Event, Reply, grows_slowly};
use formula_core::Steps;
use status_core::Core;
use std::alloc::{AllocError, Global};
use std::marker::Brand;
use std::sync::ledger::{Blank, Ledger};

/// The most acts of a row.
const MOST: usize = 10_000;

// The core of an empty project.
fn start<L: Ledger>(alloc: Global, steps: &mut Steps<L>) -> Result<Core, BuildFault>
    ensures { IfOk result (λ core. core ≡ opened no_texts) }
{
    Core::start(alloc, Durable::empty(alloc), steps)
}

// Adds a reply, which nobody needs then.
fn add_line(alloc: Global, out: &mut String, reply: Reply) -> Result<(), AllocError> {
    let told = add_reply_line(alloc, out, &reply);
    drop(reply);
    told
}

// Does an event, and adds its reply.
fn act<L: Ledger>(
    alloc: Global,
    core: &mut Core,
    event: &Event,
    out: &mut String,
    steps: &mut Steps<L>,
) -> Result<(), AllocError>
    requires number { core.old.next + 1 < 2 ^ 64 }
    requires few { map.len core.old.durable.proofs < 2 ^ 32 }
    ensures number { core.new.next ≤ core.old.next + 1 }
    ensures few { map.len core.new.durable.proofs ≤ map.len core.old.durable.proofs + 1 }
{
    let Ok(prepared) = core.prepare(event, steps) else {
        return Err(AllocError);
    };
    grows_slowly();
    let reply = core.commit(prepared);
    add_line(alloc, out, reply)
}

// Does the events one after another, and adds their replies.
fn act_all<L: Ledger>(
    alloc: Global,
    core: &mut Core,
    acts: &[(u32, Event)],
    out: &mut String,
    steps: &mut Steps<L>,
) -> Result<(), AllocError>
    requires fresh { core.old ≡ opened no_texts }
{
    if acts.len() > MOST {
        return Err(AllocError);
    }
    for at in 0..acts.len() {
        let (_, event) = &acts[at];
        act(alloc, core, event, out, steps)?;
    }
    Ok(())
}

// Each with a counter of steps that nobody reads.
fn add_counted<L: Ledger>(
    alloc: Global,
    acts: &[(u32, Event)],
    out: &mut String,
    blank: Blank,
) -> Result<(), AllocError>
    requires name { blank.name ≡ L.name }
    requires parts { blank.parts ≡ L.parts }
    requires some { 0 < blank.parts }
{
    let mut steps = Steps::<L>::open(blank);
    let Ok(mut core) = start(alloc, &mut steps) else {
        return Err(AllocError);
    };
    let done = act_all(alloc, &mut core, acts, out, &mut steps);
    let _durable = core.into_durable();
    done
}

/// Adds the replies of a core that begins with nothing and does these acts.
pub fn add_replies(
    alloc: Global,
    acts: &[(u32, Event)],
    out: &mut String,
) -> Result<(), AllocError> {
    add_counted::<Brand>(alloc, acts, out, Blank::new(1))
}
