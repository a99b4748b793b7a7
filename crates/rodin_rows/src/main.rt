//! Runs the program, and does events on stores and cores, row by row of the input, and prints what is answered.
//!
//! A line `## PART` begins a part of the rows, and is printed; a line `# NAME` begins a row, which goes on up to the next such
//! line. Lines that begin with `! ` say how a row is run; the others are its input, each with a line feed.
//!
//! | part | a row is |
//! |---|---|
//! | `sessions`, or none | an input of `session 0` over an empty disk, with the prover of `rodin`, and streams and memory that suffice; printed are its name, what the program writes, and the exit status |
//! | `projects` | the same with the word `check` |
//! | `inputs` | the same with the word `check` and the prover by hypotheses; the exit status, the number of events and what the program writes stand in the line of its name |
//! | `events` | events on a store, and on a core alone: see below |
//! | `bytes` | bytes that are read as entries; for each version the entries are printed, or where the good ones end; behind those of version 1 stands `written again` where they are written to these bytes again |
//!
//! | line | |
//! |---|---|
//! | `words W ..` | the words of the command line |
//! | `pieces N`, `room N` | the source gives at most N bytes at a time, the sink takes N bytes in all |
//! | `fails PART N` | the call of this number fails: `source`, `sink` or `disk` |
//! | `on` | the disk has the sides that the row before left |
//! | `left BYTES`, `right BYTES` | bytes behind those that the side has |
//! | `prover WORD` | a prover that is `slow`: it waits 50 ms before each attempt; one that gives a proof of 2,047 nodes by `cuts`; or one that gives an ANSWER, see below |
//! | `hold second`, `hold read` | the first ticket is held until the second is finished, or, with the second read waiting for it, until the third read |
//! | `bytes BYTES`, `times N TEXT` | more of the input: bytes, a text so often |
//! | `feeds N`, `contexts N` | more of the input: so many line feeds, so many empty contexts |
//! | `edits N`, `theorems N` | more of the input: edits of so many components, so many theorems of a context |
//! | `long N LETTER` | more of the input: so many edits of a component, each with a text of 65,536 bytes of this letter |
//! | `disk N` | all writes to the disk may have N bytes |
//! | `tell left`, `tell right`, `tell sizes`, `tell last` | what is then on a side, how many bytes, and which components last |
//! | `tell records` | the generation of each side, and the lengths of its first ten records |
//! | `hide digests`, `fold` | `(digest)` is printed for each digest, lines that are the same once, behind their number |
//! | `each PART` | runs it again with each call of the part failing in turn |
//! | `each stop` | lets each call of the disk fail in turn, and opens what stops inside it and behind all calls leave |
//! | `late N` | looks so at the last N calls alone |
//! | `value each`, `value N` | stops leave each value, or N, where a byte may be any; where the row doesn't say, 0, 1 and 255 |
//! | `each byte` | runs it over each value of each byte of the left side |
//!
//! BYTES are hexadecimal digits, or `times N HEX`, or `theorems N` (so many theorems of a context), or `puts N LENGTH` (so many
//! entries, each of which puts a text of LENGTH letters in the component `a`).
//!
//! The lines of a row of events are those of a session, but that the user of a row also plays the provers: `take` and
//! `take PO` take a ticket, `finish N ANSWER` hands in the answer of a prover to the ticket of this number, and `idle` asks
//! whether nothing is left to take and no ticket is out. An ANSWER is `none`, `memory`, `leaf` (a bare leaf), `review` (a tree
//! of one review), `hyp H` (a tree of one rule: the goal is hypothesis H of the ticket's sequent) or `cuts D H` (D cuts of ⊤ one
//! below another on each way, and then `hyp H`). `put NAME N` edits the component of this name, which may be primed, to a text
//! of N bytes. Printed are the row's name, and the reply to each event on a store; behind a reply that comes in no session
//! stands how it is printed. Where the disk counts faults, their number follows, and the components that last with the lengths of
//! their texts. A core alone does the events that were done; what it replies is printed only where it is something else.
#![tactic(auto)]

mod acts;
mod again;
mod bytes;
mod codec;
mod cores;
mod events;
mod gates;
mod printing;
mod provers;
mod reading;
mod replies;
mod row;
mod runs;
mod told;
mod trees;

use crate::row::Row;
use crate::runs::Bench;
use crate::told::answer;
use std::alloc::{AllocError, Global};
use std::io;
use std::sync::Wait;
use std::thread::Threads;
use std::time::Clock;

// Answers the rows of a text one after another.
fn answer_rows<R: Clock + Threads + Wait + Sync>(
    rt: &R,
    alloc: Global,
    text: &str,
    row: &mut Row,
    bench: &mut Bench,
    out: &mut String,
) -> Result<(), AllocError> {
    let lines = text.strip_suffix("\n").unwrap_or(text);
    for line in lines.split('\n') {
        if line.starts_with("# ") || line.starts_with("## ") {
            answer(rt, alloc, row, bench, out)?;
            row.begin(line)?;
        } else if let Some(option) = line.strip_prefix("! ") {
            row.add_option(alloc, option)?;
        } else {
            row.add_line(line)?;
        }
    }
    answer(rt, alloc, row, bench, out)
}

// The same on an empty disk.
fn answer_all<R: Clock + Threads + Wait + Sync>(
    rt: &R,
    alloc: Global,
    text: &str,
    out: &mut String,
) -> Result<(), AllocError> {
    let mut bench = Bench::new(alloc)?;
    let mut row = Row::new(alloc);
    answer_rows(rt, alloc, text, &mut row, &mut bench, out)
}

fn main(rt: HostRuntime) -> io::Result<()> {
    let alloc = rt.alloc();
    let text = io::read_to_string(alloc, rt.reader())?;
    let mut out = String::new(alloc);
    answer_all(&rt, alloc, &text, &mut out)?;
    print!(rt; "{out}")?;
    Ok(())
}
