//! `rodin`: a static checker, proof obligation generator and proof manager for Event-B.
#![tactic(auto)]

use outside::{FilePair, OpenGate, StreamSink, StreamSource};
use prover_pool::{Task, Tools, run_deep};
use rodin_cli::{exit, run};
use std::process::ExitCode;
use std::sync::Wait;
use std::thread::Threads;
use std::{env, io};
use strategy_core::AutoProver;

/// The most rules of a proof that the prover looks for.
const BUDGET: u32 = 400;

// The words of the command line after the program's name.
fn words(rt: &HostRuntime) -> io::Result<Vec<String>> {
    let mut words = Vec::new(rt.alloc());
    for word in env::args(rt)?.skip(1) {
        words.push(word)?;
    }
    Ok(words)
}

// What the program does: the threads are made by `rt`, and all else by `host`, which is the same.
#[derive(Drop)]
struct Program<'a, R> {
    rt: &'a R,
    host: HostRuntime,
}

impl<'a, R: Threads + Wait + Sync> Task for Program<'a, R> {
    ghost use Rattle.std.specs.Prelude.{⊤};
    ghost use Rattle.std.specs.Thread.{IsSync};

    // The status.
    type Output = u8;

    // (what `run` asks of a runtime, which a bound of an `impl` doesn't say in its calls)
    ghost can_run = { λ program. IsSync R.row };

    ghost gives = { λ program status. ⊤ };

    fn run(self) -> u8 {
        let Program { rt, host } = self;
        let words = match words(&host) {
            Ok(words) => words,
            Err(fault) if fault.kind() == io::ErrorKind::OutOfMemory => {
                return exit::OUT_OF_MEMORY;
            }
            // (a word that is not UTF-8 is in none of the forms)
            Err(_) => Vec::new(host.alloc()),
        };
        let mut input = StreamSource::new(host.stdin());
        let mut output = StreamSink::new(host.stdout());
        let prover = AutoProver::new(BUDGET);
        let tools = Tools {
            rt,
            alloc: host.alloc(),
            prover: &prover,
            gate: &OpenGate,
        };
        run(
            &tools,
            &words,
            &mut input,
            &mut output,
            FilePair::new(&host),
        )
        .status
    }
}

fn main(rt: HostRuntime) -> ExitCode {
    let program = Program { rt: &rt, host: rt };
    ExitCode::from(run_deep(&rt, program))
}
