// The top call: the words of the command line, and the tools, the streams and the disk that are handed in.
ghost use Rattle.std.specs.Prelude.{◌≡◌, ◌↔◌, ℕ};
ghost use Rattle.std.specs.Io.KnownBytes.{IsAtEnd};
ghost use Rattle.outside.specs.Cause.{Rose};
ghost use Rattle.outside.specs.Disk.{LeavesOnly};
ghost use Rattle.session_streams.specs.Streams.{reading, writing};
ghost use Rattle.rodin_cli.specs.Check.{RunsCheck, ReadsToEnd, IsUnfailedCheckStatus, EndsWithLine, IsCheckWords, usage_line};
ghost use Rattle.rodin_cli.specs.Demo.{Demonstrates, IsUnfailedDemoStatus};
ghost use Rattle.prover_pool.specs.Shift.{fair};
ghost use Rattle.session_ends.specs.Limits.{IsUnhindered, IsUnfailedSessionStatus};
ghost use Rattle.session_ends.specs.Moments.{IsLeftWithin};
ghost use Rattle.session_ends.specs.Sessions.{Sessions};
ghost use Rattle.rodin_cli.specs.Words.{HaveNoForm, IsDemoWords, IsSessionWords};

use crate::check::{ends_with_line, run_check};
use crate::command::{Command, command_of};
use crate::demo::run_demo;
use crate::outcome::{Part, Run};
use outside::{Disk, Gate, Sink, Source};
use project_session::run_session;
use prover_pool::Tools;
use sequent_core::Prover;
use session_ends::{Ended, exit};
use std::sync::Wait;
use std::thread::Threads;

const USAGE: &[u8] = b"usage: rodin check | rodin session WORKERS | rodin demo SEED N\n";

/// Does what the words say, which are those of the command line after the program's name: `check`, `session WORKERS` or
/// `demo SEED N`. Other words end with status 2 and the usage line.
pub fn run<
    R: Threads + Wait + Sync,
    I: Source + Send,
    O: Sink + Send,
    D: Disk + Send,
    P: Prover + Sync,
    G: Gate + Sync,
>(tools: &Tools<'_, R, P, G>, words: &[String], input: &mut I, output: &mut O, disk: D) -> Run<D>
    ensures checked { IsCheckWords words.now → RunsCheck (P.answers tools.now.prover.now) (P.sure tools.now.prover.now)
        (reading (I.left input.old) (I.left input.new) (I.faults input.old) (I.faults input.new))
        (writing (O.written output.old) (O.written output.new) (O.faults output.old) (O.faults output.new))
        (record { status = result.status; history = result.history; last = result.last }) }
    ensures session { (workers : ℕ) → IsSessionWords words.now workers →
        Sessions D.told D.bytes_of D.images D.clock D.moments D.faults
        (fair (P.answers tools.now.prover.now) (P.sure tools.now.prover.now)) (P.sure tools.now.prover.now)
        workers disk result.disk (input.new ≡ input.old)
        (reading (I.left input.old) (I.left input.new) (I.faults input.old) (I.faults input.new))
        (writing (O.written output.old) (O.written output.new) (O.faults output.old) (O.faults output.new))
        result.status result.history.items result.last }
    ensures demonstrated { (seed n : ℕ) → IsDemoWords words.now seed n →
        Demonstrates (P.answers tools.now.prover.now) (P.sure tools.now.prover.now) seed n
        (writing (O.written output.old) (O.written output.new) (O.faults output.old) (O.faults output.new))
        (record { status = result.status; history = result.history; last = result.last }) }
    ensures usage { HaveNoForm words.now → EndsWithLine 2 usage_line
        (writing (O.written output.old) (O.written output.new) (O.faults output.old) (O.faults output.new))
        (record { status = result.status; history = result.history; last = result.last }) }
    ensures words { result.status ≡ 2 ↔ HaveNoForm words.now }
    ensures untouched { (IsCheckWords words.now → ⊥) → ((workers : ℕ) → IsSessionWords words.now workers → ⊥) →
        input.new ≡ input.old }
    ensures disk { ((workers : ℕ) → IsSessionWords words.now workers → ⊥) → result.disk ≡ disk }
    ensures ended { IsCheckWords words.now → ReadsToEnd result.status → IsAtEnd (I.left input.new) }
    ensures read_fault { result.status ≡ 3 → Rose (I.faults input.old) (I.faults input.new) }
    ensures write_fault { result.status ≡ 4 → Rose (O.faults output.old) (O.faults output.new) }
    ensures disk_fault { (workers : ℕ) → IsSessionWords words.now workers →
        result.status ≡ 5 → Rose (D.faults disk) (D.faults result.disk) }
    ensures without_faults { IsCheckWords words.now →
        (Rose (I.faults input.old) (I.faults input.new) → ⊥) → (Rose (O.faults output.old) (O.faults output.new) → ⊥) →
        IsUnfailedCheckStatus result.status }
    ensures demo_without_faults { (seed n : ℕ) → IsDemoWords words.now seed n →
        (Rose (O.faults output.old) (O.faults output.new) → ⊥) → IsUnfailedDemoStatus result.status }
    ensures session_unhindered { (workers : ℕ) → IsSessionWords words.now workers → D.told →
        IsUnhindered D.bytes_of D.images D.faults
        (fair (P.answers tools.now.prover.now) (P.sure tools.now.prover.now)) disk result.disk
        (reading (I.left input.old) (I.left input.new) (I.faults input.old) (I.faults input.new))
        (writing (O.written output.old) (O.written output.new) (O.faults output.old) (O.faults output.new))
        result.history.items → IsUnfailedSessionStatus result.status }
    ensures at_any_moment { (workers : ℕ) → IsSessionWords words.now workers → D.told →
        LeavesOnly D.clock D.moments disk result.disk
        (IsLeftWithin (fair (P.answers tools.now.prover.now) (P.sure tools.now.prover.now))
        (reading (I.left input.old) (I.left input.new) (I.faults input.old) (I.faults input.new))
        result.history.items (D.bytes_of disk) (D.images disk)) }
{
    match command_of(words) {
        Some(Command::Check) => with_disk(
            run_check(tools.alloc, input, output, tools.prover),
            disk,
        ),
        Some(Command::Session { workers }) => {
            of_session(run_session(tools, workers, input, output, disk))
        }
        Some(Command::Demo { seed, n }) => {
            with_disk(run_demo(tools.alloc, seed, n, output, tools.prover), disk)
        }
        None => with_disk(
            ends_with_line(tools.alloc, output, exit::BAD_WORDS, USAGE),
            disk,
        ),
    }
}

fn with_disk<D>(part: Part, disk: D) -> Run<D>
    ensures { result ≡ record { status = part.status; disk = disk; history = part.history; last = part.last } }
{
    let Part {
        status,
        history,
        last,
    } = part;
    Run {
        status,
        disk,
        history,
        last,
    }
}

fn of_session<D>(ended: Ended<D>) -> Run<D>
    ensures { result ≡
        record { status = ended.status; disk = ended.disk; history = ended.history; last = ended.last } }
{
    let Ended {
        status,
        disk,
        history,
        last,
    } = ended;
    Run {
        status,
        disk,
        history,
        last,
    }
}
