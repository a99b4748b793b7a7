//! Exit statuses and last lines.
ghost use Rattle.std.specs.Prelude.{◌≡◌, IfOk, string_bytes};
ghost use Rattle.session_ends.specs.Statuses.{fault_status, store_fault_line};
ghost use Rattle.session_ends.specs.Private.{end_status, end_line, lacks_memory, status_at, ending_line};
ghost use Rattle.session_ends.specs.Statuses.{opening_status, opening_line, side_word};

use crate::exit;
use formula_core::OutOfMemory;
use outside::Side;
use project_store::OpenFault;
use session_streams::ReadEnd;
use session_talk::Ending;
use std::alloc::Global;
use std::fmt::Write;
use store_log::StoreFault;

// The status for the first fault of a store.
fn fault_status(fault: StoreFault) -> u8
    ensures { result ≡ fault_status fault }
{
    match fault {
        StoreFault::SessionFull | StoreFault::JournalFull => exit::FULL,
        StoreFault::OutOfMemory => exit::OUT_OF_MEMORY,
        StoreFault::Failed | StoreFault::DiskFault => exit::DISK_FAULT,
    }
}

// The last line for it.
fn fault_line(fault: StoreFault) -> &'static [u8]
    ensures { result.now ≡ store_fault_line fault }
{
    match fault {
        StoreFault::SessionFull => b"full: session\n",
        StoreFault::JournalFull => b"full: journal\n",
        StoreFault::OutOfMemory => b"",
        StoreFault::Failed | StoreFault::DiskFault => b"project: disk fault\n",
    }
}

// The status where the store met no fault.
fn end_status(ending: Ending) -> u8
    ensures { result ≡ end_status ending }
{
    match ending {
        Ending::Read(ReadEnd::Ended) | Ending::Quit => exit::DONE,
        Ending::CutEdit => exit::FAULTED,
        Ending::Read(ReadEnd::ReadFault) => exit::READ_FAULT,
        Ending::WriteFault => exit::WRITE_FAULT,
        Ending::Read(ReadEnd::FullInput) => exit::FULL,
        Ending::Read(ReadEnd::OutOfMemory) | Ending::OutOfMemory | Ending::Store(_) => {
            exit::OUT_OF_MEMORY
        }
    }
}

// The last line for it.
fn end_line(ending: Ending) -> &'static [u8]
    ensures { result.now ≡ end_line ending }
{
    match ending {
        Ending::CutEdit => b"input: ended inside an edit\n",
        Ending::Read(ReadEnd::ReadFault) => b"input: read fault\n",
        Ending::Read(ReadEnd::FullInput) => b"full: input\n",
        _ => b"",
    }
}

// Whether memory ran out between the acts of chair 0.
fn lacks_memory(ending: Ending) -> bool
    ensures { result ≡ lacks_memory ending }
{
    matches!(
        ending,
        Ending::Read(ReadEnd::OutOfMemory) | Ending::OutOfMemory
    )
}

// The status and the last line of a session on an opened project.
pub(crate) fn closing(ending: Ending, kept: Option<StoreFault>) -> (u8, &'static [u8])
    ensures status { result.0 ≡ status_at ending kept }
    ensures line { result.1.now ≡ ending_line ending kept }
{
    match kept {
        Some(fault) if !lacks_memory(ending) => (fault_status(fault), fault_line(fault)),
        _ => (end_status(ending), end_line(ending)),
    }
}

// The status where the project isn't opened.
pub(crate) fn opening_status(fault: OpenFault) -> u8
    ensures { result ≡ opening_status fault }
{
    match fault {
        OpenFault::Foreign(_) | OpenFault::Damaged(_, _) => exit::NO_PROJECT,
        OpenFault::TableFull(_) => exit::FULL,
        OpenFault::DiskFault => exit::DISK_FAULT,
        OpenFault::OutOfMemory => exit::OUT_OF_MEMORY,
    }
}

fn side_word(side: Side) -> &'static str
    ensures { result.now ≡ side_word side }
{
    match side {
        Side::Left => "left",
        Side::Right => "right",
    }
}

// The last line for it.
pub(crate) fn opening_line(alloc: Global, fault: OpenFault) -> Result<String, OutOfMemory>
    ensures { IfOk result (λ text. string_bytes text ≡ opening_line fault) }
{
    let mut text = String::new(alloc);
    match fault {
        OpenFault::Foreign(side) => {
            let word = side_word(side);
            writeln!(text, "project: {word} is not a journal")?;
        }
        OpenFault::Damaged(side, at) => {
            let word = side_word(side);
            writeln!(text, "project: damaged {word} at {at}")?;
        }
        OpenFault::TableFull(_) => text.push_str("full: table\n")?,
        OpenFault::DiskFault => text.push_str("project: disk fault\n")?,
        OpenFault::OutOfMemory => {}
    }
    Ok(text)
}
