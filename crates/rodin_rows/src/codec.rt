//! Rows of bytes that are read as entries.
ghost use Rattle.std.specs.Prelude.{IfOk};
ghost use Rattle.std.specs.List.{AllByRecursion};
ghost use Rattle.proof_codec.specs.Entries.{AreOldEntries, IsOldEntry};

use crate::printing::{add_number, add_two};
use formula_core::OutOfMemory;
use proof_codec::{
    CodecFault, Entry, entries_are_writable, read_entries, read_entries_v1, write_entry_v1,
};
use std::alloc::{AllocError, Global};

// An entry's kind and name, the length of its text or the origin of its proof.
fn add_entry(out: &mut String, entry: &Entry) -> Result<(), AllocError> {
    match entry {
        Entry::Put(name, text) => {
            add_two(out, " put ", name.as_text())?;
            out.push(' ')?;
            add_number(out, text.as_text().len() as u64)
        }
        Entry::Drop(name) => add_two(out, " drop ", name.as_text()),
        Entry::Build => out.push_str(" build"),
        Entry::SetProof(name, proof) => {
            add_two(out, " proof ", name.as_text())?;
            write!(out, " by {:?}", proof.origin)?;
            Ok(())
        }
        Entry::Purge(names) => {
            out.push_str(" purge ")?;
            add_number(out, names.items().len() as u64)
        }
    }
}

// The entries that were read, or where they end.
fn add_read(
    out: &mut String,
    words: &str,
    read: &Result<Vec<Entry>, CodecFault>,
) -> Result<(), AllocError> {
    out.push_str(words)?;
    match read {
        Ok(entries) => {
            for entry in entries.iter() {
                add_entry(out, entry)?;
            }
            Ok(())
        }
        Err(CodecFault::BadBytes(at)) => {
            out.push_str(" bad bytes at ")?;
            add_number(out, *at)
        }
        Err(CodecFault::OutOfMemory) => Err(AllocError),
    }
}

// Writes an entry that was read in version 1.
fn write_again(entry: &Entry, bytes: &mut Vec<u8>) -> Result<(), OutOfMemory>
    requires { IsOldEntry entry.now }
{
    entries_are_writable(entry);
    write_entry_v1(entry, bytes)
}

// Writes entries that were read in version 1, one behind another.
#[tactic(auto, using(proof_codec::proofs::Writing::fitting_at))]
fn write_all(entries: &[Entry], bytes: &mut Vec<u8>) -> Result<(), OutOfMemory>
    requires { AllByRecursion IsOldEntry entries.now }
{
    for entry in entries {
        write_again(entry, bytes)?;
    }
    Ok(())
}

// Adds whether entries are written to the bytes that they were read from.
fn add_written(
    alloc: Global,
    out: &mut String,
    entries: &[Entry],
    bytes: &[u8],
) -> Result<(), AllocError>
    requires { AreOldEntries entries.now bytes.now }
{
    let mut written = Vec::new(alloc);
    if write_all(entries, &mut written).is_err() {
        return Err(AllocError);
    }
    out.push_str(if written.as_slice() == bytes {
        " written again"
    } else {
        " written otherwise"
    })
}

// What reading gave of bytes in version 1, and whether the entries are written to these bytes again.
fn add_first(
    alloc: Global,
    out: &mut String,
    bytes: &[u8],
    read: &Result<Vec<Entry>, CodecFault>,
) -> Result<(), AllocError>
    requires { IfOk read.now (λ entries. AreOldEntries entries.items bytes.now) }
{
    add_read(out, "version 1:", read)?;
    if let Ok(entries) = read {
        add_written(alloc, out, entries, bytes)?;
    }
    out.push('\n')
}

// What reading gave of bytes in version 2.
fn add_second(out: &mut String, read: &Result<Vec<Entry>, CodecFault>) -> Result<(), AllocError> {
    add_read(out, "version 2:", read)?;
    out.push('\n')
}

/// Adds what reading gives of bytes, in both versions. What is read in version 1 is written again.
pub fn add_entries(alloc: Global, bytes: &[u8], out: &mut String) -> Result<(), AllocError> {
    let first = read_entries_v1(alloc, bytes);
    let told = add_first(alloc, out, bytes, &first);
    drop(first);
    told?;
    let second = read_entries(alloc, bytes);
    let told = add_second(out, &second);
    drop(second);
    told
}
