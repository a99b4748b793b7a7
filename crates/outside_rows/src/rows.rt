//! What a row prints: the call and its answer.

use std::fmt::Debug;
use std::{io, str};

/// Bytes as a text.
pub fn text(bytes: &[u8]) -> &str {
    str::from_utf8(bytes).unwrap_or("no text")
}

// The end of a row.
fn answered<T: Debug + Copy>(rt: &impl Print, answer: T) -> io::Result<()> {
    println!(rt; "\t{answer:?}")
}

/// What a call answered.
pub fn row<T: Debug + Copy>(rt: &impl Print, name: &str, answer: T) -> io::Result<()> {
    print!(rt; "{name}")?;
    answered(rt, answer)
}

/// What a call of an object answered.
pub fn tell<T: Debug + Copy>(rt: &impl Print, name: &str, what: &str, answer: T) -> io::Result<()> {
    print!(rt; "{name}: {what}")?;
    answered(rt, answer)
}

/// The end of a row: the answer, and how many faults were counted then.
pub fn with_faults<T: Debug + Copy>(rt: &impl Print, answer: T, faults: u64) -> io::Result<()> {
    println!(rt; "{answer:?}\t{faults} faults")
}

/// The end of a row: how many bytes were read, and what stands where they were read to.
pub fn read_into<T: Debug + Copy>(rt: &impl Print, answer: T, bytes: &[u8]) -> io::Result<()> {
    println!(rt; "{answer:?} {bytes:?}")
}
