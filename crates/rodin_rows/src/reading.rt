//! More of an input.

use crate::printing::add_count;
use std::alloc::{AllocError, Global};

// Adds bytes that are told by hexadecimal digits. Nothing where they aren't.
fn add_hex(alloc: Global, to: &mut Vec<u8>, hex: &str) -> Result<(), AllocError> {
    match hex::decode(alloc, hex.as_bytes()) {
        Ok(bytes) => to.extend_from_slice(&bytes),
        Err(_) => Ok(()),
    }
}

/// Adds a text so often.
pub fn add_text(to: &mut Vec<u8>, count: &str, text: &str) -> Result<(), AllocError> {
    for _ in 0..count.parse::<u32>().unwrap_or(0) {
        to.extend_from_slice(text.as_bytes())?;
    }
    Ok(())
}

/// Adds a text so often, of `N TEXT`.
pub fn add_times(to: &mut Vec<u8>, option: &str) -> Result<(), AllocError> {
    let (count, text) = option.split_once(' ').unwrap_or(("0", ""));
    add_text(to, count, text)
}

/// What stands before a number, and behind it.
pub type Frame = (&'static str, &'static str);

/// An edit of a component, to a text of one line.
pub const EDIT: Frame = ("edit c", "\nx\n.\n");

/// An empty context.
pub const CONTEXT: Frame = ("context c", " end\n");

/// A theorem with a label of its own and a goal of three nodes.
pub const THEOREM: Frame = ("theorem @t", " 1=1\n");

/// An entry that puts a text in the component `a`, up to the length of the text.
const PUT: &[u8] = b"\x01\x01\0\0\0a";

/// Adds so many texts, each with its number, from 0, in a frame.
pub fn add_numbered(
    alloc: Global,
    to: &mut Vec<u8>,
    count: &str,
    frame: Frame,
) -> Result<(), AllocError> {
    let (before, behind) = frame;
    let mut texts = String::new(alloc);
    for number in 0..count.parse::<u32>().unwrap_or(0) {
        texts.push_str(before)?;
        add_count(&mut texts, number as u64, behind)?;
    }
    to.extend_from_slice(texts.as_bytes())
}

/// The lines of a long text, and the letters of each, without its line feed.
const LONG_LINES: u32 = 1_024;

const LONG_LINE: u32 = 63;

/// Adds so many edits of one component, each with a text of 65,536 bytes of this letter, of `N LETTER`.
pub fn add_long_edits(to: &mut Vec<u8>, option: &str) -> Result<(), AllocError> {
    let (count, letter) = option.split_once(' ').unwrap_or(("0", ""));
    for _ in 0..count.parse::<u32>().unwrap_or(0) {
        to.extend_from_slice(b"edit a\n")?;
        for _ in 0..LONG_LINES {
            for _ in 0..LONG_LINE {
                to.extend_from_slice(letter.as_bytes())?;
            }
            to.push(b'\n')?;
        }
        to.extend_from_slice(b".\n")?;
    }
    Ok(())
}

// Adds so many entries, each of which puts a text of so many letters in the component `a`, of `N LENGTH`.
fn add_puts(to: &mut Vec<u8>, puts: &str) -> Result<(), AllocError> {
    let (count, length) = puts.split_once(' ').unwrap_or(("0", ""));
    let length = length.parse::<u32>().unwrap_or(0);
    for _ in 0..count.parse::<u32>().unwrap_or(0) {
        to.extend_from_slice(PUT)?;
        to.extend_from_slice(&length.to_le_bytes())?;
        for _ in 0..length {
            to.push(b'x')?;
        }
    }
    Ok(())
}

// Adds bytes that are told by hexadecimal digits so often, of `N HEX`.
fn add_hex_times(alloc: Global, to: &mut Vec<u8>, told: &str) -> Result<(), AllocError> {
    let (count, hex) = told.split_once(' ').unwrap_or(("0", ""));
    for _ in 0..count.parse::<u32>().unwrap_or(0) {
        add_hex(alloc, to, hex)?;
    }
    Ok(())
}

/// Adds bytes that are told by `HEX`, `times N HEX`, `theorems N` or `puts N LENGTH`.
pub fn add_bytes(alloc: Global, to: &mut Vec<u8>, told: &str) -> Result<(), AllocError> {
    match told.split_once(' ') {
        Some(("times", times)) => add_hex_times(alloc, to, times),
        Some(("theorems", count)) => add_numbered(alloc, to, count, THEOREM),
        Some(("puts", puts)) => add_puts(to, puts),
        _ => add_hex(alloc, to, told),
    }
}
