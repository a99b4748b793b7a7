//! Words and numbers one behind another.

use std::alloc::AllocError;

/// Adds words, and more behind them.
pub fn add_two(out: &mut String, words: &str, behind: &str) -> Result<(), AllocError> {
    out.push_str(words)?;
    out.push_str(behind)
}

/// Adds words, and a line feed.
pub fn add_line(out: &mut String, words: &str) -> Result<(), AllocError> {
    add_two(out, words, "\n")
}

/// Adds a number.
pub fn add_number(out: &mut String, number: u64) -> Result<(), AllocError> {
    write!(out, "{number}")?;
    Ok(())
}

/// Adds a number, and words behind it.
pub fn add_count(out: &mut String, number: u64, behind: &str) -> Result<(), AllocError> {
    add_number(out, number)?;
    out.push_str(behind)
}
