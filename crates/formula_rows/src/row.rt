//! How a row is printed.

use std::io;

/// What was called, of what, and what was answered.
pub fn row(rt: &impl Print, what: &str, of: &str, answer: &str) -> io::Result<()> {
    println!(rt; "{what} {of:?}\t{answer}")
}

pub fn yes(answer: bool) -> &'static str {
    if answer { "yes" } else { "no" }
}
