//! Values as texts.

use std::alloc::AllocError;
use std::fmt::Debug;

/// Writes the value by its own names.
pub fn write_value<T: Debug>(out: &mut String, value: &T) -> Result<(), AllocError> {
    write!(out, "{value:?}")
}

/// Writes a number behind some words.
pub fn write_number(out: &mut String, before: &str, number: u32) -> Result<(), AllocError> {
    out.push_str(before)?;
    write_value(out, &number)
}
