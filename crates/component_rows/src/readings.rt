//! What components are read as, and printed.

use crate::shape::add_shape;
use crate::told::add_place;
use camille_text::{ReadFault, print, read};
use component_tokens::position_of;
use formula_core::Name;
use model_core::Fault;
use std::alloc::{AllocError, Global};

/// The reader counts the bytes of a text in 32 bits.
pub const LONGEST: usize = u32::MAX as usize;

fn add_fault(text: &str, fault: &Fault, out: &mut String) -> Result<(), AllocError> {
    let at = position_of(text, (fault.place as usize).min(text.len()));
    add_place(fault, at.line, at.column, out)?;
    out.push_str(fault.words.as_text())
}

fn add_read_fault(text: &str, fault: &ReadFault, out: &mut String) -> Result<(), AllocError> {
    match fault {
        ReadFault::Fault(fault) => add_fault(text, fault, out),
        ReadFault::OutOfMemory => out.push_str("out of memory"),
    }
}

/// Adds what a text of the component is read as.
pub fn add_reading(
    alloc: Global,
    name: &Name,
    text: &str,
    out: &mut String,
) -> Result<(), AllocError> {
    if LONGEST < text.len() {
        return out.push_str("too long");
    }
    match read(alloc, name, text) {
        Ok(component) => add_shape(&component, out),
        Err(fault) => add_read_fault(text, &fault, out),
    }
}

/// The printed text of what a text is read as. One that is too long finds no memory.
fn printed(alloc: Global, name: &Name, text: &str) -> Result<String, ReadFault> {
    if LONGEST < text.len() {
        return Err(ReadFault::OutOfMemory);
    }
    let component = read(alloc, name, text)?;
    match print(alloc, &component) {
        Ok(text) => Ok(text),
        Err(_) => Err(ReadFault::OutOfMemory),
    }
}

/// Adds whether a printed text is read and printed as itself.
fn add_kept(alloc: Global, name: &Name, text: &str, out: &mut String) -> Result<(), AllocError> {
    match printed(alloc, name, text) {
        Ok(again) => out.push_str(if again.as_str() == text {
            "kept"
        } else {
            "changed"
        }),
        Err(fault) => add_read_fault(text, &fault, out),
    }
}

/// Adds the printed text of a component if it is to be shown, and what is read of it.
pub fn add_again(
    alloc: Global,
    name: &Name,
    text: &str,
    shown: bool,
    out: &mut String,
) -> Result<(), AllocError> {
    match printed(alloc, name, text) {
        Ok(printed) => {
            if shown {
                out.push_str(&printed)?;
            }
            add_kept(alloc, name, &printed, out)
        }
        Err(fault) => add_read_fault(text, &fault, out),
    }
}

/// Adds the printed text of the component of a name, and what is read of it.
pub fn add_printed(
    alloc: Global,
    name: &str,
    text: &str,
    out: &mut String,
) -> Result<(), AllocError> {
    match Name::read(alloc, name) {
        Ok(name) => add_again(alloc, &name, text, true, out)?,
        Err(_) => out.push_str("no name")?,
    }
    out.push_str("\n")
}
