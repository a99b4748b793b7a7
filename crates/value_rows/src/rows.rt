//! A row, and the answer to it.
use crate::types::type_of;
use event_values::{ReadValueFault, is_value_of, read_value, value_text};
use formula_core::{Name, Ty};
use std::alloc::Global;

/// A type, a text, and the answer that is wanted.
#[derive(Clone, Copy)]
pub struct Row<'a> {
    ty: &'a str,
    text: &'a str,
    pub wanted: &'a str,
}

/// The row of a line. None where it is a comment.
pub fn row_of(line: &str) -> Option<Row<'_>> {
    let (ty, rest) = line.split_once('\t')?;
    let (text, wanted) = rest.rsplit_once('\t')?;
    Some(Row { ty, text, wanted })
}

// Writes the value that is read, or that none is.
fn add_value(
    alloc: Global,
    text: &str,
    ty: &Ty,
    sizes: &[(Name, u32)],
    out: &mut String,
) -> Option<()> {
    match read_value(alloc, text, ty, sizes) {
        Ok(value) => {
            let printed = value_text(alloc, &value).ok()?;
            out.push_str(printed.as_str()).ok()?;
            if !is_value_of(&value, ty, sizes) {
                out.push_str(", which is none of the type").ok()?;
            }
            Some(())
        }
        Err(ReadValueFault::BadValue) => out.push_str("bad value").ok(),
        Err(ReadValueFault::OutOfMemory) => None,
    }
}

/// Writes the answer to a row.
pub fn answer(alloc: Global, row: &Row<'_>, out: &mut String) -> Option<()> {
    let ty = type_of(alloc, row.ty)?;
    let mut sizes = Vec::new(alloc);
    sizes.push((Name::read(alloc, "S").ok()?, 3)).ok()?;
    add_value(alloc, row.text, &ty, sizes.as_slice(), out)
}
