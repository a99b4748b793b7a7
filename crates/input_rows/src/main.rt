//! Inputs as they are cut into components or refused, and an input that comes in pieces with the commands that it gives.
//!
//! Bytes are printed as escapes of ASCII, a blank of two bytes as `\xc2\xa0`.
#![tactic(auto)]

mod commands;
mod inputs;

use crate::commands::write_commands;
use crate::inputs::write_inputs;
use std::io;

fn main(rt: HostRuntime) -> io::Result<()> {
    let alloc = rt.alloc();
    let mut rows = String::new(alloc);
    write_inputs(alloc, &mut rows)?;
    write_commands(alloc, &mut rows)?;
    rt.print(rows.as_str())
}
