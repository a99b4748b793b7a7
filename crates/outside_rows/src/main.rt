//! What the sources, sinks and disks of `outside` give, and what a journal on them keeps, row by row: also where a call fails,
//! and where the machine stops inside a call.
#![tactic(auto)]

mod disks;
mod file_streams;
mod files;
mod journals;
mod rows;
mod sinks;
mod sources;
mod stops;

use std::io;

fn main(rt: HostRuntime) -> io::Result<()> {
    let alloc = rt.alloc();
    sources::memory(&rt, alloc)?;
    sources::sure(&rt, alloc)?;
    sources::stream(&rt)?;
    sinks::memory(&rt, alloc)?;
    sinks::sure(&rt)?;
    sinks::stream(&rt, alloc)?;
    disks::null(&rt)?;
    disks::memory(&rt, alloc)?;
    disks::images(&rt, alloc)?;
    disks::sure(&rt, alloc)?;
    files::two_disks(&rt)?;
    file_streams::from_nothing(&rt)?;
    journals::refused(&rt, alloc)?;
    journals::standing(&rt, alloc)?;
    journals::written(&rt, alloc)?;
    journals::last_generation(&rt, alloc)?;
    journals::full(&rt, alloc)?;
    stops::inside_each_call(&rt, alloc)?;
    stops::where_one_call_fails(&rt, alloc)
}
