//! Sources: what each read gives, at a call that fails and at the end too.

use crate::rows::text;
use outside::{Failed, MemorySource, Source, StreamSource, SureSource};
use std::alloc::Global;
use std::io::{self, Cursor, ErrorKind, Read};

fn print_read(
    rt: &impl Print,
    got: Result<usize, Failed>,
    bytes: &[u8],
    faults: u64,
) -> io::Result<()> {
    println!(rt; "{got:?} {}\t{faults} faults", text(bytes))
}

// A read into a slice of so many bytes, at most 8.
fn read<S: Source>(rt: &impl Print, source: &mut S, room: usize) -> io::Result<()> {
    let mut into = [0; 8];
    let into = &mut into[..room.min(8)];
    let got = source.read(into);
    let count = got.unwrap_or(0);
    print_read(rt, got, &into[..count], source.faults())
}

/// Reads of a source, one after the other, into slices of so many bytes.
pub fn each_read<S: Source>(
    rt: &impl Print,
    name: &str,
    source: &mut S,
    rooms: &[usize],
) -> io::Result<()> {
    for room in rooms {
        print!(rt; "{name} into {room}\t")?;
        read(rt, source, *room)?;
    }
    Ok(())
}

/// The second and the fifth call of this source fail.
pub fn memory(rt: &impl Print, alloc: Global) -> io::Result<()> {
    let bytes = b"abcdefg".to_vec(alloc)?;
    let mut source = MemorySource::new(bytes, 3, [2, 5].to_vec(alloc)?);
    each_read(rt, "memory source", &mut source, &[8, 8, 2, 0, 8, 8, 8, 8])
}

pub fn sure(rt: &impl Print, alloc: Global) -> io::Result<()> {
    let mut source = SureSource::new(b"abcde".to_vec(alloc)?, 2);
    each_read(rt, "sure source", &mut source, &[8, 8, 8, 8])
}

// A reader whose every call fails.
#[derive(Drop)]
struct Broken;

impl Read for Broken {
    fn read(&mut self, _buf: &mut [u8]) -> io::Result<usize> {
        Err(io::Error::from(ErrorKind::BrokenPipe))
    }
}

pub fn stream(rt: &impl Print) -> io::Result<()> {
    let bytes: &[u8] = b"abcde";
    let mut source = StreamSource::new(Cursor::new(bytes));
    each_read(rt, "stream source", &mut source, &[3, 3, 3])?;
    let mut broken = StreamSource::new(Broken);
    each_read(rt, "stream source of a broken reader", &mut broken, &[3, 3])
}
