//! Sinks: what each write and each flush gives, at a call that fails, and where there is no room.

use crate::rows::{text, with_faults};
use outside::{MemorySink, Sink, StreamSink, SureSink};
use std::alloc::{AllocError, Global};
use std::collections::VecDeque;
use std::io;
use std::io::{ErrorKind, Write};

/// A call of a sink.
#[derive(Clone, Copy)]
pub enum Call<'a> {
    Write(&'a str),
    Flush,
}

fn write<S: Sink>(rt: &impl Print, sink: &mut S, piece: &str) -> io::Result<()> {
    let answer = sink.write(piece.as_bytes());
    with_faults(rt, answer, sink.faults())
}

fn flush<S: Sink>(rt: &impl Print, sink: &mut S) -> io::Result<()> {
    let answer = sink.flush();
    with_faults(rt, answer, sink.faults())
}

fn make_call<S: Sink>(rt: &impl Print, name: &str, sink: &mut S, call: Call<'_>) -> io::Result<()> {
    match call {
        Call::Write(piece) => {
            print!(rt; "{name} takes '{piece}'\t")?;
            write(rt, sink, piece)
        }
        Call::Flush => {
            print!(rt; "{name} flushed\t")?;
            flush(rt, sink)
        }
    }
}

/// Calls of a sink, one after the other.
pub fn make_each<S: Sink>(
    rt: &impl Print,
    name: &str,
    sink: &mut S,
    calls: &[Call<'_>],
) -> io::Result<()> {
    for it in calls {
        make_call(rt, name, sink, *it)?;
    }
    Ok(())
}

fn has(rt: &impl Print, name: &str, bytes: &[u8]) -> io::Result<()> {
    println!(rt; "{name} has\t{}", text(bytes))
}

// The second and the fifth call of this sink fail, and it takes 6 bytes.
fn some_listed(rt: &impl Print, sink: &mut MemorySink) -> io::Result<()> {
    for piece in &["abc", "xy", "", "defgh", "", "g", ""] {
        make_call(rt, "memory sink", sink, Call::Write(*piece))?;
        has(rt, "memory sink", sink.taken())?;
    }
    make_call(rt, "memory sink", sink, Call::Flush)
}

fn memory_sink(alloc: Global, fails: &[u64]) -> Result<MemorySink, AllocError> {
    MemorySink::new(alloc, 6, fails.to_vec(alloc)?)
}

pub fn memory(rt: &impl Print, alloc: Global) -> io::Result<()> {
    let mut sink = memory_sink(alloc, &[2, 5])?;
    some_listed(rt, &mut sink)?;
    let mut flushed = memory_sink(alloc, &[1])?;
    let calls = [Call::Flush, Call::Flush];
    make_each(
        rt,
        "memory sink whose first call fails",
        &mut flushed,
        &calls,
    )
}

const TAKEN: [Call<'_>; 3] = [Call::Write("abc"), Call::Write(""), Call::Flush];

pub fn sure(rt: &impl Print) -> io::Result<()> {
    make_each(rt, "sure sink", &mut SureSink::new(), &TAKEN)
}

// A writer whose every call fails.
#[derive(Drop)]
struct Broken;

impl Write for Broken {
    fn write(&mut self, _buf: &[u8]) -> io::Result<usize> {
        Err(io::Error::from(ErrorKind::BrokenPipe))
    }

    fn flush(&mut self) -> io::Result<()> {
        Err(io::Error::from(ErrorKind::BrokenPipe))
    }
}

fn held(rt: &impl Print, held: &mut VecDeque<u8>) -> io::Result<()> {
    make_each(rt, "stream sink", &mut StreamSink::new(held), &TAKEN)
}

// A writer that is full takes 0 bytes, which is a fault unless the piece is empty.
fn full(rt: &impl Print) -> io::Result<()> {
    let mut room = [0; 2];
    let mut sink = StreamSink::new(room.as_mut_slice());
    let calls = [Call::Write("abc"), Call::Write("c"), Call::Write("")];
    make_each(rt, "stream sink of two bytes", &mut sink, &calls)
}

fn broken_writer(rt: &impl Print) -> io::Result<()> {
    let calls = [Call::Write("abc"), Call::Flush];
    let mut sink = StreamSink::new(Broken);
    make_each(rt, "stream sink of a broken writer", &mut sink, &calls)
}

pub fn stream(rt: &impl Print, alloc: Global) -> io::Result<()> {
    let mut bytes = VecDeque::new(alloc);
    held(rt, &mut bytes)?;
    has(rt, "stream sink", bytes.make_contiguous())?;
    full(rt)?;
    broken_writer(rt)
}
