//! A source and a sink over one file: where it isn't there, is made and is cut, and where a folder has its name.

use crate::sinks::{Call, make_each};
use crate::sources::each_read;
use outside::{FileSink, FileSource};
use std::fs::{self, File};
use std::io;
use std::rt::Files;

const NAME: &str = "rodin.stream";

fn read<R: Print + Files<File = File>>(rt: &R, name: &str, rooms: &[usize]) -> io::Result<()> {
    each_read(rt, name, &mut FileSource::new(rt, NAME), rooms)
}

fn write<R: Print + Files<File = File>>(rt: &R, name: &str, calls: &[Call<'_>]) -> io::Result<()> {
    make_each(rt, name, &mut FileSink::new(rt, NAME), calls)
}

// A source that found no file stays empty, also when one is made.
fn absent<R: Print + Files<File = File>>(rt: &R) -> io::Result<()> {
    let mut source = FileSource::new(rt, NAME);
    each_read(rt, "source of no file", &mut source, &[3])?;
    write(
        rt,
        "sink that makes a file",
        &[Call::Write("abcde"), Call::Flush],
    )?;
    each_read(rt, "source of no file, once it is made", &mut source, &[3])
}

// The first call makes the file, or cuts it.
fn cut<R: Print + Files<File = File>>(rt: &R) -> io::Result<()> {
    read(rt, "source of a file", &[3, 3, 3])?;
    write(
        rt,
        "sink of a file",
        &[Call::Write("xy"), Call::Write(""), Call::Write("z")],
    )?;
    read(rt, "source of a file that was cut", &[8, 8])?;
    write(rt, "sink that is only flushed", &[Call::Flush])?;
    read(rt, "source of an empty file", &[8])
}

// A sink tries again at the next call.
fn folder<R: Print + Files<File = File>>(rt: &R) -> io::Result<()> {
    fs::remove_file(rt, NAME)?;
    fs::create_dir(rt, NAME)?;
    read(rt, "source of a folder", &[3, 3])?;
    let mut sink = FileSink::new(rt, NAME);
    make_each(
        rt,
        "sink of a folder",
        &mut sink,
        &[Call::Write("a"), Call::Flush],
    )?;
    fs::remove_dir(rt, NAME)?;
    make_each(
        rt,
        "sink of a folder, once it is gone",
        &mut sink,
        &[Call::Write("a")],
    )
}

pub fn from_nothing<R: Print + Files<File = File>>(rt: &R) -> io::Result<()> {
    let _ = fs::remove_dir(rt, NAME);
    let _ = fs::remove_file(rt, NAME);
    absent(rt)?;
    cut(rt)?;
    folder(rt)?;
    fs::remove_file(rt, NAME)
}
