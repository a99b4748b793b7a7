// A file of the working directory as a sink.
ghost use Rattle.std.specs.Prelude.{◌≡◌, ◌<◌, length, IfOk, IsErr, OnOk, is_some, true, false, None};
ghost use Rattle.std.specs.Fd.{file_raw_fd};
ghost use Rattle.std.specs.Io.{WritesAtMost};
ghost use Rattle.std.specs.Io.KnownBytes.{WriteAppends, Keeps};
ghost use Rattle.outside.specs.Cause.{CountsFault, HasCause};
ghost use Rattle.outside.specs.Files.{IsNoStream, LeavesEachStream, StaysOpen};

use crate::faults::Faults;
use crate::standard_streams::{fill_streams, no_stream};
use crate::{Failed, Sink};
use std::fs::File;
use std::io::{self, Write};
use std::marker::Model;
use std::rt::Files;

/// A file of the working directory as a sink, which tells no content. Each error of the file is a fault, and so is a write
/// of 0 bytes of a piece that isn't empty.
///
/// It is made, or cut to 0 bytes where it is there, by the first write or flush. Where that can't be done the call fails,
/// and the next one tries again. A file with the descriptor of a standard stream is a fault. A write keeps nothing back.
/// Opening a named pipe waits for one who reads from it.
#[derive(Drop)]
pub struct FileSink<'a, R: Files<File = File>> {
    rt: &'a R,
    path: &'a str,
    file: Option<File>,
    faults: Faults,
}

impl<'a, R: Files<File = File>> Model for FileSink<'a, R> {
    ghost use Rattle.std.specs.Prelude.{is_some};
    ghost use Rattle.outside.specs.Files.{StreamOfFile};
    ghost use Rattle.outside.specs.Private.{descriptor_of, HasNoStream};

    ghost Value = { StreamOfFile };

    ghost view = { λ s. record {
      opened = is_some (descriptor_of s.file);
      descriptor = descriptor_of s.file;
      faults = s.faults;
    } };

    ghost invariant = { λ s. HasNoStream s.file };
}

// Makes a file, or cuts it to 0 bytes.
fn make<R: Files<File = File>>(rt: &R, path: &str) -> io::Result<File>
    ensures { IfOk result (λ file. IsNoStream (file_raw_fd file)) }
{
    fill_streams(rt)?;
    no_stream(File::create(rt, path)?)
}

fn write_there(file: &Option<File>, piece: &[u8]) -> io::Result<usize>
    ensures { WritesAtMost result piece.now }
{
    match file {
        None => Ok(0),
        Some(file) => {
            let mut writer = file;
            writer.write(piece)
        }
    }
}

fn flush_there(file: &Option<File>) -> io::Result<()> {
    match file {
        None => Ok(()),
        Some(file) => {
            let mut writer = file;
            writer.flush()
        }
    }
}

impl<'a, R: Files<File = File>> FileSink<'a, R> {
    /// A sink over the file of this name, which isn't opened yet.
    pub fn new(rt: &'a R, path: &'a str) -> FileSink<'a, R>
        ensures fresh { (result.opened ≡ false) × (result.faults ≡ 0) }
        ensures streams { LeavesEachStream result }
    {
        FileSink {
            rt,
            path,
            file: None,
            faults: Faults::new(),
        }
    }

    // Opens the file, if no call has done so.
    fn open(&mut self) -> Result<(), Failed>
        ensures cause { HasCause self.old.faults self.new.faults result }
        ensures counted { CountsFault self.old.faults self.new.faults result }
        ensures opens { OnOk result (self.new.opened ≡ true) }
        ensures fails { IsErr result → self.new.opened ≡ false }
        ensures same { self.old.opened ≡ true → self.new ≡ self.old }
        ensures streams { LeavesEachStream self.new }
    {
        if self.file.is_some() {
            return Ok(());
        }
        match make(self.rt, self.path) {
            Ok(file) => {
                self.file = Some(file);
                Ok(())
            }
            Err(_) => Err(self.faults.fail()),
        }
    }
}

impl<'a, R: Files<File = File>> Sink for FileSink<'a, R> {
    // It reports nothing.
    ghost written = { λ _. None };

    ghost faults = { λ s. s.faults };

    fn faults(&self) -> u64 {
        self.faults.count()
    }

    fn write(&mut self, piece: &[u8]) -> Result<usize, Failed>
        ensures bound { WritesAtMost result piece.now }
        ensures some { 0 < length piece.now → IfOk result (λ n. 0 < n) }
        ensures bytes { WriteAppends None None result piece.now }
        ensures cause { HasCause self.old.faults self.new.faults result }
        ensures counted { CountsFault self.old.faults self.new.faults result }
        ensures stays { StaysOpen self.old self.new }
        ensures opens { OnOk result (self.new.opened ≡ true) }
        ensures streams { LeavesEachStream self.new }
    {
        self.open()?;
        match write_there(&self.file, piece) {
            Ok(count) if count > 0 || piece.is_empty() => Ok(count),
            _ => Err(self.faults.fail()),
        }
    }

    fn flush(&mut self) -> Result<(), Failed>
        ensures cause { HasCause self.old.faults self.new.faults result }
        ensures counted { CountsFault self.old.faults self.new.faults result }
        ensures stays { StaysOpen self.old self.new }
        ensures opens { OnOk result (self.new.opened ≡ true) }
        ensures streams { LeavesEachStream self.new }
    {
        self.open()?;
        match flush_there(&self.file) {
            Ok(()) => Ok(()),
            Err(_) => Err(self.faults.fail()),
        }
    }
}
