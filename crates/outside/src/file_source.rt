// A file of the working directory as a source.
ghost use Rattle.std.specs.Prelude.{◌≡◌, ◌≤◌, length, IfOk, IsErr, OnOk, Ok, true, false, None};
ghost use Rattle.std.specs.Io.{ReadsAtMost};
ghost use Rattle.std.specs.Io.KnownBytes.{ReadConsumes};
ghost use Rattle.outside.specs.Cause.{CountsFault, HasCause};
ghost use Rattle.outside.specs.Files.{LeavesEachStream, StaysOpen};
ghost use Rattle.outside.specs.Private.{descriptor_of, HasNoStream};

use crate::faults::Faults;
use crate::standard_streams::{fill_streams, no_stream};
use crate::{Failed, Source};
use std::fs::File;
use std::io::{self, Read};
use std::marker::Model;
use std::rt::Files;

/// A file of the working directory as a source, which tells no content. Each error of the file is a fault, an interruption
/// too, and no read is tried again.
///
/// It is opened at the first read. Where that can't be done the read fails, and the next one tries again. A file that isn't
/// there then is empty, and isn't looked for again. A file with the descriptor of a standard stream is a fault. Opening a
/// named pipe waits for one who writes to it.
#[derive(Drop)]
pub struct FileSource<'a, R: Files<File = File>> {
    rt: &'a R,
    path: &'a str,
    is_open: bool,
    file: Option<File>,
    faults: Faults,
}

impl<'a, R: Files<File = File>> Model for FileSource<'a, R> {
    ghost use Rattle.outside.specs.Files.{StreamOfFile};
    ghost use Rattle.outside.specs.Private.{descriptor_of, HasNoStream};

    ghost Value = { StreamOfFile };

    ghost view = { λ s. record {
      opened = s.is_open;
      descriptor = descriptor_of s.file;
      faults = s.faults;
    } };

    ghost invariant = { λ s. HasNoStream s.file };
}

// Opens a file, if it is there.
fn open<R: Files<File = File>>(rt: &R, path: &str) -> io::Result<Option<File>>
    ensures { IfOk result HasNoStream }
{
    fill_streams(rt)?;
    match File::open(rt, path) {
        Ok(file) => Ok(Some(no_stream(file)?)),
        Err(error) if error.kind() == io::ErrorKind::NotFound => Ok(None),
        Err(error) => Err(error),
    }
}

fn read_there(file: &Option<File>, into: &mut [u8]) -> io::Result<usize>
    ensures bound { ReadsAtMost result into.new }
    ensures absent { descriptor_of file.now ≡ None → result ≡ Ok 0 }
{
    match file {
        None => Ok(0),
        Some(file) => {
            let mut reader = file;
            reader.read(into)
        }
    }
}

impl<'a, R: Files<File = File>> FileSource<'a, R> {
    /// A source over the file of this name, which isn't opened yet.
    pub fn new(rt: &'a R, path: &'a str) -> FileSource<'a, R>
        ensures fresh { (result.opened ≡ false) × (result.faults ≡ 0) }
        ensures streams { LeavesEachStream result }
    {
        FileSource {
            rt,
            path,
            is_open: false,
            file: None,
            faults: Faults::new(),
        }
    }

    // Opens the file, if no call has done so.
    fn open(&mut self) -> Result<(), Failed>
        ensures cause { HasCause self.old.faults self.new.faults result }
        ensures counted { CountsFault self.old.faults self.new.faults result }
        ensures opens { OnOk result (self.new.opened ≡ true) }
        ensures fails { IsErr result → self.new.opened ≡ false }
        ensures same { self.old.opened ≡ true → self.new ≡ self.old }
        ensures streams { LeavesEachStream self.new }
    {
        if self.is_open {
            return Ok(());
        }
        match open(self.rt, self.path) {
            Ok(file) => {
                self.file = file;
                self.is_open = true;
                Ok(())
            }
            Err(_) => Err(self.faults.fail()),
        }
    }
}

impl<'a, R: Files<File = File>> Source for FileSource<'a, R> {
    // It reports nothing.
    ghost left = { λ _. None };

    ghost faults = { λ s. s.faults };

    fn faults(&self) -> u64 {
        self.faults.count()
    }

    fn read(&mut self, into: &mut [u8]) -> Result<usize, Failed>
        ensures bound { ReadsAtMost result into.new }
        ensures bytes { ReadConsumes None None result into.new }
        ensures cause { HasCause self.old.faults self.new.faults result }
        ensures counted { CountsFault self.old.faults self.new.faults result }

        // A file that isn't there is empty.
        ensures absent { self.new.opened ≡ true → self.new.descriptor ≡ None → result ≡ Ok 0 }
        ensures stays { StaysOpen self.old self.new }
        ensures opens { OnOk result (self.new.opened ≡ true) }
        ensures streams { LeavesEachStream self.new }
    {
        self.open()?;
        match read_there(&self.file, into) {
            Ok(count) => Ok(count),
            Err(_) => Err(self.faults.fail()),
        }
    }
}
