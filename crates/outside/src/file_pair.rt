// Two files of the working directory as a disk.
ghost use Rattle.std.specs.Prelude.{◌≡◌, ◌↔◌, ◌+◌, ◌<◌, ◌≤◌, ◌^◌, [], length, take, IfOk, IsOk, IsErr, OnOk, Ok, is_some, true, false, None};
ghost use Rattle.std.specs.Fd.{file_raw_fd};
ghost use Rattle.std.specs.Io.{ReadsAtMost};
ghost use Rattle.outside.specs.Cause.{CountsFault, HasCause};
ghost use Rattle.outside.specs.Files.{is_there, IsAbsent, SameFiles, KeepsFiles, IsNoStream, LeavesStreams};
ghost use Rattle.outside.specs.Private.{descriptor_of, HasNoStream};
ghost use Rattle.outside.specs.Disk.{overwritten, Torn, TornCut, OnSide, ReadsSide, Leaves, SameImages, Syncs, Elapses, ReadsAt};

use crate::faults::Faults;
use crate::standard_streams::{fill_streams, no_stream};
use crate::{Disk, Failed, Side};
use std::fs::{File, OpenOptions};
use std::io::{self, Read, Seek, SeekFrom, Write};
use std::marker::Model;
use std::rt::Files;

/// The files `rodin.left` and `rodin.right` of the working directory as a disk, which tells no content. Each error of a
/// file is a fault.
///
/// A file that isn't there has length 0 and is made by the first write; until then its `cut` and `sync` do nothing.
/// Those that are there are opened at the first call that can fail. Where that can't be done the call fails, and the
/// next one tries again.
///
/// A file is locked until the disk is dropped, and a write makes only a file that no one else has made meanwhile. So a
/// second disk in the same directory fails, and writes nothing. Before a file is opened, each standard stream that is
/// closed is given the directory, which can be neither read nor written as a file, so the stream still fails. A file
/// with the descriptor of a standard stream is a fault. What is opened is synced before it is read, with the
/// directory, and a file that is made counts once the directory is synced. What a failed sync of an earlier program
/// left in the system's cache stays there: std has no call that drops it.
#[derive(Drop)]
pub struct FilePair<'a, R: Files<File = File>> {
    rt: &'a R,
    is_open: bool,
    left: Option<File>,
    right: Option<File>,
    faults: Faults,
}

impl<'a, R: Files<File = File>> Model for FilePair<'a, R> {
    ghost use Rattle.outside.specs.Files.{FilesOfDisk};
    ghost use Rattle.outside.specs.Private.{descriptor_of, HasNoStream};

    ghost Value = { FilesOfDisk };

    ghost view = { λ d. record {
      opened = d.is_open;
      left = descriptor_of d.left;
      right = descriptor_of d.right;
      faults = d.faults;
    } };

    ghost invariant = { λ d. HasNoStream d.left × HasNoStream d.right };
}

// Makes the names of the files outlast a stop of the machine.
fn sync_folder<R: Files<File = File>>(rt: &R) -> io::Result<()> {
    File::open(rt, ".")?.sync_all()
}

// Opens a file that is there, locks it and syncs what another program may have left of it.
fn open<R: Files<File = File>>(rt: &R, path: &str) -> io::Result<Option<File>>
    ensures { IfOk result HasNoStream }
{
    match OpenOptions::new().read(true).write(true).open(rt, path) {
        Ok(file) => {
            let file = no_stream(file)?;
            file.try_lock()?;
            file.sync_all()?;
            Ok(Some(file))
        }
        Err(error) if error.kind() == io::ErrorKind::NotFound => Ok(None),
        Err(error) => Err(error),
    }
}

fn open_both<R: Files<File = File>>(rt: &R) -> io::Result<(Option<File>, Option<File>)>
    ensures { IfOk result (λ files. HasNoStream files.0 × HasNoStream files.1) }
{
    fill_streams(rt)?;
    let left = open(rt, path_of(Side::Left))?;
    let right = open(rt, path_of(Side::Right))?;
    sync_folder(rt)?;
    Ok((left, right))
}

// Makes a file that isn't there, and locks it.
fn make<R: Files<File = File>>(rt: &R, path: &str) -> io::Result<File>
    ensures { IfOk result (λ file. IsNoStream (file_raw_fd file)) }
{
    let file = no_stream(File::create_new(rt, path)?)?;
    file.try_lock()?;
    sync_folder(rt)?;
    Ok(file)
}

fn read_all<F: Read + Seek>(file: &mut F, at: u64, into: &mut [u8]) -> io::Result<usize>
    ensures { IfOk result (λ n. n ≤ length into.new) }
{
    file.seek(SeekFrom::Start(at))?;
    let mut filled = 0;
    while filled < into.len() {
        let count = file.read(&mut into[filled..])?;
        if count == 0 {
            break;
        }
        filled += count;
    }
    Ok(filled)
}

fn write_all<F: Write + Seek>(file: &mut F, at: u64, bytes: &[u8]) -> io::Result<()> {
    file.seek(SeekFrom::Start(at))?;
    file.write_all(bytes)
}

fn path_of(side: Side) -> &'static str {
    match side {
        Side::Left => "rodin.left",
        Side::Right => "rodin.right",
    }
}

// The answer, with an error counted as a fault.
fn counted<T>(faults: &mut Faults, answer: io::Result<T>) -> Result<T, Failed>
    ensures cause { HasCause faults.old faults.new result }
    ensures counted { CountsFault faults.old faults.new result }
    ensures value { IfOk result (λ value. answer ≡ Ok value) }
    ensures ok { (value : T) → answer ≡ Ok value → result ≡ Ok value }
    ensures sure { IsOk answer → IsOk result }
    ensures same { (value : T) → answer ≡ Ok value → faults.new ≡ faults.old }
{
    match answer {
        Ok(value) => Ok(value),
        Err(_) => Err(faults.fail()),
    }
}

impl<'a, R: Files<File = File>> FilePair<'a, R> {
    /// The two files, none of which is opened yet.
    pub fn new(rt: &'a R) -> FilePair<'a, R>
        ensures fresh { (result.opened ≡ false) × (result.faults ≡ 0) }
        ensures streams { LeavesStreams result }
    {
        FilePair {
            rt,
            is_open: false,
            left: None,
            right: None,
            faults: Faults::new(),
        }
    }

    // Opens the files, if no call has done so.
    fn open(&mut self) -> Result<(), Failed>
        ensures cause { HasCause self.old.faults self.new.faults result }
        ensures counted { CountsFault self.old.faults self.new.faults result }
        ensures opens { OnOk result (self.new.opened ≡ true) }
        ensures fails { IsErr result → self.new.opened ≡ false }
        ensures same { self.old.opened ≡ true → self.new ≡ self.old }
        ensures streams { LeavesStreams self.new }
    {
        if self.is_open {
            return Ok(());
        }
        let (left, right) = counted(&mut self.faults, open_both(self.rt))?;
        self.left = left;
        self.right = right;
        self.is_open = true;
        Ok(())
    }
}

fn length_of(file: &Option<File>) -> io::Result<u64>
    ensures { descriptor_of file.now ≡ None → result ≡ Ok 0 }
{
    match file {
        None => Ok(0),
        Some(file) => Ok(file.metadata()?.len()),
    }
}

fn read_side(file: &Option<File>, at: u64, into: &mut [u8]) -> io::Result<usize>
    ensures bound { IfOk result (λ n. n ≤ length into.new) }
    ensures absent { descriptor_of file.now ≡ None → result ≡ Ok 0 }
{
    match file {
        None => Ok(0),
        Some(file) => {
            let mut reader = file;
            read_all(&mut reader, at, into)
        }
    }
}

// Writes into a file, if it is there.
fn write_there(file: &Option<File>, at: u64, bytes: &[u8]) -> io::Result<()> {
    match file {
        None => Ok(()),
        Some(file) => {
            let mut writer = file;
            write_all(&mut writer, at, bytes)
        }
    }
}

fn write_side<R: Files<File = File>>(
    rt: &R,
    path: &str,
    file: &mut Option<File>,
    at: u64,
    bytes: &[u8],
) -> io::Result<()>
    ensures made { OnOk result (is_some (descriptor_of file.new) ≡ true) }
    ensures kept { is_some (descriptor_of file.old) ≡ true → descriptor_of file.new ≡ descriptor_of file.old }
    ensures streams { HasNoStream file.old → HasNoStream file.new }
{
    if file.is_none() {
        *file = Some(make(rt, path)?);
    }
    write_there(file, at, bytes)
}

fn cut_side(file: &Option<File>, len: u64) -> io::Result<()>
    ensures { descriptor_of file.now ≡ None → IsOk result }
{
    match file {
        None => Ok(()),
        Some(file) => file.set_len(len),
    }
}

fn sync_side(file: &Option<File>) -> io::Result<()>
    ensures { descriptor_of file.now ≡ None → IsOk result }
{
    match file {
        None => Ok(()),
        Some(file) => file.sync_all(),
    }
}

impl<'a, R: Files<File = File>> Disk for FilePair<'a, R> {
    // It reports nothing, so what the trait says of a content says nothing here.
    ghost told = { ⊥ };

    ghost bytes_of = { λ _ _. [] };

    ghost images = { λ _ _. ⊥ };

    ghost clock = { λ _. 0 };

    ghost moments = { λ _ _ _. ⊥ };

    ghost faults = { λ d. d.faults };

    ghost counts_now = { λ no _ _ _ _ now. now };

    ghost only_now = { λ no _ _ since. since };

    fn faults(&self) -> u64 {
        self.faults.count()
    }

    fn len(&mut self, side: Side) -> Result<u64, Failed>
        ensures len { ⊥ → IfOk result (λ n. n ≡ 0) }
        ensures images { ⊥ → SameImages (λ _. ⊥) (λ _. ⊥) }
        ensures time { ⊥ → Elapses 0 0 (λ _ _. ⊥) (λ _ _. ⊥) (λ _. ⊥) }
        ensures cause { HasCause self.old.faults self.new.faults result }
        ensures counted { CountsFault self.old.faults self.new.faults result }

        // A file that isn't there has length 0.
        ensures absent { IsAbsent self.new side → result ≡ Ok 0 }
        ensures files { SameFiles self.old self.new }
        ensures opens { OnOk result (self.new.opened ≡ true) }
        ensures streams { LeavesStreams self.new }
    {
        self.open()?;
        let answer = match side {
            Side::Left => length_of(&self.left),
            Side::Right => length_of(&self.right),
        };
        counted(&mut self.faults, answer)
    }

    fn read_at(&mut self, side: Side, at: u64, into: &mut [u8]) -> Result<usize, Failed>
        ensures bound { ReadsAtMost result into.new }
        ensures read { ⊥ → IfOk result (λ n. ReadsAt [] at n into.old into.new) }
        ensures images { ⊥ → SameImages (λ _. ⊥) (λ _. ⊥) }
        ensures time { ⊥ → Elapses 0 0 (λ _ _. ⊥) (λ _ _. ⊥) (λ _. ⊥) }
        ensures cause { HasCause self.old.faults self.new.faults result }
        ensures counted { CountsFault self.old.faults self.new.faults result }

        // A file that isn't there has length 0.
        ensures absent { IsAbsent self.new side → result ≡ Ok 0 }
        ensures files { SameFiles self.old self.new }
        ensures opens { OnOk result (self.new.opened ≡ true) }
        ensures streams { LeavesStreams self.new }
    {
        self.open()?;
        match side {
            Side::Left => counted(&mut self.faults, read_side(&self.left, at, into)),
            Side::Right => counted(&mut self.faults, read_side(&self.right, at, into)),
        }
    }

    fn write_at(&mut self, side: Side, at: u64, bytes: &[u8]) -> Result<(), Failed>
        requires fits { at + length bytes.now < 2 ^ 64 }
        ensures bytes { ⊥ → ReadsSide side (overwritten at bytes.now []) result (λ _. []) (λ _. []) }
        ensures images { ⊥ → Leaves (OnSide side (Torn at (length bytes.now))) result (λ _. ⊥) (λ _. ⊥) }
        ensures time { ⊥ → Elapses 0 0 (λ _ _. ⊥) (λ _ _. ⊥) (λ _. ⊥) }
        ensures cause { HasCause self.old.faults self.new.faults result }
        ensures counted { CountsFault self.old.faults self.new.faults result }

        // A write makes a file that isn't there.
        ensures made { OnOk result (is_there self.new side ≡ true) }
        ensures files { KeepsFiles self.old self.new }
        ensures opens { OnOk result (self.new.opened ≡ true) }
        ensures streams { LeavesStreams self.new }
    {
        self.open()?;
        let answer = match side {
            Side::Left => write_side(self.rt, path_of(side), &mut self.left, at, bytes),
            Side::Right => write_side(self.rt, path_of(side), &mut self.right, at, bytes),
        };
        counted(&mut self.faults, answer)
    }

    fn cut(&mut self, side: Side, len: u64) -> Result<(), Failed>
        ensures bytes { ⊥ → ReadsSide side (take «len» []) result (λ _. []) (λ _. []) }
        ensures images { ⊥ → Leaves (OnSide side (TornCut «len»)) result (λ _. ⊥) (λ _. ⊥) }
        ensures time { ⊥ → Elapses 0 0 (λ _ _. ⊥) (λ _ _. ⊥) (λ _. ⊥) }
        ensures cause { HasCause self.old.faults self.new.faults result }
        ensures counted { CountsFault self.old.faults self.new.faults result }

        // Without a file this does nothing.
        ensures absent { IsAbsent self.new side → IsOk result }
        ensures files { SameFiles self.old self.new }
        ensures opens { OnOk result (self.new.opened ≡ true) }
        ensures streams { LeavesStreams self.new }
    {
        self.open()?;
        let answer = match side {
            Side::Left => cut_side(&self.left, len),
            Side::Right => cut_side(&self.right, len),
        };
        counted(&mut self.faults, answer)
    }

    fn sync(&mut self, side: Side) -> Result<(), Failed>
        ensures images { ⊥ → Syncs side [] result (λ _. ⊥) (λ _. ⊥) }
        ensures time { ⊥ → Elapses 0 0 (λ _ _. ⊥) (λ _ _. ⊥) (λ _. ⊥) }
        ensures cause { HasCause self.old.faults self.new.faults result }
        ensures counted { CountsFault self.old.faults self.new.faults result }

        // Without a file this does nothing.
        ensures absent { IsAbsent self.new side → IsOk result }
        ensures files { SameFiles self.old self.new }
        ensures opens { OnOk result (self.new.opened ≡ true) }
        ensures streams { LeavesStreams self.new }
    {
        self.open()?;
        let answer = match side {
            Side::Left => sync_side(&self.left),
            Side::Right => sync_side(&self.right),
        };
        counted(&mut self.faults, answer)
    }
}
