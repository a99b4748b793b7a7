//! The disk of two files: it makes them at the first write, keeps them for itself, and tries again where they can't be opened.

use crate::disks::{Call, Change, EMPTY, OnSide, SYNC, cut_at, make_calls, make_each, write_at};
use crate::rows::{row, tell};
use outside::{Disk, FilePair, Side};
use std::fs::{self, File};
use std::io;
use std::rt::Files;

// One step over two disks of the same files.
#[derive(Clone, Copy)]
enum Step<'a> {
    First(OnSide<'a>),
    Second(OnSide<'a>),
    // A write of the first disk, on the left from this byte on.
    Write(u32, &'a str),
    // A cut of the first disk, on the left, to 5 bytes.
    Cut,
    // Whether each file is there and can be read.
    There(&'a str),
    // A folder has the name of the left file.
    MakeFolder,
    RemoveFolder,
}

// Calls that fail where the files can't be opened.
const EACH: [Call<'_>; 6] = [
    Call::Length,
    Call::Read(0),
    EMPTY,
    Call::Make(Change::Write("second")),
    SYNC,
    Call::Faults,
];

const WITHOUT_FILE: [Call<'_>; 4] = [Call::Length, Call::Read(0), EMPTY, SYNC];

// Two files, which the first write makes, and a second disk beside the first one.
const WRITTEN: [Step<'_>; 11] = [
    Step::First(("no file", Side::Left, &WITHOUT_FILE)),
    Step::First(("no file", Side::Right, &WITHOUT_FILE)),
    Step::There("before the first write"),
    Step::Write(0, "abcdef"),
    Step::Write(6, "g"),
    Step::Write(1, "xy"),
    Step::Cut,
    Step::First((
        "files, right",
        Side::Right,
        &[Call::Make(Change::Write("r"))],
    )),
    Step::First(("files", Side::Left, &[SYNC, Call::Length, Call::Faults])),
    Step::Second(("files, a second disk", Side::Right, &EACH)),
    Step::First(("files", Side::Right, &[Call::Read(0)])),
];

// What the second disk reads once the first one is dropped.
const FREED: [OnSide<'_>; 2] = [
    ("files again", Side::Left, &[Call::Read(0)]),
    ("files again", Side::Right, &[Call::Read(0)]),
];

// Two disks have found no file. Only one of them makes it.
const MADE_ONCE: [Step<'_>; 6] = [
    Step::First(("files, first", Side::Left, &[Call::Length])),
    Step::Second(("files, second", Side::Left, &[Call::Length])),
    Step::First((
        "files, first",
        Side::Left,
        &[Call::Make(Change::Write("first"))],
    )),
    Step::Second((
        "files, second",
        Side::Left,
        &[Call::Make(Change::Write("2"))],
    )),
    Step::First(("files, first", Side::Left, &[Call::Read(0)])),
    Step::Second(("files, second", Side::Left, &[Call::Faults])),
];

// What has the name of a file is none. The next call tries again.
const REFUSED: [Step<'_>; 6] = [
    Step::MakeFolder,
    Step::First(("files, a folder", Side::Right, &[Call::Faults])),
    Step::First(("files, a folder", Side::Right, &EACH)),
    Step::There("beside a folder"),
    Step::RemoveFolder,
    Step::First(("files, no folder", Side::Left, &[Call::Length])),
];

fn write_file<D: Disk>(rt: &impl Print, disk: &mut D, at: u32, piece: &str) -> io::Result<()>
    requires untold { D.told → ⊥ }
{
    print!(rt; "files: write '{piece}' at {at}")?;
    row(rt, "", write_at(disk, Side::Left, at, piece))
}

fn print_there(rt: &impl Print, when: &str, left: bool, right: bool) -> io::Result<()> {
    println!(rt; "files there {when}\t{left} {right}")
}

fn there<R: Print + Files<File = File> + Alloc>(rt: &R, when: &str) -> io::Result<()> {
    let left = fs::read(rt, "rodin.left").is_ok();
    let right = fs::read(rt, "rodin.right").is_ok();
    print_there(rt, when, left, right)
}

fn take<R: Print + Files<File = File> + Alloc, D: Disk>(
    rt: &R,
    first: &mut D,
    second: &mut D,
    step: Step<'_>,
) -> io::Result<()>
    requires untold { D.told → ⊥ }
{
    match step {
        Step::First(row) => make_calls(rt, first, row),
        Step::Second(row) => make_calls(rt, second, row),
        Step::Write(at, piece) => write_file(rt, first, at, piece),
        Step::Cut => tell(rt, "files", "cut at 5", cut_at(first, Side::Left, 5)),
        Step::There(when) => there(rt, when),
        Step::MakeFolder => fs::create_dir(rt, "rodin.left"),
        Step::RemoveFolder => fs::remove_dir(rt, "rodin.left"),
    }
}

fn take_each<R: Print + Files<File = File> + Alloc, D: Disk>(
    rt: &R,
    first: &mut D,
    second: &mut D,
    steps: &[Step<'_>],
) -> io::Result<()>
    requires untold { D.told → ⊥ }
{
    for step in steps {
        take(rt, first, second, *step)?;
    }
    Ok(())
}

// The first disk is dropped when its steps are done.
fn beside<'a, R: Print + Files<File = File> + Alloc>(
    rt: &'a R,
    second: &mut FilePair<'a, R>,
    steps: &[Step<'_>],
) -> io::Result<()> {
    let mut first = FilePair::new(rt);
    take_each(rt, &mut first, second, steps)
}

fn no_files(rt: &impl Files) {
    let _ = fs::remove_dir(rt, "rodin.left");
    let _ = fs::remove_file(rt, "rodin.left");
    let _ = fs::remove_file(rt, "rodin.right");
}

// These steps over two disks where there are no files, and calls of the second disk after the first one is dropped.
fn from_nothing<R: Print + Files<File = File> + Alloc>(
    rt: &R,
    steps: &[Step<'_>],
    after: &[OnSide<'_>],
) -> io::Result<()> {
    no_files(rt);
    let mut second = FilePair::new(rt);
    beside(rt, &mut second, steps)?;
    make_each(rt, &mut second, after)
}

pub fn two_disks<R: Print + Files<File = File> + Alloc>(rt: &R) -> io::Result<()> {
    from_nothing(rt, &WRITTEN, &FREED)?;
    from_nothing(rt, &MADE_ONCE, &[])?;
    from_nothing(rt, &REFUSED, &[])
}
