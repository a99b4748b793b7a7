//! What projects are checked and built to.

use crate::builds::{build_again, build_each};
use crate::compared::add_compared;
use crate::lists::add_lists;
use crate::pieces::{Piece, add};
use crate::sequents::add_table;
use crate::told::{add_told, add_verdicts};
use build_core::Builder;
use std::alloc::{AllocError, Global};

/// How many builds there are of a project that is edited and edited back twenty times.
const OFTEN: usize = 41;

/// What is done with a titled text.
#[derive(Clone, Copy)]
pub enum Part {
    Printed,
    Checked,
    Built,
}

/// Adds what comes of a build behind an edit.
fn add_edited(
    alloc: Global,
    builders: &mut Vec<Builder>,
    out: &mut String,
) -> Result<(), AllocError> {
    if build_again(alloc, 1, false, builders).is_none() {
        return out.push_str("no build\n");
    }
    match builders.as_slice() {
        [old, new, anew] => add_compared(old, new, anew, out),
        _ => out.push_str("too many edits\n"),
    }
}

/// Edits a project back and again and so on, and adds how many obligations it has.
fn add_often(
    alloc: Global,
    builders: &mut Vec<Builder>,
    out: &mut String,
) -> Result<(), AllocError> {
    for build in builders.len()..OFTEN {
        if build_again(alloc, build % 2, true, builders).is_none() {
            return out.push_str("no build\n");
        }
    }
    let obligations = match builders.last() {
        Some(builder) => builder.table().len(),
        None => 0,
    };
    add(
        &[Piece::Number(obligations), Piece::Word(" obligations\n")],
        out,
    )
}

/// Adds what comes of a build from nothing.
fn add_first(
    alloc: Global,
    part: Part,
    title: &str,
    builder: &Builder,
    out: &mut String,
) -> Result<(), AllocError> {
    match part {
        Part::Built => {
            add_told(builder, out)?;
            add_table(alloc, title.ends_with(" names"), builder, out)?;
            add_lists(alloc, builder, out)
        }
        _ => add_verdicts(builder, out),
    }
}

fn add_builds(
    alloc: Global,
    part: Part,
    title: &str,
    builders: &mut Vec<Builder>,
    out: &mut String,
) -> Result<(), AllocError> {
    match builders.as_slice() {
        [builder] => add_first(alloc, part, title, builder, out),
        _ if title.ends_with(" often") => add_often(alloc, builders, out),
        _ => add_edited(alloc, builders, out),
    }
}

/// Adds what a project is checked or built to.
pub fn add_project(
    alloc: Global,
    part: Part,
    title: &str,
    text: &str,
    out: &mut String,
) -> Result<(), AllocError> {
    let mut builders = Vec::new(alloc);
    match build_each(alloc, text, &mut builders) {
        Some(()) => add_builds(alloc, part, title, &mut builders, out),
        None => out.push_str("no project\n"),
    }
}
