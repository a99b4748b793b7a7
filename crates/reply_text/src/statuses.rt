//! The texts of statuses.
ghost use Rattle.std.specs.Prelude.{◌≡◌, ◌++◌, ◌≤◌, OnOk, string_bytes, length};
ghost use Rattle.std.specs.Fmt.{decimal};
ghost use Rattle.std.specs.List.{flat_map};
ghost use Rattle.reply_text.specs.Statuses.{line, status_word, named_status, origin_mark, status_line, is_same, count_with, summary, statuses_text};

use crate::pieces::{add_line, add_number, add_words};
use core_steps::{Origin, Status};
use formula_core::{OutOfMemory, PoName};

pub fn status_word(status: Status) -> &'static str
    ensures { result.now ≡ status_word status }
{
    match status {
        Status::Unattempted => "unattempted",
        Status::Pending => "pending",
        Status::Reviewed => "reviewed",
        Status::Discharged => "discharged",
        Status::Broken => "broken",
    }
}

fn origin_mark(origin: Option<Origin>) -> &'static str
    ensures { result.now ≡ origin_mark origin }
{
    match origin {
        None => "",
        Some(Origin::Unknown) => " (unknown)",
        Some(Origin::User) => " (user)",
        Some(Origin::Prover) => " (prover)",
    }
}

/// Adds an obligation's name and its status.
pub fn add_named_status(out: &mut String, name: &PoName, status: Status) -> Result<(), OutOfMemory>
    ensures { OnOk result (string_bytes out.new ≡ string_bytes out.old ++ named_status name.now status) }
{
    out.push_str(name.as_text())?;
    out.push_str(" ")?;
    out.push_str(status_word(status))?;
    Ok(())
}

/// Adds the line of an obligation. Where no origin is given, none is told.
pub fn add_status(
    out: &mut String,
    name: &PoName,
    status: Status,
    origin: Option<Origin>,
) -> Result<(), OutOfMemory>
    ensures { OnOk result (string_bytes out.new ≡ string_bytes out.old ++ status_line name.now status origin) }
{
    add_named_status(out, name, status)?;
    add_line(out, origin_mark(origin))
}

fn add_status_lines(
    out: &mut String,
    shown: &[(PoName, Status, Option<Origin>)],
) -> Result<(), OutOfMemory>
    ensures { OnOk result (string_bytes out.new ≡ string_bytes out.old
        ++ flat_map (λ x. status_line x.0 x.1 x.2) shown.now) }
{
    for (name, status, origin) in shown {
        add_status(out, name, *status, *origin)?;
    }
    Ok(())
}

fn is_same(one: Status, other: Status) -> bool
    ensures { result ≡ is_same one other }
{
    match (one, other) {
        (Status::Unattempted, Status::Unattempted) => true,
        (Status::Pending, Status::Pending) => true,
        (Status::Reviewed, Status::Reviewed) => true,
        (Status::Discharged, Status::Discharged) => true,
        (Status::Broken, Status::Broken) => true,
        _ => false,
    }
}

/// How many obligations have the status.
fn count_with(status: Status, shown: &[(PoName, Status, Option<Origin>)]) -> u64
    ensures count { result ≡ count_with status shown.now }
    ensures within { result ≤ length shown.now }
{
    let mut count = 0;
    for (_, each, _) in shown {
        if is_same(status, *each) {
            count += 1;
        }
    }
    count
}

/// Adds how many obligations have the status, and words.
fn add_count(
    out: &mut String,
    status: Status,
    shown: &[(PoName, Status, Option<Origin>)],
    words: &str,
) -> Result<(), OutOfMemory>
    ensures { OnOk result (string_bytes out.new ≡ string_bytes out.old
        ++ decimal (count_with status shown.now) ++ words.now) }
{
    add_number(out, count_with(status, shown))?;
    add_words(out, words)
}

/// Adds how many obligations there are, and how many of each status.
fn add_summary(
    out: &mut String,
    shown: &[(PoName, Status, Option<Origin>)],
) -> Result<(), OutOfMemory>
    ensures { OnOk result (string_bytes out.new ≡ string_bytes out.old ++ summary shown.now) }
{
    add_number(out, shown.len() as u64)?;
    add_words(out, " obligations: ")?;
    add_count(out, Status::Unattempted, shown, " unattempted, ")?;
    add_count(out, Status::Pending, shown, " pending, ")?;
    add_count(out, Status::Reviewed, shown, " reviewed, ")?;
    add_count(out, Status::Discharged, shown, " discharged, ")?;
    add_count(out, Status::Broken, shown, " broken")?;
    add_words(out, "\n")
}

/// Adds a line for each obligation, and the summary.
pub fn add_statuses(
    out: &mut String,
    shown: &[(PoName, Status, Option<Origin>)],
) -> Result<(), OutOfMemory>
    ensures { OnOk result (string_bytes out.new ≡ string_bytes out.old ++ statuses_text shown.now) }
{
    add_status_lines(out, shown)?;
    add_summary(out, shown)
}
