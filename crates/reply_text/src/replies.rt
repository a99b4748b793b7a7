//! The texts of replies.
ghost use Rattle.std.specs.Prelude.{◌≡◌, ◌++◌, OnOk, IfOk, string_bytes, codes, [], if◌then◌else◌};
ghost use Rattle.std.specs.Fmt.{decimal};
ghost use Rattle.formula_core.specs.Substitution.{AreWell};
ghost use Rattle.reply_text.specs.Replies.{refused, rule_fault_words, status_or_gone, attempt_line, follows_words, reply_text, shown_formulas};
ghost use Rattle.reply_text.specs.Statuses.{line, named_status};

use crate::digests::add_digest;
use crate::faults::add_all_faults;
use crate::pieces::{add_line, add_number, add_words};
use crate::sequents::{add_nodes, add_path, add_sequent};
use crate::statuses::{add_named_status, add_statuses, status_word};
use core_steps::{Follows, Reply, Status};
use formula_core::{OutOfMemory, PoName};
use rule_making::RuleFault;
use std::alloc::Global;

/// Adds a refusal.
fn add_refusal(out: &mut String, words: &str) -> Result<(), OutOfMemory>
    ensures { OnOk result (string_bytes out.new ≡ string_bytes out.old ++ refused words.now) }
{
    add_words(out, "refused: ")?;
    add_line(out, words)
}

/// Adds a refusal that ends with a name.
fn add_refusal_of(out: &mut String, words: &str, name: &str) -> Result<(), OutOfMemory>
    ensures { OnOk result (string_bytes out.new ≡ string_bytes out.old ++ refused (words.now ++ name.now)) }
{
    add_words(out, "refused: ")?;
    add_words(out, words)?;
    add_line(out, name)
}

/// Adds why no rule was made.
fn add_rule_fault(out: &mut String, fault: &RuleFault) -> Result<(), OutOfMemory>
    ensures { OnOk result (string_bytes out.new ≡ string_bytes out.old ++ refused (rule_fault_words fault.now)) }
{
    match fault {
        RuleFault::NoPlace => add_refusal(out, "no such place"),
        RuleFault::BadTerm => add_refusal(out, "term is not typed"),
        RuleFault::NotFresh(name) => add_refusal_of(out, name.as_text(), " is not fresh"),
        RuleFault::NoForm => add_refusal(out, "the rule does not fit"),
        RuleFault::TooWide(_, _) => add_refusal(out, "number too wide"),
        RuleFault::TooLarge => add_refusal(out, "formula too large"),
        RuleFault::OutOfMemory => add_refusal(out, ""),
    }
}

/// Adds two words and a line feed.
fn add_two(out: &mut String, words: &str, name: &str) -> Result<(), OutOfMemory>
    ensures { OnOk result (string_bytes out.new ≡ string_bytes out.old ++ line (words.now ++ name.now)) }
{
    add_words(out, words)?;
    add_line(out, name)
}

fn add_built(
    out: &mut String,
    components: u32,
    faulted: u32,
    obligations: u32,
) -> Result<(), OutOfMemory>
    ensures { OnOk result (string_bytes out.new ≡ string_bytes out.old
        ++ line (codes "built: " ++ decimal components ++ codes " components, "
        ++ decimal faulted ++ codes " faulted, " ++ decimal obligations ++ codes " obligations")) }
{
    add_words(out, "built: ")?;
    add_number(out, components as u64)?;
    add_words(out, " components, ")?;
    add_number(out, faulted as u64)?;
    add_words(out, " faulted, ")?;
    add_number(out, obligations as u64)?;
    add_words(out, " obligations")?;
    add_words(out, "\n")
}

/// Adds a number behind words, and a line feed.
fn add_counted(out: &mut String, words: &str, number: u64) -> Result<(), OutOfMemory>
    ensures { OnOk result (string_bytes out.new ≡ string_bytes out.old ++ line (words.now ++ decimal number)) }
{
    add_words(out, words)?;
    add_number(out, number)?;
    add_words(out, "\n")
}

fn add_no_ticket(out: &mut String, number: u64) -> Result<(), OutOfMemory>
    ensures { OnOk result (string_bytes out.new ≡ string_bytes out.old
        ++ refused (codes "no ticket " ++ decimal number)) }
{
    add_words(out, "refused: ")?;
    add_counted(out, "no ticket ", number)
}

fn add_now(out: &mut String, name: &PoName, status: Status) -> Result<(), OutOfMemory>
    ensures { OnOk result (string_bytes out.new ≡ string_bytes out.old ++ line (named_status name.now status)) }
{
    add_named_status(out, name, status)?;
    add_words(out, "\n")
}

fn add_not_open(out: &mut String, name: &PoName, status: Status) -> Result<(), OutOfMemory>
    ensures { OnOk result (string_bytes out.new ≡ string_bytes out.old
        ++ refused (codes "nothing to try: " ++ named_status name.now status)) }
{
    add_words(out, "refused: ")?;
    add_words(out, "nothing to try: ")?;
    add_now(out, name, status)
}

fn status_or_gone(status: Option<Status>) -> &'static str
    ensures { result.now ≡ status_or_gone status }
{
    match status {
        Some(status) => status_word(status),
        None => "gone",
    }
}

/// Adds what became of an attempt, and the obligation's status.
fn add_finished(
    out: &mut String,
    word: &str,
    name: &PoName,
    status: Option<Status>,
) -> Result<(), OutOfMemory>
    ensures { OnOk result (string_bytes out.new ≡ string_bytes out.old ++ attempt_line word.now name.now status) }
{
    add_words(out, word)?;
    add_words(out, " ")?;
    add_words(out, name.as_text())?;
    add_words(out, " ")?;
    add_line(out, status_or_gone(status))
}

/// Adds what is said of an obligation's tree.
fn add_answer(out: &mut String, answer: &Follows) -> Result<(), OutOfMemory>
    ensures { OnOk result (string_bytes out.new ≡ string_bytes out.old ++ follows_words answer.now) }
{
    match answer {
        Follows::Yes => add_words(out, " follows"),
        Follows::NotDerived => add_words(out, " not derived"),
        Follows::NotPlain(path) => {
            add_words(out, " not plain at ")?;
            add_path(out, path.items())
        }
    }
}

/// Adds the same behind the obligation's name.
fn add_followed(out: &mut String, name: &PoName, answer: &Follows) -> Result<(), OutOfMemory>
    ensures { OnOk result (string_bytes out.new ≡ string_bytes out.old ++ line (name.now ++ follows_words answer.now)) }
{
    add_words(out, name.as_text())?;
    add_answer(out, answer)?;
    add_words(out, "\n")
}

fn add_idle(out: &mut String, is_idle: bool) -> Result<(), OutOfMemory>
    ensures { OnOk result (string_bytes out.new ≡ string_bytes out.old
        ++ (if is_idle then line (codes "idle") else [])) }
{
    if is_idle {
        add_line(out, "idle")
    } else {
        Ok(())
    }
}

fn add_reply(alloc: Global, out: &mut String, reply: &Reply) -> Result<(), OutOfMemory>
    requires { AreWell (shown_formulas reply.now) }
    ensures { OnOk result (string_bytes out.new ≡ string_bytes out.old ++ reply_text reply.now) }
{
    match reply {
        Reply::BadName => add_refusal(out, "bad name"),
        Reply::TextTooLong => add_refusal(out, "text too long"),
        Reply::ProjectFull => add_refusal(out, "project full"),
        Reply::Edited(name) => add_two(out, "edited ", name.as_text()),
        Reply::NoSuch(name) => add_refusal_of(out, "no component ", name.as_text()),
        Reply::Deleted(name) => add_two(out, "deleted ", name.as_text()),
        Reply::TableFull(_) => add_refusal(out, "too many formula nodes"),
        Reply::Built(components, faulted, obligations) => {
            add_built(out, *components, *faulted, *obligations)
        }
        Reply::NoObligation(name) => add_refusal_of(out, "no obligation ", name.as_text()),
        Reply::Broken => add_refusal(out, "proof is broken"),
        Reply::NoLeaf => add_refusal(out, "no open leaf there"),
        Reply::NoNode => add_refusal(out, "no rule there"),
        Reply::Rule(fault) => add_rule_fault(out, fault),
        Reply::TreeFull => add_refusal(out, "tree full"),
        Reply::Now(name, status) => add_now(out, name, *status),
        Reply::Nothing | Reply::Taken(_) => Ok(()),
        Reply::NotOpen(name, status) => add_not_open(out, name, *status),
        Reply::NoTicket(number) => add_no_ticket(out, *number),
        Reply::Noted(name, status) => add_finished(out, "noted", name, *status),
        Reply::NoMemory(name, status) => add_finished(out, "no memory", name, *status),
        Reply::Stored(name, status) => add_finished(out, "stored", name, *status),
        Reply::Refused(name, status) => add_finished(out, "refused", name, *status),
        Reply::Stale(name, status) => add_finished(out, "stale", name, *status),
        Reply::Purged(count) => add_counted(out, "purged ", *count),
        Reply::Statuses(shown) => add_statuses(out, shown.items()),
        Reply::Faults(told, warned) => add_all_faults(out, told.items(), warned.items()),
        Reply::Shown(name, status, sequent) => {
            add_now(out, name, *status)?;
            add_sequent(alloc, out, sequent)
        }
        Reply::Nodes(nodes) => add_nodes(alloc, out, nodes.items()),
        Reply::Followed(name, answer) => add_followed(out, name, answer),
        Reply::Digest(digest) => add_digest(out, digest),
        Reply::Idle(is_idle) => add_idle(out, *is_idle),
    }
}

/// The printed text of a reply: whole lines, or nothing.
pub fn reply_text(alloc: Global, reply: &Reply) -> Result<String, OutOfMemory>
    requires { AreWell (shown_formulas reply.now) }
    ensures { IfOk result (λ text. string_bytes text ≡ reply_text reply.now) }
{
    let mut out = String::new(alloc);
    add_reply(alloc, &mut out, reply)?;
    Ok(out)
}
