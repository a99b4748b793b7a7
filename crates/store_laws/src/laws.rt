//! The laws. The calls do nothing.
ghost use Rattle.store_laws.specs.Laws.{HasOneProject, HasOneRun, HasOneSpelling};

use core_steps::{one_answer, stays_orderly};
use journal_core::one_meaning;

/// Bytes are those of one list of entries at most, in each version.
pub fn one_spelling()
    ensures { HasOneSpelling }
{}

/// The two sides of a disk stand for one project at most, or for one fault.
pub fn one_project()
    ensures { HasOneProject }
{
    one_meaning();
}

/// In an orderly state events have one run.
pub fn one_run()
    ensures { HasOneRun }
{
    one_answer();
    stays_orderly();
}
