//! Laws that other crates cite. The calls do nothing.

ghost use Rattle.core_steps.specs.Laws.{HasOneAnswer, OpensOrderly, StaysOrderly, EntersAll, GrowsSlowly, TellsTheRebuilt, DischargedIsDerived, BuildsOnce, EditsBack, StoresLate, DecidesSequents};

use build_core::{one_list_of_faults, one_list_of_warnings, one_table};
use rule_making::one_rule;

/// Each event is answered in one way, in every orderly state.
pub fn one_answer()
    ensures { HasOneAnswer }
{
    one_table();
    one_list_of_faults();
    one_list_of_warnings();
    one_rule();
}

/// An opened state is orderly.
pub fn opens_orderly()
    ensures { OpensOrderly }
{}

/// Each step keeps an orderly state so.
pub fn stays_orderly()
    ensures { StaysOrderly }
{}

/// What a step makes of the durable is what its entry makes of it.
pub fn enters_all()
    ensures { EntersAll }
{}

/// A step gives at most one ticket, and stores at most one proof.
pub fn grows_slowly()
    ensures { GrowsSlowly }
{}

/// Each status in a reply is that of the clean rebuild.
pub fn tells_the_rebuilt()
    ensures { TellsTheRebuilt }
{}

/// What is shown discharged has a stored proof that derives its present sequent.
pub fn discharged_is_derived()
    ensures { DischargedIsDerived }
{}

/// A second build changes nothing.
pub fn builds_once()
    ensures { BuildsOnce }
{
    one_table();
    one_list_of_faults();
    one_list_of_warnings();
    one_rule();
}

/// An edit of a component back to its text restores the durable.
pub fn edits_back()
    ensures { EditsBack }
{}

/// A late finish is stored where its proof is good for the present sequent, and is stale elsewhere.
pub fn stores_late()
    ensures { StoresLate }
{
    one_table();
}

/// Two sequents are the same, or not.
pub fn decides_sequents()
    ensures { DecidesSequents }
{}
