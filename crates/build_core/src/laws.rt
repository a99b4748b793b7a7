//! Laws that other crates cite. The calls do nothing.

ghost use Rattle.build_core.specs.Laws.{HasOneVerdict, HasOneTable, HasOneListOfFaults, HasOneListOfWarnings, HasDistinctObligations, HasFewFaults};

/// A component of a project has one verdict.
pub fn one_verdict()
    ensures { HasOneVerdict }
{}

/// A project has one table.
pub fn one_table()
    ensures { HasOneTable }
{}

/// A project has one list of faults.
pub fn one_list_of_faults()
    ensures { HasOneListOfFaults }
{}

/// A project has one list of warnings.
pub fn one_list_of_warnings()
    ensures { HasOneListOfWarnings }
{}

/// No two obligations of a project have the same name.
pub fn distinct_obligations()
    ensures { HasDistinctObligations }
{}

/// A project has at most one fault a component.
#[tactic(auto, using(crate::proofs::Fewer::few_faults))]
pub fn few_faults()
    ensures { HasFewFaults }
{}
