//! The laws. The calls do nothing.
ghost use Rattle.name_laws.specs.Laws.{ObligationsHaveDistinctNames, JoinedTablesHaveDistinctNames};
ghost use Rattle.name_laws.specs.Laws.{CheckedHasDistinctLabels, CheckedHasPlainNames, CheckedKeepsItsName};
ghost use Rattle.name_laws.specs.Laws.{LabelsArePlain, NamesArePlain};

/// No two obligations of a component have the same name, and each name begins with that of the component and a slash.
pub fn distinct_names()
    ensures { ObligationsHaveDistinctNames }
{}

/// Nor have two of components with different names.
pub fn joined_tables()
    ensures { JoinedTablesHaveDistinctNames }
{}

/// In a component without fault each label stands once where names of obligations come from.
pub fn distinct_labels()
    ensures { CheckedHasDistinctLabels }
{}

/// No name and no label of a checked component has a slash, where none has as it is written.
pub fn plain_names()
    ensures { CheckedHasPlainNames }
{}

/// A checked component has the name of its heading.
pub fn name_kept()
    ensures { CheckedKeepsItsName }
{}

/// No label has a slash.
pub fn plain_labels()
    ensures { LabelsArePlain }
{}

/// No identifier has a slash.
pub fn plain_identifiers()
    ensures { NamesArePlain }
{}
