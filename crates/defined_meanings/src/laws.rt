//! The laws, one on each call. The calls do nothing.
ghost use Rattle.defined_meanings.specs.Laws.{DefinedFormulasDenoteOne, DefinedInOneIsDefinedInAll, DefinedSequentsAgree};

/// Where its condition of well-definedness is true, a formula denotes the same in all classical universes over the same carrier sets.
pub fn defined_formulas_denote_one()
    ensures { DefinedFormulasDenoteOne }
{}

/// Where its condition is true in one of them, it is true in all.
pub fn defined_in_one_is_defined_in_all()
    ensures { DefinedInOneIsDefinedInAll }
{}

/// Where the conditions of its formulas are true, a sequent is true in all of them or in none.
pub fn defined_sequents_agree()
    ensures { DefinedSequentsAgree }
{}
