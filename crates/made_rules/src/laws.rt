//! Laws of the rules that `rule_making::make` makes. The calls do nothing.
ghost use Rattle.made_rules.specs.Laws.{NamedRulesFit, NoFormIsTheTables};

/// What a hint names for a sequent, and is within the limits, is a rule of the table that applies to the sequent.
pub fn named_rules_fit()
    ensures { NamedRulesFit }
{}

/// `make` answers that there is no form exactly where the table has none for the formulas that the hint names.
pub fn no_form_is_the_tables()
    ensures { NoFormIsTheTables }
{}
