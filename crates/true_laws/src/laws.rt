//! The law. The call does nothing.
ghost use Rattle.rule_table.specs.declared.law.Law.{Law};
ghost use Rattle.true_laws.specs.Laws.{KeepsDenotations};

/// Both sides of each law denote the same.
pub fn laws_keep_denotations()
    ensures { (law : Law) → KeepsDenotations law }
{}
