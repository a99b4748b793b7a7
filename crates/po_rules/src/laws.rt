//! The law of the table. The call does nothing.
ghost use Rattle.po_rules.specs.Laws.{RowsGiveObligations};

/// The ordered list of a component's obligations has an obligation exactly where some row of the table gives it.
pub fn rows_give_obligations()
    ensures { RowsGiveObligations }
{}
