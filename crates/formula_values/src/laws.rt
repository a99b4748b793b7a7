//! A law of what formulas mean.
ghost use Rattle.std.specs.Prelude.{◌≡◌, Result};
ghost use Rattle.formula_core.specs.declared.formula.Formula.{Formula};
ghost use Rattle.event_values.specs.declared.value.Value.{Value};
ghost use Rattle.value_sets.specs.declared.fault.ValueFault.{ValueFault};
ghost use Rattle.formula_values.specs.declared.values.Values.{Values};
ghost use Rattle.formula_values.specs.Means.{Means};

/// A formula has one meaning over the same values: one value, or one fault.
pub fn a_formula_has_one_meaning()
    ensures { (values : Values) (f : Formula) (r s : Result Value ValueFault) → Means values f r → Means values f s → r ≡ s }
{}
