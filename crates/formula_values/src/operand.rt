//! The value of an operand, which is one that is known or a new one.
ghost use Rattle.std.specs.Prelude.{◌≡◌, ◌++◌, ◌∷◌, [], IfOk, OnOk, map};
ghost use Rattle.value_sets.specs.Sets.{IsMade, IsTold, integer_of};
ghost use Rattle.formula_values.specs.Means.{truth_of};
ghost use Rattle.formula_values.specs.Private.{held, answered};

use event_values::Value;
use formula_core::OutOfMemory;
use std::alloc::Global;
use value_sets::ValueFault;

/// A value that is known, or a new one. What is known isn't copied for a form over it.
pub(crate) enum Operand<'a> {
    Known(&'a Value),
    Made(Value),
}

impl<'a> Drop for Operand<'a> {
    fn drop(self) {
        match self {
            Operand::Known(_) => {}
            Operand::Made(_) => {}
        }
    }
}

impl<'a> Operand<'a> {
    pub(crate) fn get(&self) -> &Value
        ensures { result.now ≡ held self.now }
    {
        match self {
            Operand::Known(v) => *v,
            Operand::Made(v) => v,
        }
    }

    pub(crate) fn into_value(self, alloc: Global) -> Result<Value, OutOfMemory>
        ensures { IfOk result (λ v. v ≡ held self.entry) }
    {
        match self {
            Operand::Known(v) => v.copy(alloc),
            Operand::Made(v) => Ok(v),
        }
    }
}

/// A new value as an operand.
pub(crate) fn made<'a>(answer: Result<Value, ValueFault>) -> Result<Operand<'a>, ValueFault>
    ensures { answered result ≡ answer }
{
    match answer {
        Ok(v) => Ok(Operand::Made(v)),
        Err(fault) => Err(fault),
    }
}

/// The value of an operand, as one of its own.
pub(crate) fn owned(
    alloc: Global,
    answer: Result<Operand<'_>, ValueFault>,
) -> Result<Value, ValueFault>
    ensures { IsTold (λ r. r ≡ answered answer.entry) result }
{
    match answer {
        Ok(operand) => Ok(operand.into_value(alloc)?),
        Err(fault) => Err(fault),
    }
}

/// The truth value that an operand is.
pub(crate) fn truth(operand: &Operand<'_>) -> bool
    ensures { result ≡ truth_of (held operand.now) }
{
    match operand.get() {
        Value::Truth(b) => *b,
        _ => false,
    }
}

/// The number that an operand is.
pub(crate) fn number(operand: &Operand<'_>) -> i128
    ensures { result ≡ integer_of (held operand.now) }
{
    value_sets::number(operand.get())
}

/// A value that is known, where it isn't too large.
pub(crate) fn known(v: &Value) -> Result<Operand<'_>, ValueFault>
    ensures { IsMade v.now (answered result) }
{
    if v.nodes() <= 65_536 {
        Ok(Operand::Known(v))
    } else {
        Err(ValueFault::TooLarge)
    }
}

pub(crate) fn add<'a>(v: Operand<'a>, out: &mut Vec<Operand<'a>>) -> Result<(), OutOfMemory>
    ensures { OnOk result (map held out.new.items ≡ map held out.old.items ++ held v.entry ∷ []) }
{
    out.push(v)?;
    Ok(())
}

fn add_copy(alloc: Global, v: &Value, out: &mut Vec<Value>) -> Result<(), OutOfMemory>
    ensures { OnOk result (out.new.items ≡ out.old.items ++ v.now ∷ []) }
{
    let copy = v.copy(alloc)?;
    out.push(copy)?;
    Ok(())
}

/// The values of operands.
pub(crate) fn copies(alloc: Global, operands: &[Operand<'_>]) -> Result<Vec<Value>, OutOfMemory>
    ensures { IfOk result (λ found. found.items ≡ map held operands.now) }
{
    let mut found = Vec::new(alloc);
    for operand in operands {
        add_copy(alloc, operand.get(), &mut found)?;
    }
    Ok(found)
}
