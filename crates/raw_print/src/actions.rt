//! The printed text of actions as they are written.
#![tactic(auto, using(crate::proofs::Equations::texts))]

ghost use Rattle.std.specs.Prelude.{◌≡◌, ◌++◌, OnOk, string_bytes};
ghost use Rattle.token_text.specs.Pieces.{text_of};
ghost use Rattle.raw_print.specs.Printing.{targets, action_text};

use crate::printing::{print_formula, print_separated};
use formula_core::{OutOfMemory, RawAction, Ref};

/// Adds the printed text of an action.
pub fn print_action(out: &mut String, action: &RawAction) -> Result<(), OutOfMemory>
    ensures { OnOk result (string_bytes out.new ≡ string_bytes out.old ++ action_text action.now) }
{
    match action {
        RawAction::Assign(names, values) => {
            print_targets(out, names.items())?;
            out.push_str(" ≔ ")?;
            print_separated(out, values.items())
        }
        RawAction::Apply(function, argument, value) => {
            out.push_str(function.name.as_text())?;
            out.push_str("(")?;
            print_formula(out, argument)?;
            out.push_str(") ≔ ")?;
            print_formula(out, value)
        }
        RawAction::ChooseIn(name, set) => {
            out.push_str(name.name.as_text())?;
            out.push_str(" :∈ ")?;
            print_formula(out, set)
        }
        RawAction::ChooseSuch(names, condition) => {
            print_targets(out, names.items())?;
            out.push_str(" :∣ ")?;
            print_formula(out, condition)
        }
    }
}

/// Adds names with commas between them.
fn print_targets(out: &mut String, names: &[Ref]) -> Result<(), OutOfMemory>
    ensures { OnOk result (string_bytes out.new ≡ string_bytes out.old ++ text_of (targets names.now)) }
{
    if let Some((first, rest)) = names.split_first() {
        out.push_str(first.name.as_text())?;
        for name in rest {
            out.push_str(", ")?;
            out.push_str(name.name.as_text())?;
        }
    }
    Ok(())
}
