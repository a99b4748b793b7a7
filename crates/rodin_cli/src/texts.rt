// What is printed.
ghost use Rattle.std.specs.Prelude.{◌≡◌, ◌++◌, IfOk, OnOk, string_bytes};
ghost use Rattle.rodin_cli.specs.Texts.{status_lines, printed_lines};

use core_steps::{FaultLine, Origin, Status};
use formula_core::{Name, OutOfMemory, PoName};
use reply_text::{add_faults, add_status, add_warnings};
use std::alloc::Global;

fn add_statuses(
    text: &mut String,
    shown: &[(PoName, Status, Option<Origin>)],
) -> Result<(), OutOfMemory>
    ensures { OnOk result (string_bytes text.new ≡ string_bytes text.old ++ status_lines shown.now) }
{
    for (name, status, _) in shown {
        add_status(text, name, *status, None)?;
    }
    Ok(())
}

/// A line for each fault, then one for each warning, and then one for each status.
pub fn printed(
    alloc: Global,
    told: &[FaultLine],
    warned: &[(Name, Name)],
    shown: &[(PoName, Status, Option<Origin>)],
) -> Result<String, OutOfMemory>
    ensures { IfOk result (λ text. string_bytes text ≡ printed_lines told.now warned.now shown.now) }
{
    let mut text = String::new(alloc);
    add_faults(&mut text, told)?;
    add_warnings(&mut text, warned)?;
    add_statuses(&mut text, shown)?;
    Ok(text)
}
