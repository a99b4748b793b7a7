//! What is printed of an input's fault.
ghost use Rattle.std.specs.Prelude.{◌≡◌, IfOk, string_bytes};
ghost use Rattle.check_input.specs.Lines.{input_line};

use crate::input::InputFault;
use formula_core::OutOfMemory;
use std::alloc::Global;

/// The last line of a program that refuses the input: `input: not UTF-8`, `input: line 1: no heading`,
/// `input: line N: second NAME`, `input: line N: more than 256 components`, `input: line N: text too long`, with its
/// line feed.
pub fn input_line(alloc: Global, fault: &InputFault) -> Result<String, OutOfMemory>
    ensures line { IfOk result (λ line. string_bytes line ≡ input_line fault.now) }
{
    match fault {
        InputFault::NotUtf8 => Ok(format!(in alloc; "input: not UTF-8\n")?),
        InputFault::NoHeading => Ok(format!(in alloc; "input: line 1: no heading\n")?),
        InputFault::Second(line, name) => {
            let name = name.as_text();
            Ok(format!(in alloc; "input: line {line}: second {name}\n")?)
        }
        InputFault::TooMany(line) => {
            Ok(format!(in alloc; "input: line {line}: more than 256 components\n")?)
        }
        InputFault::TextTooLong(line) => {
            Ok(format!(in alloc; "input: line {line}: text too long\n")?)
        }
    }
}
