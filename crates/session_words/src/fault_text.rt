//! The words of refused lines.
ghost use Rattle.std.specs.Prelude.{◌≡◌, IfOk, string_bytes};
ghost use Rattle.session_words.specs.Lines.{line_fault_words};

use crate::line::LineFault;
use formula_core::OutOfMemory;
use std::alloc::Global;

fn line_fault_words(fault: LineFault) -> &'static str
    ensures { result.now ≡ line_fault_words fault }
{
    match fault {
        LineFault::BadCommand => "bad command",
        LineFault::LineTooLong => "line too long",
        LineFault::BadName => "bad name",
        LineFault::TextTooLong => "text too long",
        LineFault::NotText => "text is not UTF-8",
    }
}

/// Why a line is refused: the words behind `refused: `.
pub fn line_fault_text(alloc: Global, fault: &LineFault) -> Result<String, OutOfMemory>
    ensures { IfOk result (λ text. string_bytes text ≡ line_fault_words fault.now) }
{
    let text = String::from_str(alloc, line_fault_words(*fault))?;
    Ok(text)
}
