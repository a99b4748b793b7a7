//! The printed text of a formula, which reads back.
ghost use Rattle.std.specs.Prelude.{◌≡◌, IfOk, OnOk, IsTrue, string_bytes};
ghost use Rattle.formula_core.specs.Wellness.{is_well};
ghost use Rattle.formula_print.specs.Printing.{formula_text};
ghost use Rattle.formula_print.specs.Written.{IsTypedBack};
ghost use Rattle.math_print.specs.Back.{ReadsBack};

use formula_core::{Formula, OutOfMemory};
use std::alloc::Global;

/// The printed text of a formula, as `formula_print` gives it. It reads back.
pub fn text(alloc: Global, formula: &Formula) -> Result<String, OutOfMemory>
    requires { IsTrue (is_well formula.now) }
    ensures exact { IfOk result (λ text. string_bytes text ≡ formula_text formula.now) }
    ensures typed { OnOk result (IsTypedBack formula.now) }
    // Its tokens spell one tree, which is typed as the formula again; the parser finds it, unless they pass a limit.
    ensures back { IfOk result (λ text. ReadsBack formula.now (string_bytes text)) }
{
    formula_print::text(alloc, formula)
}
