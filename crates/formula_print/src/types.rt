//! How types are printed.
ghost use Rattle.std.specs.Prelude.{◌≡◌, ◌++◌, OnOk, string_bytes};
ghost use Rattle.token_text.specs.Pieces.{text_of};
ghost use Rattle.formula_print.specs.Private.{type_text};
ghost use Rattle.formula_print.specs.Types.{type_pieces, right_of_product};

use formula_core::{OutOfMemory, Ty};

#[cycle(type_text)]
#[tactic(auto, using(crate::proofs::TypeTexts::equations))]
pub(crate) fn print_type(ty: &Ty, out: &mut String) -> Result<(), OutOfMemory>
    ensures { OnOk result (string_bytes out.new ≡ string_bytes out.old ++ type_text ty.now) }
{
    match ty {
        Ty::Int => out.push_str("ℤ")?,
        Ty::Bool => out.push_str("BOOL")?,
        Ty::Given(name) => out.push_str(name.as_text())?,
        Ty::Pow(part) => {
            out.push_str("ℙ(")?;
            print_type(part.get(), out)?;
            out.push_str(")")?;
        }
        Ty::Pair(left, right) => {
            print_type(left.get(), out)?;
            out.push_str(" × ")?;
            print_right_side(right.get(), out)?;
        }
        Ty::Truth => (),
    }
    Ok(())
}

/// Adds the text of the right side of a product.
#[cycle(type_text)]
#[tactic(auto, using(crate::proofs::TypeTexts::equations))]
fn print_right_side(ty: &Ty, out: &mut String) -> Result<(), OutOfMemory>
    ensures { OnOk result (string_bytes out.new
        ≡ string_bytes out.old ++ text_of (right_of_product (ty.now, type_pieces ty.now))) }
{
    if ty.components().is_none() {
        return print_type(ty, out);
    }
    out.push_str("(")?;
    print_type(ty, out)?;
    out.push_str(")")?;
    Ok(())
}
