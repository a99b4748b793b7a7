//! The reader of components.

ghost use Rattle.std.specs.Prelude.{◌^◌, ◌<◌, IfOk, IfErr, length};
ghost use Rattle.model_core.specs.declared.component.RawComponent.{RawComponent as Said};
ghost use Rattle.component_text.specs.Machines.{IsComponent};
ghost use Rattle.component_text.specs.Spelled.{SpellsComponent, FindsComponent, IsReadFault};

use crate::pieces::{ReadFault, read_pieces};
use component_tokens::{cut, pieces_one_way};
use formula_core::Name;
use formula_parse::one_formula;
use math_action::one_action;
use model_core::RawComponent;
use std::alloc::Global;

/// Reads the text of the component of the name.
pub fn read(alloc: Global, name: &Name, text: &str) -> Result<RawComponent, ReadFault>
    requires { length text.now < 2 ^ 32 }
    // What is read is spelled so, within the limits.
    ensures found { IfOk result (λ c. SpellsComponent IsComponent name.now text.now c) }
    // What is spelled so is read, unless memory runs out.
    ensures only { (c : Said) → SpellsComponent IsComponent name.now text.now c → FindsComponent result c }
    // Else the fault is the first one.
    ensures fault { IfErr result (λ fault. IsReadFault IsComponent name.now text.now fault) }
{
    pieces_one_way();
    one_formula();
    one_action();
    let pieces = cut(alloc, text)?;
    read_pieces(alloc, name, text, &pieces)
}
