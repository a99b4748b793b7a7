//! The types that parameters have in refined events.

ghost use Rattle.std.specs.Prelude.{◌≡◌, ◌∷◌, [], ℕ, List, IfOk, OnOk, Some, map};
ghost use Rattle.std.specs.Option.{option_copied, option_map, option_or};
ghost use Rattle.formula_core.specs.Env.{type_in};
ghost use Rattle.formula_core.specs.Formulas.{joined};
ghost use Rattle.machine_check.specs.PrivateTyped.{type_of_text};

use formula_core::{Name, OutOfMemory, Ty};
use model_core::CheckedEvent;
use std::alloc::Global;
use std::collections::BTreeMap;

/// The types of names.
pub type Types<'a> = BTreeMap<&'a str, &'a Ty>;

fn first_type<'a>(known: Option<&&'a Ty>, ty: &'a Ty) -> &'a Ty
    ensures { Some result.now ≡ option_or (option_map (λ t. t.now) (option_copied known.entry)) (Some ty.entry.now) }
{
    match known {
        Some(first) => first,
        None => ty,
    }
}

/// Notes the type of a name that has none there.
fn note_type<'a>(types: &mut Types<'a>, param: &'a (Name, Ty)) -> Result<(), OutOfMemory>
    ensures { OnOk result ((x : List ℕ)
        → type_of_text types.new x ≡ option_or (type_of_text types.old x) (type_in (param.entry.now ∷ []) x)) }
{
    let ty = first_type(types.get(param.0.as_text()), &param.1);
    types.insert(param.0.as_text(), ty)?;
    Ok(())
}

fn note_types<'a>(types: &mut Types<'a>, params: &'a [(Name, Ty)]) -> Result<(), OutOfMemory>
    ensures { OnOk result ((x : List ℕ)
        → type_of_text types.new x ≡ option_or (type_of_text types.old x) (type_in params.entry.now x)) }
{
    for param in params {
        note_type(types, param)?;
    }
    Ok(())
}

/// The type of each parameter in the first of the events that has it.
pub fn types_in<'a>(alloc: Global, events: &[&'a CheckedEvent]) -> Result<Types<'a>, OutOfMemory>
    ensures { IfOk result (λ types. (x : List ℕ)
        → type_of_text types x ≡ type_in (joined (map (λ a. a.now.params) events.now)) x) }
{
    let mut types = BTreeMap::new(alloc);
    for event in events {
        note_types(&mut types, event.params.items())?;
    }
    Ok(types)
}

pub fn type_there<'a>(types: &Types<'a>, name: &Name) -> Option<&'a Ty>
    ensures { option_copied result ≡ type_of_text types.now name.now }
{
    types.get(name.as_text()).copied()
}
