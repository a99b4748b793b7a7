//! The types that parameters have in the events before.
ghost use Rattle.std.specs.Prelude.{◌≡◌, ◌||◌, ◌∷◌, [], ℕ, List, Some, not, OnOk};
ghost use Rattle.std.specs.List.{list_any};
ghost use Rattle.std.specs.Option.{option_copied};
ghost use Rattle.formula_core.specs.declared.ty.Ty.{Ty};
ghost use Rattle.formula_core.specs.Types.{same_type};
ghost use Rattle.check_rules.specs.Refinements.{has_other_type};
ghost use Rattle.refine_check.specs.Private.{is_other_type, is_other_there};

use formula_core::{Name, OutOfMemory, Ty};
use std::collections::BTreeMap;

/// The types that a parameter has.
#[derive(Clone, Copy)]
pub(crate) enum Known<'a> {
    One(&'a Ty),
    Several,
}

/// The types that parameters have, by their names.
pub(crate) type Types<'a> = BTreeMap<&'a str, Known<'a>>;

#[tactic(auto, using(crate::proofs::OtherTypes::known_same, crate::proofs::OtherTypes::known_apart))]
fn with_type<'a>(known: Option<&Known<'a>>, ty: &'a Ty) -> Known<'a>
    ensures { (t : Ty)
        → is_other_type (Some result) t
        ≡ (is_other_type (option_copied known.entry) t || not (same_type ty.entry.now t)) }
{
    match known {
        None => Known::One(ty),
        Some(Known::Several) => Known::Several,
        Some(Known::One(one)) => {
            if one.same(ty) {
                Known::One(one)
            } else {
                Known::Several
            }
        }
    }
}

fn note_type<'a>(types: &mut Types<'a>, param: &'a (Name, Ty)) -> Result<(), OutOfMemory>
    ensures { OnOk result ((p : List ℕ × Ty)
        → is_other_there types.new p ≡ (is_other_there types.old p || has_other_type (param.entry.now ∷ []) p)) }
{
    let known = with_type(types.get(param.0.as_text()), &param.1);
    types.insert(param.0.as_text(), known)?;
    Ok(())
}

/// Notes the types of more parameters.
pub(crate) fn note_types<'a>(
    types: &mut Types<'a>,
    params: &'a [(Name, Ty)],
) -> Result<(), OutOfMemory>
    ensures { OnOk result ((p : List ℕ × Ty)
        → is_other_there types.new p ≡ (is_other_there types.old p || has_other_type params.entry.now p)) }
{
    for param in params {
        note_type(types, param)?;
    }
    Ok(())
}

fn is_other(known: Option<&Known<'_>>, ty: &Ty) -> bool
    ensures { result ≡ is_other_type (option_copied known.entry) ty.now }
{
    match known {
        None => false,
        Some(Known::Several) => true,
        Some(Known::One(one)) => !one.same(ty),
    }
}

/// Whether a parameter has another type there.
fn is_other_there(types: &Types<'_>, param: &(Name, Ty)) -> bool
    ensures { result ≡ is_other_there types.now param.now }
{
    is_other(types.get(param.0.as_text()), &param.1)
}

/// Whether one of the parameters has another type there.
pub(crate) fn has_other_there(types: &Types<'_>, params: &[(Name, Ty)]) -> bool
    ensures { result ≡ list_any (is_other_there types.now) params.now }
{
    for param in params {
        if is_other_there(types, param) {
            return true;
        }
    }
    false
}
