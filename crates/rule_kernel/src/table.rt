//! Whether a rule is one of the table.
ghost use Rattle.std.specs.Prelude.{◌≡◌, ◌↔◌, IsTrue, IsSome, IfOk, IfSome, Some};
ghost use Rattle.rule_table.specs.Rows.{IsInstance, instance};
ghost use Rattle.rule_table.specs.Rules.{IsRule, IsSound, body_of, used_of};

use crate::instances::instance;
use crate::names::{have_one_type, in_order, names_of, used_among};
use crate::read::main_of;
use crate::same::same_body;
use crate::sound::has_sound_parts;
use formula_core::{List, Name, OutOfMemory, Ty, same_identifiers};
use instance_size::{outgrows, room_of};
use rule_table::{Main, Rule};
use std::alloc::Global;

/// Whether a rule is one of the table.
pub fn is_rule(alloc: Global, rule: &Rule) -> Result<bool, OutOfMemory>
    ensures rule { IfOk result (λ is. IsTrue is ↔ IsRule rule.now) }
{
    let Some(used) = used_if_sound(alloc, rule)? else {
        return Ok(false);
    };
    if !same_identifiers(used.items(), rule.used.items()) {
        return Ok(false);
    }
    is_instance(alloc, rule)
}

/// The names that a rule asks of a sequent, where it is right but for its form.
pub fn used_if_sound(alloc: Global, rule: &Rule) -> Result<Option<List<(Name, Ty)>>, OutOfMemory>
    ensures sound { IfOk result (λ o. IsSome o ↔ IsSound rule.now.kind (body_of rule.now)) }
    ensures used { IfOk result (λ o. IfSome o (λ used. used ≡ used_of rule.now.kind (body_of rule.now))) }
{
    if !has_sound_parts(alloc, rule)? {
        return Ok(None);
    }
    let names = names_of(alloc, rule)?;
    let sorted = in_order(alloc, &names)?;
    if !have_one_type(&names, &sorted) {
        return Ok(None);
    }
    Ok(Some(used_among(alloc, &names, rule)?))
}

/// Whether a rule is the instance of its kind for its main formulas. An instance that would leave a larger formula than
/// the rule does isn't built.
pub(crate) fn is_instance(alloc: Global, rule: &Rule) -> Result<bool, OutOfMemory>
    ensures instance { IfOk result (λ is. IsTrue is ↔ IsInstance rule.now.kind (body_of rule.now)) }
{
    let main = main_of(alloc, rule)?;
    is_instance_for(alloc, rule, &main)
}

/// Whether a rule is the instance of its kind for these main formulas.
fn is_instance_for(alloc: Global, rule: &Rule, main: &Main) -> Result<bool, OutOfMemory>
    ensures { IfOk result (λ is. IsTrue is ↔ (instance rule.now.kind main.now ≡ Some (body_of rule.now))) }
{
    let room = room_of(rule.antecedents.items());
    let large = outgrows(alloc, &rule.kind, main, room)?;
    if large {
        return Ok(false);
    }
    is_built(alloc, rule, main)
}

/// As `is_instance_for`, by building the instance.
fn is_built(alloc: Global, rule: &Rule, main: &Main) -> Result<bool, OutOfMemory>
    ensures { IfOk result (λ is. IsTrue is ↔ (instance rule.now.kind main.now ≡ Some (body_of rule.now))) }
{
    match instance(alloc, &rule.kind, main)? {
        Some(body) => Ok(same_body(&body, rule)),
        None => Ok(false),
    }
}
