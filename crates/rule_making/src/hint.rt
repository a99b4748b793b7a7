//! What a hint names of a sequent.
ghost use Rattle.std.specs.Prelude.{◌≡◌, ◌++◌, [], bytes_eq, is_some, slice_get, IfOk, OnOk};
ghost use Rattle.std.specs.List.{list_all, list_any};
ghost use Rattle.std.specs.Option.{option_copied, option_to_list};
ghost use Rattle.rule_table.specs.Shapes.{one_bound};
ghost use Rattle.rule_making.specs.Make.{hypothesis, first_hyp, rewritten_in, has_places, types_under, replaced_types, first_taken, hyps_at};

use formula_core::{Binder, Env, Formula, List, Name, OutOfMemory, Ty};
use rule_table::one_bound;
use rules_arith::at_place;
use sequent_core::{Hint, Sequent};
use std::alloc::Global;

/// The hypothesis with a number, from 1.
fn hypothesis(sequent: &Sequent, number: u32) -> Option<&Formula>
    ensures { option_copied result ≡ hypothesis sequent.now number }
{
    if number == 0 {
        return None;
    }
    formula_at(sequent.hyps.items(), (number - 1) as usize)
}

fn formula_at(formulas: &[Formula], i: usize) -> Option<&Formula>
    ensures { option_copied result ≡ slice_get formulas.now i }
{
    if i < formulas.len() {
        Some(&formulas[i])
    } else {
        None
    }
}

/// The hypothesis that the hint names first.
fn first_hyp<'a>(hint: &Hint, sequent: &'a Sequent) -> Option<&'a Formula>
    ensures { option_copied result ≡ first_hyp sequent.now hint.now }
{
    match hint.hyps.items() {
        [number, ..] => hypothesis(sequent, *number),
        [] => None,
    }
}

/// The formula in which a law rewrites, where the kind rewrites.
fn rewritten_in<'a>(kind: u8, hint: &Hint, sequent: &'a Sequent) -> Option<&'a Formula>
    ensures { option_copied result ≡ rewritten_in kind hint.now sequent.now }
{
    if kind == 29 {
        return Some(&sequent.goal);
    }
    if kind == 30 {
        return first_hyp(hint, sequent);
    }
    None
}

fn are_hypotheses(sequent: &Sequent, numbers: &[u32]) -> bool
    ensures { result ≡ list_all (λ i. is_some (hypothesis sequent.now i)) numbers.now }
{
    for number in numbers {
        if hypothesis(sequent, *number).is_none() {
            return false;
        }
    }
    true
}

/// Whether each hypothesis that the hint names is there, and the place in the formula that is rewritten.
pub(crate) fn has_places(kind: u8, hint: &Hint, sequent: &Sequent) -> bool
    ensures { result ≡ has_places kind hint.now sequent.now }
{
    if !are_hypotheses(sequent, hint.hyps.items()) {
        return false;
    }
    match rewritten_in(kind, hint, sequent) {
        Some(f) => at_place(hint.place.items(), f).is_some(),
        None => true,
    }
}

/// The types of the identifiers that terms replace, where the hypothesis or the goal binds some.
pub(crate) fn replaced_types<'a>(kind: u8, hint: &Hint, sequent: &'a Sequent) -> &'a [Ty]
    ensures { result.now ≡ replaced_types kind hint.now sequent.now }
{
    if kind == 18 {
        return match first_hyp(hint, sequent) {
            Some(h) => types_under(Binder::ForAll, h),
            None => &[],
        };
    }
    if kind == 19 {
        return types_under(Binder::Exists, &sequent.goal);
    }
    &[]
}

fn types_under(binder: Binder, f: &Formula) -> &[Ty]
    ensures { result.now ≡ types_under (one_bound binder f.now) }
{
    match one_bound(binder, f) {
        Some((types, _)) => types,
        None => &[],
    }
}

/// The first name that stands in the environment or earlier among the names.
#[tactic(auto, using(crate::proofs::HintNames::laws))]
pub(crate) fn first_taken<'a>(env: &Env, names: &'a [Name]) -> Option<&'a Name>
    ensures { option_copied result ≡ first_taken env.now [] names.now }
{
    for i in 0..names.len() {
        if env.get(&names[i]).is_some() {
            return Some(&names[i]);
        }
        if is_among(&names[..i], &names[i]) {
            return Some(&names[i]);
        }
    }
    None
}

fn is_among(names: &[Name], name: &Name) -> bool
    ensures { result ≡ list_any (bytes_eq name.now) names.now }
{
    for other in names {
        if name.same(other) {
            return true;
        }
    }
    false
}

/// The hypotheses with these numbers, as far as they are there.
#[tactic(auto, using(crate::proofs::HintNames::hyps_more))]
pub(crate) fn hyps_at(
    alloc: Global,
    sequent: &Sequent,
    numbers: &[u32],
) -> Result<List<Formula>, OutOfMemory>
    ensures { IfOk result (λ hyps. hyps ≡ hyps_at sequent.now numbers.now) }
{
    let mut hyps = Vec::new(alloc);
    for number in numbers {
        add_found(alloc, hypothesis(sequent, *number), &mut hyps)?;
    }
    Ok(List::of(hyps))
}

fn add_found(
    alloc: Global,
    found: Option<&Formula>,
    hyps: &mut Vec<Formula>,
) -> Result<(), OutOfMemory>
    ensures { OnOk result (hyps.new.items ≡ hyps.old.items ++ option_to_list (option_copied found.entry)) }
{
    if let Some(h) = found {
        hyps.push(h.copy(alloc)?)?;
    }
    Ok(())
}
