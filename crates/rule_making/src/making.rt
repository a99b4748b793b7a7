//! Rules that are made of a kind and a hint, for a sequent.
ghost use Rattle.std.specs.Prelude.{◌≡◌, ◌↔◌, ◌&&◌, if◌then◌else◌, IsTrue, IfOk, None, Err, take};
ghost use Rattle.std.specs.List.{AllByRecursion};
ghost use Rattle.formula_core.specs.Env.{type_in};
ghost use Rattle.formula_core.specs.Same.{same_formula, same_list};
ghost use Rattle.rule_table.specs.Rows.{IsInstance};
ghost use Rattle.rule_table.specs.Rules.{body_of, used_of, width, rule_of};
ghost use Rattle.sequent_core.specs.Trees.{IsFresh};
ghost use Rattle.rule_making.specs.Make.{Answers, FitsAt, needing, instance_for, same_goal};
ghost use Rattle.instance_size.specs.Growth.{Outgrows, hyp_count, needs_goal};
ghost use Rattle.rule_making.specs.Private.{AnswersOver, FindsRule, GivesBody, IsMetBy, KeepsWhere, TestsBody, limits, needs_just};

use crate::fault::RuleFault;
use crate::hint::{first_taken, has_places, replaced_types};
use crate::kinds::{kind_of, main_for};
use crate::limits::is_small;
use crate::terms::typed_terms;
use formula_core::{Env, Formula, List, MOST_HEIGHT, MOST_NODES, Name, OutOfMemory, Ty};
use instance_size::{Extent, needed_hyps, needs_goal, outgrows};
use rule_kernel::{instance, used_if_sound};
use rule_table::{Antecedent, Body, Main, Rule, RuleKind};
use rules_arith::{linear_width, width_at};
use sequent_core::{Hint, Sequent, meets};
use std::alloc::Global;

/// The rule that a kind and a hint name, which applies to the sequent.
pub fn make(alloc: Global, kind: u8, hint: &Hint, sequent: &Sequent) -> Result<Rule, RuleFault>
    ensures answer { Answers kind hint.now sequent.now result }
    ensures fits { IfOk result (λ rule. FitsAt rule sequent.now) }
{
    if !has_places(kind, hint, sequent) {
        return Err(RuleFault::NoPlace);
    }
    let types = replaced_types(kind, hint, sequent);
    match typed_terms(alloc, &sequent.env, types, hint.terms.items())? {
        Some(terms) => make_with(alloc, kind, hint, terms.items(), sequent),
        None => Err(RuleFault::BadTerm),
    }
}

/// The rule that a kind and a hint name, with the terms of the hint.
fn make_with(
    alloc: Global,
    number: u8,
    hint: &Hint,
    terms: &[Formula],
    sequent: &Sequent,
) -> Result<Rule, RuleFault>
    ensures { AnswersOver number hint.now terms.now sequent.now result }
{
    if let Some(name) = first_taken(&sequent.env, hint.names.items()) {
        let name = name.copy(alloc)?;
        return Err(RuleFault::NotFresh(name));
    }
    match kind_of(alloc, number, hint, terms)? {
        Some(kind) => {
            let main = main_for(alloc, number, hint, terms, sequent)?;
            make_from(alloc, kind, &main, sequent)
        }
        None => Err(RuleFault::NoForm),
    }
}

/// The rule of a kind for main formulas.
fn make_from(
    alloc: Global,
    kind: RuleKind,
    main: &Main,
    sequent: &Sequent,
) -> Result<Rule, RuleFault>
    ensures { FindsRule sequent.now kind main.now result }
{
    let body = body_for(alloc, &kind, main)?;
    tested(alloc, without_names(alloc, kind, body), sequent)
}

/// What a rule of a kind for main formulas needs and leaves.
fn body_for(alloc: Global, kind: &RuleKind, main: &Main) -> Result<Body, RuleFault>
    ensures { GivesBody kind.now main.now result }
{
    if let Some((m, n)) = width(alloc, kind, main)? {
        return Err(RuleFault::TooWide(m, n));
    }
    let room = Extent {
        nodes: MOST_NODES,
        height: MOST_HEIGHT,
    };
    let large = outgrows(alloc, kind, main, room)?;
    if large {
        return Err(fault_of_large(kind, main));
    }
    match instance_for(alloc, kind, main)? {
        Some(body) => Ok(body),
        None => Err(RuleFault::NoForm),
    }
}

/// Why there is no rule where an instance would be too large: it has no form where it would need anything else than the
/// goal and the hypotheses that were named.
fn fault_of_large(kind: &RuleKind, main: &Main) -> RuleFault
    requires width { width kind.now main.now ≡ None }
    requires large { Outgrows limits kind.now main.now }
    ensures { GivesBody kind.now main.now (Err result) }
{
    if !needs_just(kind, main) {
        return RuleFault::NoForm;
    }
    RuleFault::TooLarge
}

/// Whether a kind whose instances can grow needs just the goal and the hypotheses that were named.
fn needs_just(kind: &RuleKind, main: &Main) -> bool
    ensures { result ≡ needs_just kind.now main.now }
{
    needs_just_goal(kind, &main.goal) && needs_just_hyps(kind, main.hyps.items())
}

#[tactic(auto, using(crate::proofs::Grown::same_goal_refl, crate::proofs::Grown::same_as_none))]
fn needs_just_goal(kind: &RuleKind, goal: &Option<Formula>) -> bool
    ensures { result ≡ same_goal (if needs_goal kind.now then goal.now else None) goal.now }
{
    needs_goal(kind) || goal.is_none()
}

fn needs_just_hyps(kind: &RuleKind, hyps: &[Formula]) -> bool
    ensures { result ≡ same_list same_formula (take (hyp_count kind.now) hyps.now) hyps.now }
{
    same_hyps(needed_hyps(kind, hyps), hyps)
}

/// The operands whose result is too wide, where a kind computes.
fn width(alloc: Global, kind: &RuleKind, main: &Main) -> Result<Option<(i128, i128)>, OutOfMemory>
    ensures { IfOk result (λ o. o ≡ width kind.now main.now) }
{
    match kind {
        RuleKind::RwGoal(law, place) => match &main.goal {
            Some(goal) => Ok(width_at(*law, place.items(), goal)),
            None => Ok(None),
        },
        RuleKind::RwHyp(law, place) => match main.hyps.items() {
            [hyp, ..] => Ok(width_at(*law, place.items(), hyp)),
            [] => Ok(None),
        },
        RuleKind::Linear(multipliers) => match &main.goal {
            Some(goal) => linear_width(alloc, multipliers.items(), main.hyps.items(), goal),
            None => Ok(None),
        },
        _ => Ok(None),
    }
}

/// What an instance needs and leaves, where it needs just the goal and the hypotheses that were named.
#[tactic(auto, unfolding(crate::specs::Make::instance_for))]
fn instance_for(alloc: Global, kind: &RuleKind, main: &Main) -> Result<Option<Body>, OutOfMemory>
    ensures { IfOk result (λ o. o ≡ instance_for kind.now main.now) }
{
    match instance(alloc, kind, main)? {
        Some(body) => Ok(needing(main, body)),
        None => Ok(None),
    }
}

fn needing(main: &Main, body: Body) -> Option<Body>
    ensures { result ≡ needing main.now body }
{
    if needs_main(main, &body) {
        Some(body)
    } else {
        None
    }
}

fn needs_main(main: &Main, body: &Body) -> bool
    ensures { result ≡ (same_goal body.now.goal main.now.goal && same_list same_formula body.now.hyps main.now.hyps) }
{
    same_goal(&body.goal, &main.goal) && same_hyps(body.hyps.items(), main.hyps.items())
}

fn same_goal(a: &Option<Formula>, b: &Option<Formula>) -> bool
    ensures { result ≡ same_goal a.now b.now }
{
    match a {
        Some(f) => match b {
            Some(g) => f.same(g),
            None => false,
        },
        None => match b {
            Some(_) => false,
            None => true,
        },
    }
}

#[tactic(auto, using(crate::proofs::Hyps::laws))]
fn same_hyps(xs: &[Formula], ys: &[Formula]) -> bool
    ensures { result ≡ same_list same_formula xs.now ys.now }
{
    if xs.len() != ys.len() {
        return false;
    }
    for i in 0..xs.len() {
        if !xs[i].same(&ys[i]) {
            return false;
        }
    }
    true
}

/// A rule of a kind with what it needs and leaves, without names.
fn without_names(alloc: Global, kind: RuleKind, body: Body) -> Rule
    ensures kind { result.kind ≡ kind }
    ensures body { body_of result ≡ body }
{
    Rule {
        kind,
        needed_goal: body.goal,
        needed_hyps: body.hyps,
        used: List::of(Vec::new(alloc)),
        antecedents: body.antecedents,
    }
}

/// The rule, where with the names that it asks for it is one of the table and applies to the sequent.
fn tested(alloc: Global, rule: Rule, sequent: &Sequent) -> Result<Rule, RuleFault>
    requires { IsInstance rule.kind (body_of rule) }
    ensures { TestsBody sequent.now rule.kind (body_of rule) result }
{
    if !is_small(&rule) {
        return Err(RuleFault::TooLarge);
    }
    match used_if_sound(alloc, &rule)? {
        Some(used) => if_applies(with_names(rule, used), sequent),
        None => Err(RuleFault::NoForm),
    }
}

/// The rule with the names that it asks for.
fn with_names(mut rule: Rule, used: List<(Name, Ty)>) -> Rule
    requires { used ≡ used_of rule.kind (body_of rule) }
    ensures { result ≡ rule_of rule.kind (body_of rule) }
{
    rule.used = used;
    rule
}

/// The rule, where it applies to the sequent.
fn if_applies(rule: Rule, sequent: &Sequent) -> Result<Rule, RuleFault>
    ensures { KeepsWhere (IsMetBy sequent.now rule) rule result }
{
    if applies(&rule, sequent) {
        Ok(rule)
    } else {
        Err(RuleFault::NoForm)
    }
}

/// Whether the sequent meets the rule, and what the rule adds is fresh.
fn applies(rule: &Rule, sequent: &Sequent) -> bool
    ensures { IsTrue result ↔ IsMetBy sequent.now rule.now }
{
    meets(rule, sequent) && are_fresh(sequent, rule.antecedents.items())
}

fn are_fresh(sequent: &Sequent, antecedents: &[Antecedent]) -> bool
    ensures { IsTrue result ↔ AllByRecursion (IsFresh sequent.now) antecedents.now }
{
    for antecedent in antecedents {
        if !is_fresh(sequent, antecedent) {
            return false;
        }
    }
    true
}

fn is_fresh(sequent: &Sequent, antecedent: &Antecedent) -> bool
    ensures { IsTrue result ↔ IsFresh sequent.now antecedent.now }
{
    are_absent(&sequent.env, antecedent.idents.items())
}

fn are_absent(env: &Env, identifiers: &[(Name, Ty)]) -> bool
    ensures { IsTrue result ↔ AllByRecursion (λ x. type_in env.now x.0 ≡ None) identifiers.now }
{
    for identifier in identifiers {
        if env.get(&identifier.0).is_some() {
            return false;
        }
    }
    true
}
