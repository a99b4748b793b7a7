//! Instances of universal hypotheses, found by matching, the best first.
use crate::pairs::tells_pairs;
use formula_core::{Binder, Op};
use search_facts::{Facts, Next, Plan, Trigger, Turn, Way, is_in};
use search_steps::{Bank, Head, Id, Kind, NONE, Stop};
use search_terms::{
    Branch, Instance, Spread, assembled, filled, is_full, is_plain, left_whole, matches, may_match,
    misses, take_apart, unfilled,
};
use std::alloc::Global;

/// The most candidates of one formula, and the most matches of one trigger.
const MOST: usize = 100;

const MOST_MATCHES: usize = 40;

/// How many instances of one rank are used in a row.
const MOST_AT_ONCE: u32 = 7;

/// What is matched against: atoms and applications without bound identifiers.
#[derive(Drop)]
pub(crate) struct Ground {
    pub atoms: Vec<Id>,
    pub applications: Vec<Id>,
}

impl Ground {
    /// What a trigger is matched against, by whether it is a term.
    fn pool(&self, is_term: bool) -> &[Id] {
        if is_term {
            &self.applications
        } else {
            &self.atoms
        }
    }
}

/// A trigger, the ground formulas that are like it at a glance, and how many there are in all.
#[derive(Drop)]
struct Target {
    trigger: Trigger,
    like: Vec<Id>,
    count: usize,
}

/// The most alternatives that an instance may leave.
const MOST_ALTERNATIVES: u32 = 3;

/// Instances that leave more alternatives than the best, and the looks that it took to find all.
#[derive(Drop)]
pub struct Others {
    found: Vec<Instance>,
    looks: u32,
}

impl Others {
    pub fn new(alloc: Global) -> Others {
        Others {
            found: Vec::new(alloc),
            looks: 0,
        }
    }
}

/// Instances by how many alternatives they leave: at most one, or more. What a bare formula tells is worth none.
#[derive(Drop)]
struct Instances {
    best: Vec<Instance>,
    others: Vec<Instance>,
}

impl Instances {
    fn add(&mut self, instance: Instance, is_bare: bool) -> Result<(), Stop> {
        let cost = instance.rank.0;
        if cost == 0 || cost == 1 && !is_bare {
            self.best.push(instance)?;
        } else if cost <= MOST_ALTERNATIVES {
            self.others.push(instance)?;
        }
        Ok(())
    }
}

fn ground_of(facts: &mut Facts, b: &Branch) -> Result<Ground, Stop> {
    let mut ground = Ground {
        atoms: Vec::new(facts.search.alloc()),
        applications: Vec::new(facts.search.alloc()),
    };
    for i in 0..b.order.len() {
        let h = b.at(i);
        let f = if facts.search.bank.is(h, Op::Not) {
            facts.search.bank.part(h, 0)
        } else {
            h
        };
        facts.search.look()?;
        if b.is_live(h) {
            facts.add_closed_values(h, &mut ground.applications, 40)?;
        }
        if is_atom(facts, f) && (b.is_live(h) || facts.search.bank.is(f, Op::Member)) {
            ground.atoms.push(f)?;
        }
        if b.is_live(h) && facts.search.bank.binds(h, Binder::ForAll) && !is_partner(facts, h) {
            add_inner_atoms(facts, h, &mut ground.atoms)?;
        }
    }
    Ok(ground)
}

/// Memberships of pairs inside a `∀`.
fn add_inner_atoms(facts: &mut Facts, h: Id, out: &mut Vec<Id>) -> Result<(), Stop> {
    let spread = take_apart(&mut facts.search.bank, h)?;
    let triggers = facts.triggers(spread.body)?;
    for trigger in &triggers {
        let f = trigger.formula;
        if facts.search.bank.is(f, Op::Member)
            && facts
                .search
                .bank
                .is(facts.search.bank.part(f, 0), Op::Maplet)
            && facts.search.bank.is_closed(facts.search.bank.part(f, 1))
            && !is_in(out, f)
        {
            out.push(f)?;
        }
    }
    Ok(())
}

fn is_atom(facts: &Facts, f: Id) -> bool {
    match facts.search.bank.operator(f) {
        Some(op) => match op {
            Op::Not | Op::And | Op::Or | Op::Implies | Op::Equivalent => false,
            _ => true,
        },
        None => false,
    }
}

/// `∀x·x ∈ S ⇒ (∃y·x ↦ y ∈ r)`, or with `y ↦ x`.
pub fn is_partner(facts: &Facts, f: Id) -> bool {
    let body = facts.search.bank.part(f, 0);
    if !facts.search.bank.is(body, Op::Implies) || facts.search.bank.term(f).types.count != 1 {
        return false;
    }
    let (left, right) = facts.search.bank.two(body);
    let inner = facts.search.bank.part(right, 0);
    is_index_in(facts, left)
        && facts.search.bank.binds(right, Binder::Exists)
        && facts.search.bank.is(inner, Op::Member)
        && facts
            .search
            .bank
            .is(facts.search.bank.part(inner, 0), Op::Maplet)
        && facts
            .search
            .bank
            .is_closed(facts.search.bank.part(inner, 1))
}

fn is_index(facts: &Facts, id: Id) -> bool {
    match facts.search.bank.term(id).head {
        Head::Bound(_) => true,
        _ => false,
    }
}

fn is_index_in(facts: &Facts, f: Id) -> bool {
    facts.search.bank.is(f, Op::Member) && is_index(facts, facts.search.bank.part(f, 0))
}

/// Facts of functions, which are used forward alone: uniqueness, membership in a product, partners.
fn is_structural(facts: &Facts, f: Id) -> bool {
    if is_partner(facts, f) {
        return true;
    }
    let body = facts.search.bank.part(f, 0);
    if !facts.search.bank.is(body, Op::Implies) {
        return false;
    }
    let (left, right) = facts.search.bank.two(body);
    let count = facts.search.bank.term(f).types.count;
    let is_unique = count == 3
        && facts.search.bank.is(left, Op::And)
        && facts.search.bank.is(right, Op::Equal);
    let is_within = count == 1
        && is_index_in(facts, left)
        && facts.search.bank.is(right, Op::Member)
        && facts
            .search
            .bank
            .is(facts.search.bank.part(right, 1), Op::Product);
    is_unique || is_within
}

/// A `∀` over a single literal that no law opens: an instance tells only its own literal.
fn is_bare(facts: &mut Facts, f: Id) -> Result<bool, Stop> {
    let mut body = facts.search.bank.part(f, 0);
    if facts.search.bank.is(body, Op::Not) {
        body = facts.search.bank.part(body, 0);
    }
    if !is_atom(facts, body) {
        return Ok(false);
    }
    Ok(match facts.law_for(body)? {
        Some(law) => !is_plain(law),
        None => true,
    })
}

/// Whether a trigger's set is an identifier of the binder.
fn is_loose_set(facts: &Facts, trigger: Trigger) -> bool {
    let f = trigger.formula;
    facts.search.bank.is(f, Op::Member) && is_index(facts, facts.search.bank.part(f, 1))
}

/// Terms for the identifiers of a `∀` as a spread has them.
fn candidates(
    facts: &mut Facts,
    f: Id,
    spread: &Spread,
    ground: &Ground,
) -> Result<Vec<Vec<Id>>, Stop> {
    let all = facts.triggers(spread.body)?;
    let mut triggers = Vec::new(facts.search.alloc());
    for trigger in &all {
        if !is_loose_set(facts, *trigger) {
            triggers.push(*trigger)?;
        }
    }
    if is_of_all(facts, f, 40)? {
        triggers = for_values(facts, triggers, spread.count)?;
    }
    let mut found = Vec::new(facts.search.alloc());
    let terms = unfilled(facts.search.alloc(), spread.count)?;
    let targets = targets_of(facts, &triggers, ground)?;
    join(facts, &targets, 0, &terms, &mut found, 9)?;
    if found.is_empty() && spread.count > 1 && spread.count <= 4 && triggers.len() <= 12 {
        let back = reversed(facts, &triggers)?;
        let targets = targets_of(facts, &back, ground)?;
        join(facts, &targets, 0, &terms, &mut found, 9)?;
    }
    Ok(found)
}

/// Whether a formula has no names but those of sets of all values of a type.
fn is_of_all(facts: &mut Facts, f: Id, levels: u32) -> Result<bool, Stop> {
    let term = facts.search.bank.term(f);
    if levels == 0 || term.names.count > 4 {
        return Ok(false);
    }
    if term.names.count == 0 {
        return Ok(true);
    }
    if facts.search.bank.is_free(f) {
        return facts.is_whole(f);
    }
    for i in 0..term.parts.count {
        let part = facts.search.bank.at(term.parts, i);
        if !is_of_all(facts, part, levels - 1)? {
            return Ok(false);
        }
    }
    Ok(true)
}

/// Of the triggers of a law of integers or sets: the largest of those that no linear step speaks of and that have all
/// identifiers, where there are such; else those that no linear step speaks of, if these have all identifiers together;
/// else all.
fn for_values(facts: &Facts, triggers: Vec<Trigger>, count: u32) -> Result<Vec<Trigger>, Stop> {
    let mut whole: Vec<Trigger> = Vec::new(facts.search.alloc());
    let mut some: Vec<Trigger> = Vec::new(facts.search.alloc());
    let mut largest: u32 = 0;
    for trigger in &triggers {
        if trigger.depth == 0 && facts.is_nonlinear(trigger.formula) {
            some.push(*trigger)?;
            let size = facts.search.bank.size(trigger.formula);
            if has_all(facts, &[*trigger], count)? && size >= largest {
                if size > largest {
                    whole.clear();
                }
                largest = size;
                whole.push(*trigger)?;
            }
        }
    }
    if !whole.is_empty() {
        return Ok(whole);
    }
    if !some.is_empty() && has_all(facts, &some, count)? {
        return Ok(some);
    }
    Ok(triggers)
}

/// Whether each of so many identifiers stands in one of the triggers.
fn has_all(facts: &Facts, triggers: &[Trigger], count: u32) -> Result<bool, Stop> {
    for i in 0..count {
        let mut terms: Vec<Id> = Vec::new(facts.search.alloc());
        for j in 0..count {
            terms.push(if i == j { NONE } else { 0 })?;
        }
        let mut is_there = false;
        for trigger in triggers {
            if misses(
                &facts.search.bank,
                trigger.formula,
                trigger.depth,
                &terms,
                64,
            ) {
                is_there = true;
            }
        }
        if !is_there {
            return Ok(false);
        }
    }
    Ok(true)
}

fn reversed(facts: &Facts, triggers: &[Trigger]) -> Result<Vec<Trigger>, Stop> {
    let mut back = Vec::new(facts.search.alloc());
    for i in 0..triggers.len() {
        back.push(triggers[triggers.len() - 1 - i])?;
    }
    Ok(back)
}

fn targets_of(facts: &Facts, triggers: &[Trigger], ground: &Ground) -> Result<Vec<Target>, Stop> {
    let mut targets = Vec::new(facts.search.alloc());
    for trigger in triggers {
        let pool = ground.pool(!facts.is_predicate(trigger.formula));
        let mut like = Vec::new(facts.search.alloc());
        for other in pool {
            if may_match(&facts.search.bank, trigger.formula, *other) {
                like.push(*other)?;
            }
        }
        targets.push(Target {
            trigger: *trigger,
            like,
            count: pool.len(),
        })?;
    }
    Ok(targets)
}

/// Goes on with the triggers from a place.
#[cycle(join)]
fn join(
    facts: &mut Facts,
    targets: &[Target],
    from: usize,
    terms: &[Id],
    found: &mut Vec<Vec<Id>>,
    levels: u32,
) -> Result<(), Stop> {
    if found.len() >= MOST || levels == 0 {
        return Ok(());
    }
    if is_full(terms) {
        return add_once(found, terms);
    }
    if is_begun(terms) {
        add_filled(facts, targets, terms, found)?;
    }
    for i in from..targets.len() {
        let trigger = targets[i].trigger;
        if misses(
            &facts.search.bank,
            trigger.formula,
            trigger.depth,
            terms,
            64,
        ) {
            join_matches(facts, targets, i, terms, found, levels - 1)?;
        }
    }
    Ok(())
}

#[cycle(join)]
fn join_matches(
    facts: &mut Facts,
    targets: &[Target],
    at: usize,
    terms: &[Id],
    found: &mut Vec<Vec<Id>>,
    levels: u32,
) -> Result<(), Stop> {
    if levels == 0 || at >= targets.len() {
        return Ok(());
    }
    let matches = matches_of(facts, &targets[at], terms)?;
    for more in &matches {
        join(facts, targets, at + 1, more, found, levels - 1)?;
    }
    Ok(())
}

/// Terms with which a trigger is one of the ground formulas.
fn matches_of(facts: &mut Facts, target: &Target, terms: &[Id]) -> Result<Vec<Vec<Id>>, Stop> {
    let mut found = Vec::new(facts.search.alloc());
    let mut more = Vec::from_slice(facts.search.alloc(), terms)?;
    let trigger = target.trigger;
    if trigger.depth == 0 && filled(&mut facts.search.bank, trigger.formula, &mut more)? {
        add_once(&mut found, &more)?;
    }
    let is_equation = facts.search.bank.is(trigger.formula, Op::Equal);
    facts.search.look_over(target.count)?;
    for other in &target.like {
        if found.len() >= MOST_MATCHES {
            return Ok(found);
        }
        facts.search.look()?;
        if is_equation {
            add_equation(
                &facts.search.bank,
                trigger,
                *other,
                terms,
                &mut more,
                &mut found,
            )?;
        } else {
            add_match(
                &facts.search.bank,
                trigger,
                *other,
                terms,
                &mut more,
                &mut found,
            )?;
        }
    }
    Ok(found)
}

/// Adds the terms with which a trigger is a ground formula, if there are such. `more` is where they are tried.
fn add_match(
    bank: &Bank,
    trigger: Trigger,
    other: Id,
    terms: &[Id],
    more: &mut Vec<Id>,
    found: &mut Vec<Vec<Id>>,
) -> Result<(), Stop> {
    put_back(more, terms);
    if matches(bank, trigger.formula, other, trigger.depth, more, 32) {
        return add_more(found, more, terms);
    }
    Ok(())
}

/// The same for two equations, of which one may be turned round.
fn add_equation(
    bank: &Bank,
    trigger: Trigger,
    other: Id,
    terms: &[Id],
    more: &mut Vec<Id>,
    found: &mut Vec<Vec<Id>>,
) -> Result<(), Stop> {
    let (left, right) = bank.two(trigger.formula);
    let (first, second) = bank.two(other);
    if bank.ty(left) != bank.ty(first) {
        return Ok(());
    }
    add_match(bank, trigger, other, terms, more, found)?;
    put_back(more, terms);
    if matches(bank, left, second, trigger.depth, more, 31)
        && matches(bank, right, first, trigger.depth, more, 31)
    {
        return add_more(found, more, terms);
    }
    Ok(())
}

/// Terms become others again, of which there are as many.
fn put_back(terms: &mut Vec<Id>, before: &[Id]) {
    for i in 0..before.len() {
        if i < terms.len() {
            terms[i] = before[i];
        }
    }
}

/// Adds terms that have more than those before.
fn add_more(found: &mut Vec<Vec<Id>>, more: &[Id], before: &[Id]) -> Result<(), Stop> {
    if is_same(more, before) {
        return Ok(());
    }
    add_once(found, more)
}

/// Whether an identifier has a term.
fn is_begun(terms: &[Id]) -> bool {
    for term in terms {
        if *term != NONE {
            return true;
        }
    }
    false
}

/// Adds the terms with those that equations of the body give, if these are all.
fn add_filled(
    facts: &mut Facts,
    targets: &[Target],
    terms: &[Id],
    found: &mut Vec<Vec<Id>>,
) -> Result<(), Stop> {
    let mut full = Vec::from_slice(facts.search.alloc(), terms)?;
    fill_all(facts, targets, &mut full)?;
    if is_full(&full) {
        return add_once(found, &full);
    }
    Ok(())
}

/// Fills identifiers by equations of the body.
fn fill_all(facts: &mut Facts, targets: &[Target], terms: &mut Vec<Id>) -> Result<(), Stop> {
    for target in targets {
        let trigger = target.trigger;
        if trigger.depth == 0 {
            let _ = filled(&mut facts.search.bank, trigger.formula, terms)?;
        }
    }
    Ok(())
}

/// The small terms of the branch for the one identifier of a `∀`, or for its two.
fn small_terms(facts: &mut Facts, b: &Branch, f: Id) -> Result<Vec<Vec<Id>>, Stop> {
    let mut found = Vec::new(facts.search.alloc());
    let types = facts.search.bank.term(f).types;
    if types.count == 0 || types.count > 2 {
        return Ok(found);
    }
    let ty = facts.search.bank.at(types, 0);
    let firsts = small_terms_of(facts, b, f, ty)?;
    if types.count == 1 {
        for first in &firsts {
            let mut one = Vec::new(facts.search.alloc());
            one.push(*first)?;
            found.push(one)?;
        }
        return Ok(found);
    }
    let ty = facts.search.bank.at(types, 1);
    let seconds = small_terms_of(facts, b, f, ty)?;
    for first in &firsts {
        for second in &seconds {
            let mut two = Vec::new(facts.search.alloc());
            two.push(*first)?;
            two.push(*second)?;
            found.push(two)?;
        }
    }
    Ok(found)
}

/// The first five small terms of a type, those of the `∀` before those of the branch.
fn small_terms_of(facts: &mut Facts, b: &Branch, f: Id, ty: Id) -> Result<Vec<Id>, Stop> {
    let mut terms = Vec::new(facts.search.alloc());
    facts.add_terms_of(f, ty, &mut terms, 40)?;
    for i in 0..b.order.len() {
        let h = b.at(i);
        facts.search.look()?;
        if b.is_live(h) && terms.len() < 24 {
            facts.add_terms_of(h, ty, &mut terms, 40)?;
        }
    }
    if terms.is_empty() {
        add_plain_term(facts, ty, &mut terms)?;
    }
    for _ in 5..terms.len() {
        let _ = terms.pop();
    }
    Ok(terms)
}

/// `TRUE` or 0, for a type of these.
fn add_plain_term(facts: &mut Facts, ty: Id, out: &mut Vec<Id>) -> Result<(), Stop> {
    if ty == Bank::BOOL {
        out.push(facts.search.yes)?;
    }
    if ty == Bank::INT {
        let zero = facts.search.bank.int(0)?;
        out.push(zero)?;
    }
    Ok(())
}

/// The instances of a hypothesis.
fn add_instances(
    facts: &mut Facts,
    b: &Branch,
    f: Id,
    ground: &Ground,
    out: &mut Instances,
) -> Result<(), Stop> {
    let spread = take_apart(&mut facts.search.bank, f)?;
    let mut found = candidates(facts, f, &spread, ground)?;
    let is_split = spread.count == facts.search.bank.term(f).types.count;
    if found.is_empty() && is_split {
        found = small_terms(facts, b, f)?;
    }
    let is_bare = is_bare(facts, f)?;
    for terms in &found {
        let whole = assembled(&mut facts.search.bank, &spread.shapes, terms)?;
        add_instance(facts, b, f, whole, is_bare, out)?;
    }
    if !is_split {
        add_named_pairs(facts, b, f, ground, is_bare, out)?;
    }
    Ok(())
}

/// The instances of a hypothesis at values of product types that aren't written as pairs.
fn add_named_pairs(
    facts: &mut Facts,
    b: &Branch,
    f: Id,
    ground: &Ground,
    is_bare: bool,
    out: &mut Instances,
) -> Result<(), Stop> {
    let spread = left_whole(&mut facts.search.bank, f)?;
    let found = candidates(facts, f, &spread, ground)?;
    for terms in &found {
        if has_named_pair(&facts.search.bank, terms) {
            let terms = Vec::from_slice(facts.search.alloc(), terms)?;
            add_instance(facts, b, f, terms, is_bare, out)?;
        }
    }
    Ok(())
}

/// Whether a term has a product type and isn't written as a pair.
fn has_named_pair(bank: &Bank, terms: &[Id]) -> bool {
    for term in terms {
        if bank.components(bank.ty(*term)).is_some() && !bank.is(*term, Op::Maplet) {
            return true;
        }
    }
    false
}

fn add_instance(
    facts: &mut Facts,
    b: &Branch,
    f: Id,
    terms: Vec<Id>,
    is_bare: bool,
    out: &mut Instances,
) -> Result<(), Stop> {
    let mut generation: u32 = 0;
    let mut size: u32 = 0;
    for term in &terms {
        if !facts.search.bank.is_closed(*term) {
            return Ok(());
        }
        generation = generation.max(facts.search.generation(*term));
        size = size.saturating_add(facts.search.bank.size(*term));
    }
    if generation >= 4 || generation >= 2 && is_partner(facts, f) {
        return Ok(());
    }
    let put = facts.put(f, &terms)?;
    if b.note(put).done {
        return Ok(());
    }
    let body = facts.normal(b, put)?;
    if is_structural(facts, f) {
        let condition = facts.search.bank.part(body, 0);
        if facts.known(b, condition, 14)? != Some(true) {
            return Ok(());
        }
    }
    let Some(cost) = cost(facts, b, body, true, 24)? else {
        return Ok(());
    };
    let far = if b.note(f).from_goal { 0 } else { 1 };
    let rank = (cost, far, facts.distance(body), size);
    out.add(Instance { of: f, terms, rank }, is_bare)
}

/// How many alternatives a formula leaves as a new hypothesis, or none where it tells nothing new.
fn cost(
    facts: &mut Facts,
    b: &Branch,
    f: Id,
    holds: bool,
    levels: u32,
) -> Result<Option<u32>, Stop> {
    if let Some(known) = facts.known(b, f, 14)? {
        return Ok(if known != holds { Some(0) } else { None });
    }
    if levels == 0 {
        return Ok(Some(1));
    }
    let (left, right) = facts.search.bank.two(f);
    match facts.search.bank.operator(f) {
        Some(Op::Not) => cost(facts, b, left, !holds, levels - 1),
        Some(Op::And) => {
            let first = cost(facts, b, left, holds, levels - 1)?;
            let second = cost(facts, b, right, holds, levels - 1)?;
            Ok(if holds {
                least(first, second)
            } else {
                sum(first, second)
            })
        }
        Some(Op::Or) => {
            let first = cost(facts, b, left, holds, levels - 1)?;
            let second = cost(facts, b, right, holds, levels - 1)?;
            Ok(if holds {
                sum(first, second)
            } else {
                least(first, second)
            })
        }
        Some(Op::Implies) => {
            let first = cost(facts, b, left, !holds, levels - 1)?;
            let second = cost(facts, b, right, holds, levels - 1)?;
            Ok(if holds {
                sum(first, second)
            } else {
                least(first, second)
            })
        }
        Some(_) => {
            let opened = opened_plainly(facts, f)?;
            if opened == NONE {
                return Ok(Some(1));
            }
            cost(facts, b, opened, holds, levels - 1)
        }
        None => Ok(Some(1)),
    }
}

/// What a law without a quantifier makes of a formula, or `NONE`.
fn opened_plainly(facts: &mut Facts, f: Id) -> Result<Id, Stop> {
    match facts.law_for(f)? {
        Some(law) if is_plain(law) => facts.search.by_law(law, f),
        _ => Ok(NONE),
    }
}

/// The best instance that leaves at most one alternative. Others as good wait for the next turns; those that leave more
/// are put aside.
pub fn best_instance(facts: &mut Facts, b: &mut Branch, aside: &mut Others) -> Result<Next, Stop> {
    for _ in 0..b.waiting.len() {
        if let Some(waiting) = b.waiting.pop() {
            if waiting.rank.0 <= 1 && is_still_good(facts, b, &waiting)? {
                return use_instance(facts, b, &waiting);
            }
        }
    }
    let before = facts.search.looks();
    let Instances { best, others } = instances_of(facts, b)?;
    aside.found = others;
    aside.looks = facts.search.looks().saturating_sub(before);
    first_of(facts, b, best)
}

/// The best of the instances that were put aside, in the branch as it was then.
pub fn other_instance(facts: &mut Facts, b: &mut Branch, aside: Others) -> Result<Next, Stop> {
    facts.search.look_again(aside.looks)?;
    first_of(facts, b, aside.found)
}

fn instances_of(facts: &mut Facts, b: &Branch) -> Result<Instances, Stop> {
    let mut found = Instances {
        best: Vec::new(facts.search.alloc()),
        others: Vec::new(facts.search.alloc()),
    };
    let ground = ground_of(facts, b)?;
    for i in 0..b.order.len() {
        let f = b.at(i);
        let is_universal = facts.search.bank.binds(f, Binder::ForAll);
        if b.is_live(f) && is_universal && !tells_pairs(&facts.search.bank, f) {
            add_instances(facts, b, f, &ground, &mut found)?;
        }
    }
    Ok(found)
}

/// The first of these is used, and those as good wait.
fn first_of(facts: &mut Facts, b: &mut Branch, found: Vec<Instance>) -> Result<Next, Stop> {
    let mut found = found;
    let Some(chosen) = take_best(&mut found) else {
        return Ok(Next::Turn(Turn::Still));
    };
    for _ in 0..MOST_AT_ONCE {
        let Some(next) = take_best(&mut found) else {
            return use_instance(facts, b, &chosen);
        };
        if next.rank.0 == chosen.rank.0 && next.rank.1 == chosen.rank.1 {
            b.waiting.insert(0, next)?;
        }
    }
    use_instance(facts, b, &chosen)
}

/// Whether an instance that waited still tells something.
fn is_still_good(facts: &mut Facts, b: &Branch, waiting: &Instance) -> Result<bool, Stop> {
    if !b.is_live(waiting.of) {
        return Ok(false);
    }
    let put = facts.put(waiting.of, &waiting.terms)?;
    if b.note(put).done {
        return Ok(false);
    }
    let body = facts.normal(b, put)?;
    Ok(match cost(facts, b, body, true, 24)? {
        Some(cost) => cost <= waiting.rank.0,
        None => false,
    })
}

fn use_instance(facts: &mut Facts, b: &mut Branch, best: &Instance) -> Result<Next, Stop> {
    instance_at(facts, b, best.of, &best.terms)
}

/// The step that takes an instance of a hypothesis.
pub(crate) fn instance_at(
    facts: &mut Facts,
    b: &mut Branch,
    of: Id,
    terms: &[Id],
) -> Result<Next, Stop> {
    let put = facts.put(of, terms)?;
    let mut note = b.note(put);
    note.done = true;
    b.set(put, note)?;
    let mut step = facts.on(Kind::AllL, of)?;
    step.terms = facts.search.list(terms)?;
    let Some(step) = facts.search.made(step)? else {
        return Ok(Next::Turn(Turn::Moved));
    };
    let ways = if facts.search.left_count(step) == 2 {
        [Way::ASIDE, Way::Here, Way::Here]
    } else {
        [Way::Here, Way::Here, Way::Here]
    };
    Ok(Next::Plan(Plan {
        step,
        ways,
        must: false,
    }))
}

fn add_once(found: &mut Vec<Vec<Id>>, terms: &[Id]) -> Result<(), Stop> {
    for other in found.iter() {
        if is_same(other, terms) {
            return Ok(());
        }
    }
    let copy = Vec::from_slice(*found.allocator(), terms)?;
    found.push(copy)?;
    Ok(())
}

fn is_same(terms: &[Id], others: &[Id]) -> bool {
    if terms.len() != others.len() {
        return false;
    }
    for i in 0..terms.len() {
        if terms[i] != others[i] {
            return false;
        }
    }
    true
}

fn least(a: Option<u32>, b: Option<u32>) -> Option<u32> {
    match (a, b) {
        (Some(m), Some(n)) => Some(m.min(n)),
        (Some(m), None) => Some(m),
        (None, other) => other,
    }
}

fn sum(a: Option<u32>, b: Option<u32>) -> Option<u32> {
    match (a, b) {
        (Some(m), Some(n)) => Some(m.saturating_add(n)),
        _ => None,
    }
}

/// Takes the best of these.
fn take_best(found: &mut Vec<Instance>) -> Option<Instance> {
    match best_of(found) {
        Some(best) if best < found.len() => Some(found.swap_remove(best)),
        _ => None,
    }
}

/// The place of the best of these.
fn best_of(found: &[Instance]) -> Option<usize> {
    let mut best: Option<usize> = None;
    for i in 0..found.len() {
        let is_better = match best {
            Some(other) => other < found.len() && is_before(found[i].rank, found[other].rank),
            None => true,
        };
        if is_better {
            best = Some(i);
        }
    }
    best
}

fn is_before(a: (u32, u32, u32, u32), b: (u32, u32, u32, u32)) -> bool {
    if a.0 != b.0 {
        return a.0 < b.0;
    }
    if a.1 != b.1 {
        return a.1 < b.1;
    }
    if a.2 != b.2 {
        return a.2 < b.2;
    }
    a.3 < b.3
}
