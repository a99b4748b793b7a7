//! The items of a step, as a hint.

use crate::reading::{path_of, put, written};
use formula_core::{List, Name, Raw};
use sequent_core::Hint;
use std::alloc::Global;

/// What items give, until they are a hint.
#[derive(Drop)]
struct Items {
    hyps: Vec<u32>,
    multipliers: Vec<i128>,
    names: Vec<Name>,
    terms: Vec<Raw>,
    law: u8,
    place: List<u32>,
}

fn add_hyp(items: &mut Items, text: &str) -> Option<()> {
    let (number, multiplier) = text.split_once(' ').unwrap_or((text, ""));
    put(&mut items.hyps, number.parse::<u32>().ok()?).ok()?;
    if multiplier.is_empty() {
        return Some(());
    }
    put(&mut items.multipliers, multiplier.parse::<i128>().ok()?).ok()
}

fn add_law(alloc: Global, items: &mut Items, text: &str) -> Option<()> {
    let (law, place) = text.split_once(' ')?;
    items.law = law.parse::<u8>().ok()?;
    items.place = path_of(alloc, place)?;
    Some(())
}

fn add_item(alloc: Global, items: &mut Items, text: &str) -> Option<()> {
    let (letter, rest) = text.split_once(' ')?;
    match letter {
        "h" => add_hyp(items, rest),
        "n" => put(&mut items.names, Name::read(alloc, rest).ok()?).ok(),
        "e" => put(&mut items.terms, written(alloc, false, rest)?).ok(),
        "p" => put(&mut items.terms, written(alloc, true, rest)?).ok(),
        "w" => add_law(alloc, items, rest),
        _ => None,
    }
}

fn add_items(alloc: Global, items: &mut Items, text: &str) -> Option<()> {
    for item in text.split(" , ") {
        add_item(alloc, items, item)?;
    }
    Some(())
}

/// The hint that items give.
pub fn hint_of(alloc: Global, text: Option<&str>) -> Option<Hint> {
    let mut items = Items {
        hyps: Vec::new(alloc),
        multipliers: Vec::new(alloc),
        names: Vec::new(alloc),
        terms: Vec::new(alloc),
        law: 0,
        place: List::of(Vec::new(alloc)),
    };
    if let Some(text) = text {
        add_items(alloc, &mut items, text)?;
    }
    Some(Hint {
        hyps: List::of(items.hyps),
        multipliers: List::of(items.multipliers),
        names: List::of(items.names),
        terms: List::of(items.terms),
        law: items.law,
        place: items.place,
    })
}
