//! A `∀` with its identifiers of product types taken apart, for matching alone.
use term_bank::{Bank, Head, Id, Stop};

/// The body over identifiers of types that are no products, and for each identifier of the `∀` its term in them.
#[derive(Drop)]
pub struct Spread {
    pub body: Id,
    pub count: u32,
    pub shapes: Vec<Id>,
}

/// The types of a binder's identifiers without products.
fn add_leaves(bank: &Bank, ty: Id, out: &mut Vec<Id>, levels: u32) -> Result<(), Stop> {
    if levels == 0 {
        return Err(Stop::Spent);
    }
    match bank.components(ty) {
        Some((left, right)) => {
            add_leaves(bank, left, out, levels - 1)?;
            add_leaves(bank, right, out, levels - 1)
        }
        None => {
            out.push(ty)?;
            Ok(())
        }
    }
}

/// The term of a type in identifiers from a place on, of `count` in all. The next place.
fn shape(bank: &mut Bank, ty: Id, from: u32, count: u32, levels: u32) -> Result<(Id, u32), Stop> {
    if levels == 0 {
        return Err(Stop::Spent);
    }
    match bank.components(ty) {
        Some((left, right)) => {
            let first = shape(bank, left, from, count, levels - 1)?;
            let second = shape(bank, right, first.1, count, levels - 1)?;
            let pair = bank.maplet(first.0, second.0)?;
            Ok((pair, second.1))
        }
        None => {
            let at = count.saturating_sub(1).saturating_sub(from);
            let index = bank.add(Head::Bound(at), &[], &[], ty)?;
            Ok((index, from.saturating_add(1)))
        }
    }
}

/// A quantifier taken apart.
pub fn take_apart(bank: &mut Bank, f: Id) -> Result<Spread, Stop> {
    let types = bank.term(f).types;
    let mut leaves = Vec::new(bank.alloc());
    for i in 0..types.count {
        add_leaves(bank, bank.at(types, i), &mut leaves, 16)?;
    }
    let count = if leaves.len() < 100 {
        leaves.len() as u32
    } else {
        100
    };
    let mut shapes = Vec::new(bank.alloc());
    let mut from: u32 = 0;
    for i in 0..types.count {
        let ty = bank.at(types, i);
        let made = shape(bank, ty, from, count, 16)?;
        from = made.1;
        shapes.push(made.0)?;
    }
    let body = bank.part(f, 0);
    if count == types.count {
        return Ok(Spread {
            body,
            count,
            shapes,
        });
    }
    let body = reshaped(bank, body, &shapes, 0, 64)?;
    Ok(Spread {
        body,
        count,
        shapes,
    })
}

/// A quantifier with its identifiers as they are.
pub fn left_whole(bank: &mut Bank, f: Id) -> Result<Spread, Stop> {
    let types = bank.term(f).types;
    let count = types.count;
    let mut shapes = Vec::new(bank.alloc());
    for i in 0..count {
        let at = count.saturating_sub(1).saturating_sub(i);
        let index = bank.add(Head::Bound(at), &[], &[], bank.at(types, i))?;
        shapes.push(index)?;
    }
    Ok(Spread {
        body: bank.part(f, 0),
        count,
        shapes,
    })
}

/// A body with the shapes in the place of its identifiers.
fn reshaped(bank: &mut Bank, id: Id, shapes: &[Id], depth: u32, levels: u32) -> Result<Id, Stop> {
    let term = bank.term(id);
    if term.loose <= depth {
        return Ok(id);
    }
    if levels == 0 {
        return Err(Stop::Spent);
    }
    if let Head::Bound(at) = term.head {
        let from_last = at.saturating_sub(depth) as usize;
        if from_last < shapes.len() {
            return deeper(bank, shapes[shapes.len() - 1 - from_last], depth, 32);
        }
        return Ok(id);
    }
    let inner = depth.saturating_add(term.types.count);
    let mut parts = Vec::new(bank.alloc());
    for i in 0..term.parts.count {
        let part = reshaped(bank, bank.at(term.parts, i), shapes, inner, levels - 1)?;
        parts.push(part)?;
    }
    bank.with_parts(id, &parts)
}

/// A shape below so many further binders.
fn deeper(bank: &mut Bank, id: Id, by: u32, levels: u32) -> Result<Id, Stop> {
    if by == 0 {
        return Ok(id);
    }
    if levels == 0 {
        return Err(Stop::Spent);
    }
    let term = bank.term(id);
    if let Head::Bound(at) = term.head {
        let head = Head::Bound(at.saturating_add(by));
        return bank.add(head, &[], &[], term.ty);
    }
    let mut parts = Vec::new(bank.alloc());
    for i in 0..term.parts.count {
        let part = deeper(bank, bank.at(term.parts, i), by, levels - 1)?;
        parts.push(part)?;
    }
    bank.with_parts(id, &parts)
}

/// The terms of the identifiers themselves, from those of the parts.
pub fn assembled(bank: &mut Bank, shapes: &[Id], terms: &[Id]) -> Result<Vec<Id>, Stop> {
    let mut out = Vec::new(bank.alloc());
    for shape in shapes {
        let term = bank.instantiated(*shape, terms, 0, 64)?;
        out.push(term)?;
    }
    Ok(out)
}
