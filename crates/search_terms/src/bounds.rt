//! Bounds of sums of atoms, and what they say of comparisons.
use crate::forms::Comparison;
use std::alloc::Global;
use term_bank::{Id, Stop};

/// A sum of atoms, and what it and the constant have: together they are at most 0.
#[derive(Clone, Copy)]
struct Bound {
    form: Id,
    constant: i128,
}

/// The greatest constant that is known of each sum.
#[derive(Drop)]
pub struct Bounds {
    bounds: Vec<Bound>,
}

impl Bounds {
    pub fn new(alloc: Global) -> Bounds {
        Bounds {
            bounds: Vec::new(alloc),
        }
    }

    pub fn copy(&self, alloc: Global) -> Result<Bounds, Stop> {
        Ok(Bounds {
            bounds: Vec::from_slice(alloc, &self.bounds)?,
        })
    }

    /// Notes what a comparison that holds gives.
    pub fn note(&mut self, read: Comparison) -> Result<(), Stop> {
        if !read.has_atoms {
            return Ok(());
        }
        self.note_bound(read.form, read.constant)?;
        if read.is_equation {
            self.note_bound(read.turned, read.constant.saturating_neg())?;
        }
        Ok(())
    }

    fn note_bound(&mut self, form: Id, constant: i128) -> Result<(), Stop> {
        for i in 0..self.bounds.len() {
            if self.bounds[i].form == form {
                self.bounds[i].constant = self.bounds[i].constant.max(constant);
                return Ok(());
            }
        }
        self.bounds.push(Bound { form, constant })?;
        Ok(())
    }

    /// The greatest constant that is known of a sum.
    pub fn greatest(&self, form: Id) -> Option<i128> {
        for bound in &self.bounds {
            if bound.form == form {
                return Some(bound.constant);
            }
        }
        None
    }

    /// Whether a comparison is known to hold, or not to.
    pub fn judge(&self, read: Comparison) -> Option<bool> {
        if !read.has_atoms {
            return Some(read.constant == 0 || !read.is_equation && read.constant < 0);
        }
        judged(read, self.greatest(read.form), self.greatest(read.turned))
    }
}

fn is_at_least(bound: Option<i128>, constant: i128) -> bool {
    match bound {
        Some(known) => known >= constant,
        None => false,
    }
}

/// What two bounds say of a comparison.
fn judged(read: Comparison, above: Option<i128>, below: Option<i128>) -> Option<bool> {
    let minus = read.constant.saturating_neg();
    if is_at_least(below, minus.saturating_add(1)) {
        return Some(false);
    }
    if read.is_equation {
        if is_at_least(above, read.constant.saturating_add(1)) {
            return Some(false);
        }
        if is_at_least(above, read.constant) && is_at_least(below, minus) {
            return Some(true);
        }
        return None;
    }
    if is_at_least(above, read.constant) {
        return Some(true);
    }
    None
}
