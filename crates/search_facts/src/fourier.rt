//! Linear arithmetic over many hypotheses: atoms are eliminated, and the multipliers kept.
use crate::facts::Facts;
use search_steps::{Id, Stop};
use search_terms::{Branch, Form, add_atom, form_of};
use std::alloc::Global;

/// The most rows that are kept.
const MOST_ROWS: usize = 160;

/// A sum that is at most 0, or 0, and the hypotheses of which it is made, each with its multiplier.
#[derive(Drop)]
struct Row {
    form: Form,
    mark: u64,
    is_equation: bool,
    by: Vec<(Id, i128)>,
}

/// How many rows have an atom positive and how many negative, by the atom's number, and which atoms these are.
#[derive(Drop)]
pub struct Counts {
    table: Vec<(u32, u32)>,
    atoms: Vec<Id>,
}

impl Counts {
    pub fn new(alloc: Global) -> Counts {
        Counts {
            table: Vec::new(alloc),
            atoms: Vec::new(alloc),
        }
    }

    fn of(&self, atom: Id) -> (u32, u32) {
        match self.table.get(atom as usize) {
            Some(found) => *found,
            None => (0, 0),
        }
    }

    fn clear(&mut self) {
        for _ in 0..self.atoms.len() {
            if let Some(atom) = self.atoms.pop() {
                let at = atom as usize;
                if at < self.table.len() {
                    self.table[at] = (0, 0);
                }
            }
        }
    }

    /// Counts anew.
    fn count(&mut self, rows: &[Row]) -> Result<(), Stop> {
        self.clear();
        for row in rows {
            for atom in &row.form.atoms {
                self.note(atom.0, atom.1 > 0)?;
            }
        }
        Ok(())
    }

    fn note(&mut self, atom: Id, is_positive: bool) -> Result<(), Stop> {
        for _ in self.table.len()..(atom as usize).saturating_add(1) {
            self.table.push((0, 0))?;
        }
        let (above, below) = self.of(atom);
        if above == 0 && below == 0 {
            self.atoms.push(atom)?;
        }
        if (atom as usize) < self.table.len() {
            self.table[atom as usize] = if is_positive {
                (above.saturating_add(1), below)
            } else {
                (above, below.saturating_add(1))
            };
        }
        Ok(())
    }

    /// The atom without which there are the fewest rows; the smallest of these.
    fn cheapest(&self) -> Option<Id> {
        let mut best: Option<(i64, Id)> = None;
        for atom in &self.atoms {
            let cost = cost_of(self.of(*atom));
            let is_better = match best {
                Some(found) => cost < found.0 || cost == found.0 && *atom < found.1,
                None => true,
            };
            if is_better {
                best = Some((cost, *atom));
            }
        }
        match best {
            Some(found) => Some(found.1),
            None => None,
        }
    }

    /// Whether an atom of the row has one sign in all rows.
    fn is_idle(&self, row: &Row) -> bool {
        for atom in &row.form.atoms {
            let (above, below) = self.of(atom.0);
            if above == 0 || below == 0 {
                return true;
            }
        }
        false
    }
}

/// A number of some atoms, the same for the same ones.
fn mark_of(atoms: &[(Id, i128)]) -> u64 {
    let mut mark: u64 = 14695981039346656037;
    for atom in atoms {
        mark = (mark ^ atom.0 as u64).wrapping_mul(1099511628211);
        mark = (mark ^ (atom.1 & 0xffffffff) as u64).wrapping_mul(1099511628211);
    }
    mark
}

fn magnitude(a: i128, b: i128) -> i128 {
    let mut m = a.saturating_abs();
    let mut n = b.saturating_abs();
    for _ in 0..256u32 {
        if n <= 0 {
            return m;
        }
        let rest = m % n;
        m = n;
        n = rest;
    }
    m
}

/// The greatest number that divides all of these.
fn common_divisor(row: &Row) -> i128 {
    let mut divisor = row.form.constant.saturating_abs();
    for atom in &row.form.atoms {
        divisor = magnitude(divisor, atom.1);
    }
    for pair in &row.by {
        divisor = magnitude(divisor, pair.1);
    }
    divisor
}

fn quotient(n: i128, divisor: i128) -> i128 {
    if divisor > 1 { n / divisor } else { n }
}

fn multiple_in(row: &Row, atom: Id) -> i128 {
    for pair in &row.form.atoms {
        if pair.0 == atom {
            return pair.1;
        }
    }
    0
}

/// Adds multiples of pairs to others. Whether all fit.
fn add_pairs(out: &mut Vec<(Id, i128)>, pairs: &[(Id, i128)], by: i128) -> Result<bool, Stop> {
    for pair in pairs {
        let Some(product) = pair.1.checked_mul(by) else {
            return Ok(false);
        };
        if product != 0 && !add_atom(out, pair.0, product)? {
            return Ok(false);
        }
    }
    Ok(true)
}

fn constant_of(a: &Row, p: i128, b: &Row, q: i128) -> Option<i128> {
    let first = a.form.constant.checked_mul(p)?;
    let second = b.form.constant.checked_mul(q)?;
    first.checked_add(second)
}

fn is_contradiction(row: &Row) -> bool {
    row.form.atoms.is_empty()
        && (row.form.constant >= 1 || row.is_equation && row.form.constant != 0)
}

impl Facts {
    /// A proof of `⊥` by a sum of the live comparisons.
    pub fn linear(&mut self, b: &mut Branch) -> Result<Option<u32>, Stop> {
        if !self.reckons || !b.has_new_bounds {
            return Ok(None);
        }
        b.has_new_bounds = false;
        let rows = self.rows(b)?;
        match self.eliminated(rows)? {
            Some(row) => self.ended_by_row(row),
            None => Ok(None),
        }
    }

    fn ended_by_row(&mut self, row: Row) -> Result<Option<u32>, Stop> {
        let sign = if row.form.constant < 0 { -1 } else { 1 };
        let mut by = Vec::new(self.search.alloc());
        for pair in &row.by {
            by.push((pair.0, pair.1.saturating_mul(sign)))?;
        }
        self.ended_by_sum(&by)
    }

    fn rows(&mut self, b: &Branch) -> Result<Vec<Row>, Stop> {
        let mut rows = Vec::new(self.search.alloc());
        for i in 0..b.order.len() {
            let h = b.at(i);
            if b.is_live(h) && self.comparison(h)?.is_some() {
                if let Some((form, is_equation)) = form_of(&self.search.bank, h)? {
                    let mut by = Vec::new(self.search.alloc());
                    by.push((h, 1))?;
                    let mark = mark_of(&form.atoms);
                    rows.push(Row {
                        form,
                        mark,
                        is_equation,
                        by,
                    })?;
                }
            }
        }
        Ok(rows)
    }

    /// `p·a + q·b`, made small. None where a number is too large.
    fn combined(&mut self, a: &Row, p: i128, b: &Row, q: i128) -> Result<Option<Row>, Stop> {
        self.search.look()?;
        let Some(constant) = constant_of(a, p, b, q) else {
            return Ok(None);
        };
        let mut row = Row {
            form: Form {
                atoms: Vec::new(self.search.alloc()),
                constant,
            },
            mark: 0,
            is_equation: a.is_equation && b.is_equation,
            by: Vec::new(self.search.alloc()),
        };
        let is_whole = add_pairs(&mut row.form.atoms, &a.form.atoms, p)?
            && add_pairs(&mut row.form.atoms, &b.form.atoms, q)?
            && add_pairs(&mut row.by, &a.by, p)?
            && add_pairs(&mut row.by, &b.by, q)?;
        if !is_whole {
            return Ok(None);
        }
        let divisor = common_divisor(&row);
        let mut row = self.divided(row, divisor)?;
        row.mark = mark_of(&row.form.atoms);
        Ok(Some(row))
    }

    fn divided(&self, row: Row, divisor: i128) -> Result<Row, Stop> {
        if divisor <= 1 {
            return Ok(row);
        }
        let mut atoms = Vec::new(self.search.alloc());
        for atom in &row.form.atoms {
            atoms.push((atom.0, quotient(atom.1, divisor)))?;
        }
        let mut by = Vec::new(self.search.alloc());
        for pair in &row.by {
            by.push((pair.0, quotient(pair.1, divisor)))?;
        }
        Ok(Row {
            form: Form {
                atoms,
                constant: quotient(row.form.constant, divisor),
            },
            mark: 0,
            is_equation: row.is_equation,
            by,
        })
    }

    /// A row that contradicts itself, made of these.
    fn eliminated(&mut self, rows: Vec<Row>) -> Result<Option<Row>, Stop> {
        let mut rows = rows;
        for _ in 0..200u32 {
            if let Some(i) = contradiction_at(&rows) {
                return Ok(taken(rows, i));
            }
            self.search.look_over(rows.len())?;
            if !has_equation(&rows) {
                rows = self.without_idle(rows)?;
            }
            let Some((atom, is_by_equation)) = self.next_atom(&rows)? else {
                return Ok(None);
            };
            rows = if is_by_equation {
                self.by_equation(rows, atom)?
            } else {
                self.by_pairs(rows, atom)?
            };
            if rows.len() > MOST_ROWS {
                return Ok(None);
            }
        }
        Ok(None)
    }

    /// The atom that goes next, by an equation that has it or by pairs of rows.
    fn next_atom(&mut self, rows: &[Row]) -> Result<Option<(Id, bool)>, Stop> {
        for row in rows {
            if row.is_equation {
                if let Some(atom) = smallest_atom(row) {
                    return Ok(Some((atom, true)));
                }
            }
        }
        self.counts.count(rows)?;
        Ok(match self.counts.cheapest() {
            Some(atom) => Some((atom, false)),
            None => None,
        })
    }

    /// The rows of which each atom is positive in one row and negative in another.
    fn without_idle(&mut self, rows: Vec<Row>) -> Result<Vec<Row>, Stop> {
        let mut rows = rows;
        for _ in 0..200u32 {
            self.counts.count(&rows)?;
            let before = rows.len();
            let mut left = Vec::new(self.search.alloc());
            for row in rows {
                if !self.counts.is_idle(&row) {
                    left.push(row)?;
                }
            }
            rows = left;
            if rows.len() == before {
                return Ok(rows);
            }
        }
        Ok(rows)
    }

    /// Each row without an atom that an equation has; the equation goes.
    fn by_equation(&mut self, rows: Vec<Row>, atom: Id) -> Result<Vec<Row>, Stop> {
        let mut left = Vec::new(self.search.alloc());
        let Some(at) = equation_with(&rows, atom) else {
            return Ok(left);
        };
        for i in 0..rows.len() {
            if i != at && at < rows.len() {
                if let Some(row) = self.without(&rows[i], &rows[at], atom)? {
                    left.push(row)?;
                }
            }
        }
        Ok(left)
    }

    /// A row without an atom, by an equation.
    fn without(&mut self, row: &Row, equation: &Row, atom: Id) -> Result<Option<Row>, Stop> {
        let in_row = multiple_in(row, atom);
        let in_equation = multiple_in(equation, atom);
        if in_equation > 0 {
            return self.combined(row, in_equation, equation, in_row.saturating_neg());
        }
        self.combined(row, in_equation.saturating_neg(), equation, in_row)
    }

    /// The sums of each row with the atom positive and each with it negative, and the rows without it.
    fn by_pairs(&mut self, rows: Vec<Row>, atom: Id) -> Result<Vec<Row>, Stop> {
        let mut left: Vec<Row> = Vec::new(self.search.alloc());
        for i in 0..rows.len() {
            if multiple_in(&rows[i], atom) > 0 {
                self.pairs_with(&rows, i, atom, &mut left)?;
            }
        }
        for row in rows {
            if multiple_in(&row, atom) == 0 {
                self.add_row(row, &mut left)?;
            }
        }
        Ok(left)
    }

    fn pairs_with(
        &mut self,
        rows: &[Row],
        i: usize,
        atom: Id,
        out: &mut Vec<Row>,
    ) -> Result<(), Stop> {
        for other in rows {
            let below = multiple_in(other, atom);
            if below < 0 && i < rows.len() && out.len() <= MOST_ROWS {
                let above = multiple_in(&rows[i], atom);
                let made = self.combined(&rows[i], below.saturating_neg(), other, above)?;
                if let Some(row) = made {
                    self.add_row(row, out)?;
                }
            }
        }
        Ok(())
    }

    /// Adds a row, unless one with the same atoms says as much.
    fn add_row(&self, row: Row, out: &mut Vec<Row>) -> Result<(), Stop> {
        for other in out.iter() {
            if other.mark == row.mark
                && other.form.atoms == row.form.atoms
                && other.form.constant >= row.form.constant
            {
                return Ok(());
            }
        }
        out.push(row)?;
        Ok(())
    }
}

fn contradiction_at(rows: &[Row]) -> Option<usize> {
    for i in 0..rows.len() {
        if is_contradiction(&rows[i]) {
            return Some(i);
        }
    }
    None
}

fn taken(rows: Vec<Row>, i: usize) -> Option<Row> {
    let mut rows = rows;
    if i < rows.len() {
        return Some(rows.swap_remove(i));
    }
    None
}

fn smallest_atom(row: &Row) -> Option<Id> {
    let mut best: Option<(i128, Id)> = None;
    for atom in &row.form.atoms {
        let size = atom.1.saturating_abs();
        let is_smaller = match best {
            Some(found) => size < found.0,
            None => true,
        };
        if is_smaller {
            best = Some((size, atom.0));
        }
    }
    match best {
        Some(found) => Some(found.1),
        None => None,
    }
}

fn equation_with(rows: &[Row], atom: Id) -> Option<usize> {
    for i in 0..rows.len() {
        if rows[i].is_equation && multiple_in(&rows[i], atom) != 0 {
            return Some(i);
        }
    }
    None
}

/// How many rows more there are without an atom that so many have positive and so many negative.
fn cost_of(counts: (u32, u32)) -> i64 {
    let above = counts.0 as i64;
    let below = counts.1 as i64;
    above
        .saturating_mul(below)
        .saturating_sub(above)
        .saturating_sub(below)
}

fn has_equation(rows: &[Row]) -> bool {
    for row in rows {
        if row.is_equation && !row.form.atoms.is_empty() {
            return true;
        }
    }
    false
}
