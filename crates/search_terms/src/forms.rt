//! Linear forms of integer expressions, and what comparisons say by them.
use formula_core::Op;
use std::alloc::Global;
use term_bank::{Bank, Head, Id, Stop};

/// Atoms with their multiples, in the order of their numbers, and a constant.
#[derive(Drop)]
pub struct Form {
    pub atoms: Vec<(Id, i128)>,
    pub constant: i128,
}

/// What a comparison says: its sum of atoms, turned round, and its constant. Together they are at most 0, or 0.
#[derive(Clone, Copy)]
pub struct Comparison {
    pub form: Id,
    pub turned: Id,
    pub constant: i128,
    pub is_equation: bool,
    pub has_atoms: bool,
}

/// What was read of a formula.
#[derive(Clone, Copy)]
enum Reading {
    Unread,
    NoComparison,
    Says(Comparison),
}

/// What comparisons say, each read once.
#[derive(Drop)]
pub struct Comparisons {
    readings: Vec<Reading>,
}

/// Adds a multiple of an atom in its place. Whether it fits.
pub fn add_atom(atoms: &mut Vec<(Id, i128)>, atom: Id, multiple: i128) -> Result<bool, Stop> {
    let mut at = 0;
    for i in 0..atoms.len() {
        if atoms[i].0 == atom {
            return Ok(more_at(atoms, i, multiple));
        }
        if atoms[i].0 < atom {
            at = i + 1;
        }
    }
    if at <= atoms.len() {
        atoms.insert(at, (atom, multiple))?;
    }
    Ok(true)
}

fn more_at(atoms: &mut Vec<(Id, i128)>, i: usize, multiple: i128) -> bool {
    if i >= atoms.len() {
        return false;
    }
    match atoms[i].1.checked_add(multiple) {
        Some(0) => {
            let _ = atoms.remove(i);
            true
        }
        Some(sum) => {
            let atom = atoms[i].0;
            atoms[i] = (atom, sum);
            true
        }
        None => false,
    }
}

/// Adds a multiple of an expression to a form. Whether all fits.
#[cycle(multiples)]
fn add_multiple(bank: &Bank, form: &mut Form, id: Id, by: i128, levels: u32) -> Result<bool, Stop> {
    if levels == 0 {
        return Err(Stop::Spent);
    }
    let (left, right) = bank.two(id);
    match bank.term(id).head {
        Head::Int(n) => Ok(add_constant(form, n, by)),
        Head::Node(Op::Plus) => Ok(
            add_multiple(bank, form, left, by, levels - 1)?
                && add_multiple(bank, form, right, by, levels - 1)?,
        ),
        Head::Node(Op::Minus) => match by.checked_neg() {
            Some(minus) => Ok(
                add_multiple(bank, form, left, by, levels - 1)?
                    && add_multiple(bank, form, right, minus, levels - 1)?,
            ),
            None => Ok(false),
        },
        Head::Node(Op::Negate) => match by.checked_neg() {
            Some(minus) => add_multiple(bank, form, left, minus, levels - 1),
            None => Ok(false),
        },
        Head::Node(Op::Times) => add_product(bank, form, id, by, levels - 1),
        _ => add_atom(&mut form.atoms, id, by),
    }
}

#[cycle(multiples)]
fn add_product(bank: &Bank, form: &mut Form, id: Id, by: i128, levels: u32) -> Result<bool, Stop> {
    let (left, right) = bank.two(id);
    let (factor, rest) = match bank.value(left) {
        Some(n) => (n, right),
        None => match bank.value(right) {
            Some(n) => (n, left),
            None => return add_atom(&mut form.atoms, id, by),
        },
    };
    match by.checked_mul(factor) {
        Some(0) => Ok(true),
        Some(product) => {
            if levels == 0 {
                return Err(Stop::Spent);
            }
            add_multiple(bank, form, rest, product, levels - 1)
        }
        None => Ok(false),
    }
}

/// The form of what a comparison says to be at most 0, or 0, and whether it is an equation.
pub fn form_of(bank: &Bank, id: Id) -> Result<Option<(Form, bool)>, Stop> {
    let (left, right) = bank.two(id);
    let (constant, is_equation) = match bank.operator(id) {
        Some(Op::LessOrEqual) => (0, false),
        Some(Op::Less) => (1, false),
        Some(Op::Equal) if bank.ty(left) == Bank::INT => (0, true),
        _ => return Ok(None),
    };
    let mut form = Form {
        atoms: Vec::new(bank.alloc()),
        constant,
    };
    if add_multiple(bank, &mut form, left, 1, 4096)?
        && add_multiple(bank, &mut form, right, -1, 4096)?
    {
        return Ok(Some((form, is_equation)));
    }
    Ok(None)
}

/// A sum of atoms as a formula of the bank, which is one for one sum.
fn sum_of(bank: &mut Bank, atoms: &[(Id, i128)], sign: i128) -> Result<Id, Stop> {
    let mut parts = Vec::new(bank.alloc());
    for atom in atoms {
        parts.push(atom.0)?;
        let multiple = bank.int(atom.1.saturating_mul(sign))?;
        parts.push(multiple)?;
    }
    bank.add(Head::Node(Op::Plus), &parts, &[], Bank::INT)
}

impl Comparisons {
    pub fn new(alloc: Global) -> Comparisons {
        Comparisons {
            readings: Vec::new(alloc),
        }
    }

    /// What a comparison of integers says, if the formula is one.
    pub fn of(&mut self, bank: &mut Bank, id: Id) -> Result<Option<Comparison>, Stop> {
        match self.readings.get(id as usize) {
            Some(Reading::Says(read)) => return Ok(Some(*read)),
            Some(Reading::NoComparison) => return Ok(None),
            _ => {}
        }
        let read = read_comparison(bank, id)?;
        self.note(bank.len(), id, reading_of(read))?;
        Ok(read)
    }

    fn note(&mut self, count: usize, id: Id, reading: Reading) -> Result<(), Stop> {
        for _ in self.readings.len()..count {
            self.readings.push(Reading::Unread)?;
        }
        if (id as usize) < self.readings.len() {
            self.readings[id as usize] = reading;
        }
        Ok(())
    }
}

fn reading_of(read: Option<Comparison>) -> Reading {
    match read {
        Some(comparison) => Reading::Says(comparison),
        None => Reading::NoComparison,
    }
}

fn read_comparison(bank: &mut Bank, id: Id) -> Result<Option<Comparison>, Stop> {
    let Some((form, is_equation)) = form_of(bank, id)? else {
        return Ok(None);
    };
    let sum = sum_of(bank, &form.atoms, 1)?;
    let turned = sum_of(bank, &form.atoms, -1)?;
    Ok(Some(Comparison {
        form: sum,
        turned,
        constant: form.constant,
        is_equation,
        has_atoms: !form.atoms.is_empty(),
    }))
}

fn add_constant(form: &mut Form, n: i128, by: i128) -> bool {
    match n.checked_mul(by) {
        Some(product) => match form.constant.checked_add(product) {
            Some(sum) => {
                form.constant = sum;
                true
            }
            None => false,
        },
        None => false,
    }
}
