//! Laws at the root of formulas, each looked up once, and new names.
use crate::search::Search;
use formula_core::{Formula, Name, NameFault};
use rule_kernel::right_side;
use rule_table::Law;
use term_bank::{Id, NONE, Stop};

/// The height up to which formulas are copied out of the bank.
pub(crate) const LEVELS: u32 = 8192;

impl Search {
    /// A formula of the bank.
    pub fn formula(&self, id: Id) -> Result<Formula, Stop> {
        self.bank.formula(id, LEVELS)
    }

    /// What a law makes of a formula, or `NONE`.
    pub fn by_law(&mut self, law: Law, id: Id) -> Result<Id, Stop> {
        if let Some(Some(known)) = self.laws.get(id as usize) {
            if known.0 == law {
                return Ok(known.1);
            }
        }
        let made = self.made_by_law(law, id)?;
        self.note_law(law, id, made)?;
        Ok(made)
    }

    fn made_by_law(&mut self, law: Law, id: Id) -> Result<Id, Stop> {
        let f = self.formula(id)?;
        match right_side(self.alloc, law, &f)? {
            Some(right) => self.bank.add_formula(&right),
            None => Ok(NONE),
        }
    }

    fn note_law(&mut self, law: Law, id: Id, made: Id) -> Result<(), Stop> {
        let count = self.bank.len();
        for _ in self.laws.len()..count {
            self.laws.push(None)?;
        }
        if (id as usize) < self.laws.len() {
            self.laws[id as usize] = Some((law, made));
        }
        Ok(())
    }

    /// A name that stands nowhere yet, of a generation.
    pub fn new_name(&mut self, generation: u32) -> Result<u32, Stop> {
        for _ in 0..100000u32 {
            self.fresh = self.fresh.saturating_add(1);
            let before = self.bank.name_count();
            let name = self.spelled(self.fresh)?;
            let number = self.bank.name(&name)?;
            if number == before {
                self.note_generation(number, generation)?;
                return Ok(number);
            }
        }
        Err(Stop::Spent)
    }

    fn spelled(&self, number: u32) -> Result<Name, Stop> {
        let text = format!(in self.alloc; "v{}", number)?;
        match Name::read(self.alloc, &text) {
            Ok(name) => Ok(name),
            Err(NameFault::BadName) => Err(Stop::Spent),
            Err(NameFault::OutOfMemory) => Err(Stop::NoMemory),
        }
    }

    fn note_generation(&mut self, name: u32, generation: u32) -> Result<(), Stop> {
        let count = self.bank.name_count() as usize;
        for _ in self.generations.len()..count {
            self.generations.push(0)?;
        }
        if (name as usize) < self.generations.len() {
            self.generations[name as usize] = generation;
        }
        Ok(())
    }

    /// The number of the first name that the search makes.
    pub fn first_new(&self) -> u32 {
        self.first_new
    }

    /// Whether a name was made by the search.
    pub fn is_new_name(&self, name: u32) -> bool {
        name >= self.first_new
    }

    /// The greatest generation of a formula's names.
    pub fn generation(&self, id: Id) -> u32 {
        let names = self.bank.term(id).names;
        let mut greatest: u32 = 0;
        for i in 0..names.count {
            let name = self.bank.at(names, i);
            if let Some(generation) = self.generations.get(name as usize) {
                greatest = greatest.max(*generation);
            }
        }
        greatest
    }
}
