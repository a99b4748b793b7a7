//! The fuel of a search: steps and looks.
use crate::search::Search;
use term_bank::Stop;

/// How many looks there are to a step.
pub const LOOKS: u32 = 120;

impl Search {
    /// Begins anew with so many steps.
    pub fn refuel(&mut self, steps: u32) {
        self.steps_made = 0;
        self.looks = 0;
        self.most_steps = steps;
        self.most_looks = steps.saturating_mul(LOOKS);
    }

    pub fn tick(&mut self) -> Result<(), Stop> {
        self.steps_made = self.steps_made.saturating_add(1);
        if self.steps_made > self.most_steps {
            return Err(Stop::Spent);
        }
        Ok(())
    }

    pub fn look(&mut self) -> Result<(), Stop> {
        self.look_at(1)
    }

    /// How many looks there were.
    pub fn looks(&self) -> u32 {
        self.looks
    }

    /// So many looks at what was found before.
    pub fn look_again(&mut self, looks: u32) -> Result<(), Stop> {
        let left = self.most_looks.saturating_sub(self.looks);
        self.look_at(looks.min(left.saturating_add(1)))
    }

    /// A short look at each of so many formulas: 32 of these count as one.
    pub fn look_over(&mut self, formulas: usize) -> Result<(), Stop> {
        let count = (formulas / 32).min(1048576) as u32;
        self.look_at(count.saturating_add(1))
    }

    fn look_at(&mut self, count: u32) -> Result<(), Stop> {
        self.looks = self.looks.saturating_add(count);
        if self.looks > self.most_looks {
            return Err(Stop::Spent);
        }
        Ok(())
    }

    /// The limits, and lower ones in their place.
    pub fn lower(&mut self, steps: u32, looks: u32) -> (u32, u32) {
        let before = (self.most_steps, self.most_looks);
        self.most_steps = self.most_steps.min(self.steps_made.saturating_add(steps));
        self.most_looks = self.most_looks.min(self.looks.saturating_add(looks));
        before
    }

    /// Puts limits back. Whether they hold.
    pub fn raise(&mut self, before: (u32, u32)) -> bool {
        self.most_steps = before.0;
        self.most_looks = before.1;
        self.steps_made <= self.most_steps && self.looks <= self.most_looks
    }
}
