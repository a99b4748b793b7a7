// The calls on an object in memory, some of which are listed as failing.
ghost use Rattle.std.specs.Prelude.{◌≡◌, ◌≤◌, ◌↔◌, IsTrue};
ghost use Rattle.outside.specs.Cause.{next_count};

use crate::Failed;
use crate::faults::Faults;
use std::marker::Model;

// The numbers of the calls that fail, how many calls were made, and how many failed.
#[derive(Debug, Drop)]
pub(crate) struct Calls {
    fails: Vec<u64>,
    made: u64,
    faults: Faults,
}

impl Model for Calls {
    ghost use Rattle.outside.specs.Memory.{NumberedCalls};

    ghost Value = { NumberedCalls };

    ghost view = { λ c. record { fails = c.fails.items; calls = c.made; faults = c.faults } };
}

impl Calls {
    ghost use Rattle.outside.specs.Memory.{IsListed, NumberedCalls};

    pub(crate) fn new(fails: Vec<u64>) -> Calls
        ensures { result ≡ record { fails = fails.items; calls = 0; faults = 0 } }
    {
        Calls {
            fails,
            made: 0,
            faults: Faults::new(),
        }
    }

    // How many calls were made.
    pub(crate) fn made(&self) -> u64
        ensures { result ≡ self.now.calls }
    {
        self.made
    }

    pub(crate) fn faults(&self) -> u64
        ensures { result ≡ self.now.faults }
    {
        self.faults.count()
    }

    // Counts one more call and answers whether it is listed.
    pub(crate) fn begin(&mut self) -> bool
        ensures listed { IsTrue result ↔ IsListed self.old.fails self.old.calls }
        ensures counted { self.new ≡ record self.old { calls = next_count self.old.calls } }
    {
        self.made = self.made.saturating_add(1);
        self.fails.contains(&self.made)
    }

    // Counts one more fault and gives the error that tells of it.
    pub(crate) fn fail(&mut self) -> Failed
        ensures counted { self.new ≡ record self.old { faults = next_count self.old.faults } }
        ensures later { self.old.faults ≤ self.new.faults }
    {
        self.faults.fail()
    }
}
