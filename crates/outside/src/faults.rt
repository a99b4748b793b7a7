// The one error of what is handed in, and the count that goes with it.
ghost use Rattle.std.specs.Prelude.{◌≡◌, ◌≤◌, ℕ};
ghost use Rattle.outside.specs.Cause.{next_count};

use std::marker::Model;

/// The one error of a source, a sink and a disk: it failed in this call, and its count of faults says so.
#[derive(Debug, PartialEq, Eq, Clone, Copy)]
pub struct Failed;

// How often an object has failed. At the last number of 64 bits the count stays.
#[derive(Debug, Default, Drop)]
pub(crate) struct Faults {
    count: u64,
}

impl Model for Faults {
    ghost Value = { ℕ };

    ghost view = { λ f. f.count };
}

impl Faults {
    pub(crate) fn new() -> Faults
        ensures { result ≡ 0 }
    {
        Faults { count: 0 }
    }

    pub(crate) fn count(&self) -> u64
        ensures { result ≡ self.now }
    {
        self.count
    }

    // Counts one more fault and gives the error that tells of it.
    pub(crate) fn fail(&mut self) -> Failed
        ensures counted { self.new ≡ next_count self.old }
        ensures later { self.old ≤ self.new }
    {
        self.count = self.count.saturating_add(1);
        Failed
    }
}
