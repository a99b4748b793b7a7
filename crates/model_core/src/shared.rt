ghost use Rattle.std.specs.Prelude.{◌≡◌, IfOk};

use formula_core::OutOfMemory;
use std::alloc::Global;
use std::marker::Model;
use std::sync::Arc;

/// A value that several may own, so that a copy takes little time and no memory. Contracts see the value.
pub struct Shared<T> {
    held: Arc<T>,
}

impl<T> Model for Shared<T> {
    ghost use Rattle.std.specs.Arc.{arc_value};

    ghost Value = { T };

    ghost coded = { T.code };

    ghost view = { λ s. arc_value s.held };
}

impl<T> Shared<T> {
    pub fn get(&self) -> &T
        ensures { result.now ≡ self.now }
    {
        &self.held
    }
}

impl<T: Drop> Shared<T> {
    pub fn new(alloc: Global, value: T) -> Result<Shared<T>, OutOfMemory>
        ensures { IfOk result (λ s. s ≡ value) }
    {
        Ok(Shared {
            held: Arc::new(alloc, value)?,
        })
    }

    /// The same value, which both own.
    pub fn share(&self) -> Result<Shared<T>, OutOfMemory>
        ensures { IfOk result (λ s. s ≡ self.now) }
    {
        Ok(Shared {
            held: Arc::try_clone(&self.held)?,
        })
    }
}

impl<T: Drop> Drop for Shared<T> {
    fn drop(self) {
        let Shared { held: _ } = self;
    }
}
