//! What is wrong with an input.

use formula_core::{Name, OutOfMemory};
use std::alloc::{AllocError, AllocFailed};

/// What is wrong with an input. Lines count from 1, and are those of headings.
#[derive(Drop)]
pub enum InputFault {
    NotUtf8,
    NoHeading,
    /// A second component of the name.
    Second(u32, Name),
    /// The 257th component.
    TooMany(u32),
    TextTooLong(u32),
}

/// Why an input isn't cut into components.
#[derive(Drop)]
pub enum InputError {
    Fault(InputFault),
    OutOfMemory,
}

impl From<OutOfMemory> for InputError {
    ghost use Rattle.std.specs.Prelude.{◌≡◌};
    ghost use Rattle.check_input.specs.declared.input.InputError.TheVariants as error;

    ghost from_gives = { λ _ e. e ≡ error.OutOfMemory };

    fn from(_: OutOfMemory) -> InputError {
        InputError::OutOfMemory
    }
}

impl From<AllocError> for InputError {
    ghost use Rattle.std.specs.Prelude.{◌≡◌};
    ghost use Rattle.check_input.specs.declared.input.InputError.TheVariants as error;

    ghost from_gives = { λ _ e. e ≡ error.OutOfMemory };

    fn from(_: AllocError) -> InputError {
        InputError::OutOfMemory
    }
}

impl<T: Drop> From<AllocFailed<T>> for InputError {
    ghost use Rattle.std.specs.Prelude.{◌≡◌};
    ghost use Rattle.check_input.specs.declared.input.InputError.TheVariants as error;

    ghost from_gives = { λ _ e. e ≡ error.OutOfMemory };

    fn from(_: AllocFailed<T>) -> InputError {
        InputError::OutOfMemory
    }
}
