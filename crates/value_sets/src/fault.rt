//! Why a formula has no value.
use formula_core::{Name, OutOfMemory};

/// Why a formula has no value.
#[derive(Drop)]
pub enum ValueFault {
    /// The form is none of those that are computed.
    NotComputed,
    /// The name has no value, or the carrier set no size.
    NoValue(Name),
    /// The form's own condition of well-definedness is false.
    Undefined,
    /// The result of these two numbers is no number of 128 bits.
    TooWide(i128, i128),
    /// A value has more than 65,536 nodes.
    TooLarge,
    OutOfMemory,
}

impl From<OutOfMemory> for ValueFault {
    ghost use Rattle.std.specs.Prelude.{◌≡◌};
    ghost use Rattle.value_sets.specs.declared.fault.ValueFault.TheVariants as fault;

    ghost from_gives = { λ _ e. e ≡ fault.OutOfMemory };

    fn from(_: OutOfMemory) -> ValueFault {
        ValueFault::OutOfMemory
    }
}
