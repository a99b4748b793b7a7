// The opening of a store, as contracts know it.
ghost use Rattle.std.specs.Prelude.{ℕ, ⊤};
ghost use Rattle.outside.specs.Disk.{Sides};

use std::marker::Brand;

/// The moment at which a store was opened, and what a stop of the machine might have left by then. A type stands for it,
/// and no value is made: of the acts of others a chair at a desk knows what their log says, and which disk it was no log
/// can say.
pub trait Opening {
    // Where this holds, contracts know the opening.
    ghost known: { Type 0 };

    // The moment on the disk's clock.
    ghost moment: { ℕ };

    // What a stop then might have left.
    ghost images: { Sides → Type 0 };

    // What a stop at some moment from an earlier one to that one might have left.
    ghost moments: { ℕ → Sides → Type 0 };
}

/// An opening that a caller picks.
impl Opening for Brand {
    ghost known = { ⊤ };

    ghost moment = { 0 };

    ghost images = { λ _. ⊥ };

    ghost moments = { λ _ _. ⊥ };
}

/// An opening of which contracts know nothing.
impl Opening for () {
    ghost known = { ⊥ };

    ghost moment = { 0 };

    ghost images = { λ _. ⊥ };

    ghost moments = { λ _ _. ⊥ };
}
