//! Why no rule is made.

use formula_core::{Name, OutOfMemory};

/// Why no rule is made.
#[derive(Drop)]
pub enum RuleFault {
    /// A hypothesis number or a position isn't there.
    NoPlace,
    /// A term is not typed.
    BadTerm,
    /// A new name stands in the environment, or earlier among the new names.
    NotFresh(Name),
    /// The goal, a hypothesis or the hint lacks the form that the kind asks, or there is no such kind or law.
    NoForm,
    /// The operands of the first operation whose result is too wide.
    TooWide(i128, i128),
    /// A formula or a type of the rule would be too large.
    TooLarge,
    OutOfMemory,
}

impl From<OutOfMemory> for RuleFault {
    ghost use Rattle.std.specs.Prelude.{◌≡◌};
    ghost use Rattle.rule_making.specs.declared.fault.RuleFault.TheVariants as fault;

    ghost from_gives = { λ _ e. e ≡ fault.OutOfMemory };

    fn from(_: OutOfMemory) -> RuleFault {
        RuleFault::OutOfMemory
    }
}
