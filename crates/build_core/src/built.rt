//! Why a project isn't built.

use formula_core::OutOfMemory;

/// Why a project isn't built.
#[derive(Clone, Copy, Debug, PartialEq, Eq)]
pub enum BuildFault {
    /// The sequents have more formula nodes than a table may have; so many were counted when this was found.
    TableFull(u64),
    OutOfMemory,
}

impl From<OutOfMemory> for BuildFault {
    ghost use Rattle.std.specs.Prelude.{◌≡◌};
    ghost use Rattle.build_core.specs.declared.built.BuildFault.TheVariants as fault;

    ghost from_gives = { λ _ e. e ≡ fault.OutOfMemory };

    fn from(_: OutOfMemory) -> BuildFault {
        BuildFault::OutOfMemory
    }
}
