//! What plain derivations keep.
ghost use Rattle.plain_rules.specs.Derivations.{PlainDerivationsKeepTruth};

/// A sequent that is derived by plain rules alone is true in each reading. The call does nothing.
pub fn plain_derivations_keep_truth()
    ensures { PlainDerivationsKeepTruth }
{}
