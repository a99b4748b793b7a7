//! The obligations of one component.

ghost use Rattle.std.specs.Prelude.{◌≡◌, map, IfOk};
ghost use Rattle.std.specs.Arc.{arc_value};

use crate::numbered::Numbered;
use formula_core::OutOfMemory;
use sequent_core::Obligation;
use std::alloc::Global;
use std::sync::Arc;

/// The obligations of a component in order, each of which may be shared with those of another build, and the formula
/// nodes of their sequents.
#[derive(Drop)]
pub struct Own {
    pub obligations: Vec<Arc<Numbered>>,
    pub nodes: u64,
}

/// The same obligations, shared.
pub fn share_all(
    alloc: Global,
    obligations: &[Arc<Numbered>],
) -> Result<Vec<Arc<Numbered>>, OutOfMemory>
    ensures { IfOk result (λ shared. map arc_value shared.items ≡ map arc_value obligations.now) }
{
    let mut shared = Vec::new(alloc);
    for obligation in obligations {
        shared.push(Arc::try_clone(obligation)?)?;
    }
    Ok(shared)
}

/// Obligations that can be shared, with the numbers of their hypotheses.
pub fn made_shared(
    alloc: Global,
    obligations: Vec<Obligation>,
) -> Result<Vec<Arc<Numbered>>, OutOfMemory>
    ensures { IfOk result (λ shared. map arc_value shared.items ≡ obligations.items) }
{
    let mut shared = Vec::new(alloc);
    for obligation in obligations {
        let numbered = Numbered::of(alloc, obligation)?;
        shared.push(Arc::new(alloc, numbered)?)?;
    }
    Ok(shared)
}

impl Own {
    /// The same, shared.
    pub fn share(&self, alloc: Global) -> Result<Own, OutOfMemory>
        ensures obligations { IfOk result
            (λ own. map arc_value own.obligations.items ≡ map arc_value self.now.obligations.items) }
        ensures nodes { IfOk result (λ own. own.nodes ≡ self.now.nodes) }
    {
        let obligations = share_all(alloc, &self.obligations)?;
        Ok(Own {
            obligations,
            nodes: self.nodes,
        })
    }
}
