// What lasts of a project.
ghost use Rattle.std.specs.Prelude.{◌≡◌};
ghost use Rattle.core_steps.specs.State.{no_texts};

use crate::maps::PoMap;
use crate::project::Project;
use crate::stored::StoredProof;
use crate::texts::Texts;
use std::alloc::Global;

/// What lasts: the texts, the texts of the last build, and the stored proofs.
#[derive(Drop)]
pub struct Durable {
    pub texts: Texts,
    pub built: Project,
    pub proofs: PoMap<StoredProof>,
}

impl Durable {
    /// What lasts of an empty project.
    pub fn empty(alloc: Global) -> Durable
        ensures { result ≡ no_texts }
    {
        Durable {
            texts: Texts::new(alloc),
            built: Project::new(alloc),
            proofs: PoMap::new(alloc),
        }
    }
}
