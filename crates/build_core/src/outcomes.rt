//! The outcomes of components, by their names.

ghost use Rattle.std.specs.Prelude.{◌≡◌, [], IfOk, OnOk};
ghost use Rattle.std.specs.Arc.{arc_value};
ghost use Rattle.std.specs.Option.{option_copied, option_map};
ghost use Rattle.build_core.specs.Private.{Sets, found};

use formula_core::{Name, OutOfMemory};
use model_core::{Checked, Fault};
use std::alloc::Global;
use std::collections::BTreeMap;
use std::marker::Model;
use std::sync::Arc;

/// The outcome of each component, by its name. An outcome may be shared with those of another build.
#[derive(Drop)]
pub struct Outcomes {
    shared: BTreeMap<Name, Arc<Result<Checked, Fault>>>,
}

impl Model for Outcomes {
    ghost use Rattle.std.specs.Prelude.{ℕ, List, map};
    ghost use Rattle.std.specs.Arc.{arc_value};
    ghost use Rattle.std.specs.Coded.{codes};
    ghost use Rattle.check_rules.specs.Contexts.{Outcome};
    ghost use Rattle.model_core.specs.contracts.checked.Checked as checked;

    ghost Value = { List (List ℕ × Outcome) };

    ghost coded = { Prim.hlevel (codes, checked.the_row.coded) };

    ghost view = { λ o. map (λ e. (e.0, arc_value e.1)) o.shared.entries };
}

impl Outcomes {
    pub fn new(alloc: Global) -> Outcomes
        ensures { result ≡ [] }
    {
        Outcomes {
            shared: BTreeMap::new(alloc),
        }
    }

    pub fn get(&self, name: &Name) -> Option<&Result<Checked, Fault>>
        ensures { option_copied result ≡ found self.now name.now }
    {
        match self.shared.get(name) {
            Some(outcome) => Some(outcome),
            None => None,
        }
    }

    /// The outcome of a name, to be set in another map.
    pub fn share(&self, name: &Name) -> Result<Option<Arc<Result<Checked, Fault>>>, OutOfMemory>
        ensures { IfOk result (λ outcome. option_map arc_value outcome ≡ found self.now name.now) }
    {
        match self.shared.get(name) {
            Some(outcome) => Ok(Some(Arc::try_clone(outcome)?)),
            None => Ok(None),
        }
    }

    /// Sets an outcome that is shared.
    pub fn set(
        &mut self,
        name: Name,
        outcome: Arc<Result<Checked, Fault>>,
    ) -> Result<(), OutOfMemory>
        ensures { OnOk result (Sets self.old name (arc_value outcome) self.new) }
    {
        self.shared.insert(name, outcome)?;
        Ok(())
    }

    /// Sets a new outcome.
    pub fn add(
        &mut self,
        alloc: Global,
        name: Name,
        outcome: Result<Checked, Fault>,
    ) -> Result<(), OutOfMemory>
        ensures { OnOk result (Sets self.old name outcome self.new) }
    {
        self.set(name, Arc::new(alloc, outcome)?)
    }
}
