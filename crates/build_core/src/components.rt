//! The components of a project, as they are written.

ghost use Rattle.std.specs.Prelude.{◌≡◌, ◌<◌, ◌++◌, ◌∷◌, [], length, map, IfOk, OnOk};
ghost use Rattle.std.specs.Arc.{arc_value};
ghost use Rattle.std.specs.List.{HoldsAt};
ghost use Rattle.static_check.specs.Settling.{IsComponentOrder};

use formula_core::OutOfMemory;
use model_core::RawComponent;
use static_check::order;
use static_check::settled::Order;
use std::alloc::Global;
use std::marker::Model;
use std::sync::Arc;

/// The components that texts are read as. A component may be shared with those of another build.
#[derive(Drop)]
pub struct Components {
    shared: Vec<Arc<RawComponent>>,
}

impl Model for Components {
    ghost use Rattle.std.specs.Prelude.{List, map};
    ghost use Rattle.std.specs.Arc.{arc_value};
    ghost use Rattle.std.specs.Coded.{codes};
    ghost use Rattle.model_core.specs.declared.component.RawComponent.{RawComponent};
    ghost use Rattle.model_core.specs.contracts.component.RawComponent as component;

    ghost Value = { List RawComponent };

    ghost coded = { Prim.hlevel (codes, component.the_row.coded) };

    ghost view = { λ c. map arc_value c.shared.items };
}

fn borrowed<'a>(
    alloc: Global,
    shared: &'a [Arc<RawComponent>],
) -> Result<Vec<&'a RawComponent>, OutOfMemory>
    ensures { IfOk result (λ all. map (λ x. x.now) all.items ≡ map arc_value shared.now) }
{
    let mut all = Vec::new(alloc);
    for component in shared {
        all.push(&**component)?;
    }
    Ok(all)
}

impl Components {
    pub fn new(alloc: Global) -> Components
        ensures { result ≡ [] }
    {
        Components {
            shared: Vec::new(alloc),
        }
    }

    pub fn len(&self) -> usize
        ensures { result ≡ length self.now }
    {
        self.shared.len()
    }

    pub fn at(&self, place: usize) -> &RawComponent
        requires { place < length self.now }
        ensures { HoldsAt (λ c. c ≡ result.now) self.now place }
    {
        &self.shared[place]
    }

    /// The component at a place, to be put among others.
    pub fn share(&self, place: usize) -> Result<Arc<RawComponent>, OutOfMemory>
        requires { place < length self.now }
        ensures { IfOk result (λ shared. HoldsAt (λ c. c ≡ arc_value shared) self.now place) }
    {
        let shared = Arc::try_clone(&self.shared[place])?;
        Ok(shared)
    }

    pub fn push(&mut self, component: Arc<RawComponent>) -> Result<(), OutOfMemory>
        ensures { OnOk result (self.new ≡ self.old ++ arc_value component ∷ []) }
    {
        self.shared.push(component)?;
        Ok(())
    }

    /// Their order, references first.
    pub fn order(&self, alloc: Global) -> Result<Order, OutOfMemory>
        ensures { IfOk result (λ order. IsComponentOrder self.now order) }
    {
        let components = borrowed(alloc, &self.shared)?;
        let order = order(alloc, &components)?;
        Ok(order)
    }
}
