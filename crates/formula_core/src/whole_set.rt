//! The set of all values of a type.
ghost use Rattle.std.specs.Prelude.{◌≡◌, IsTrue, IfOk};
ghost use Rattle.formula_core.specs.Types.{is_value_type};
ghost use Rattle.formula_core.specs.Wellness.{type_of, is_well};
ghost use Rattle.formula_core.specs.WholeSets.{whole_set};

use crate::boxed::Boxed;
use crate::formula::Formula;
use crate::list::List;
use crate::memory::OutOfMemory;
use crate::op::Op;
use crate::ty::Ty;
use std::alloc::Global;

impl Ty {
    /// The set of all values of the type.
    #[tactic(auto, using(crate::proofs::WholeSets::whole_sets))]
    pub fn whole_set(&self, alloc: Global) -> Result<Formula, OutOfMemory>
        ensures value { IfOk result (λ f. f ≡ whole_set self.now) }
        ensures typed { IfOk result (λ f. type_of f ≡ Ty.Pow self.now) }
        ensures well { IsTrue (is_value_type self.now) → IfOk result (λ f. IsTrue (is_well f)) }
    {
        self.whole_set_of(alloc)
    }

    #[tactic(auto, using(crate::proofs::WholeSets::whole_set_equations))]
    fn whole_set_of(&self, alloc: Global) -> Result<Formula, OutOfMemory>
        ensures { IfOk result (λ f. f ≡ whole_set self.now) }
    {
        let ty = Ty::Pow(Boxed::new(alloc, self.copy(alloc)?)?);
        match self {
            Ty::Int => Ok(Formula::Node(Op::Integers, List::of(Vec::new(alloc)), ty)),
            Ty::Bool => Ok(Formula::Node(Op::Booleans, List::of(Vec::new(alloc)), ty)),
            Ty::Given(name) => Ok(Formula::Free(name.copy(alloc)?, ty)),
            Ty::Pow(part) => {
                let mut parts = Vec::new(alloc);
                parts.push(part.get().whole_set_of(alloc)?)?;
                Ok(Formula::Node(Op::PowerSet, List::of(parts), ty))
            }
            Ty::Pair(left, right) => {
                let mut parts = Vec::new(alloc);
                parts.push(left.get().whole_set_of(alloc)?)?;
                parts.push(right.get().whole_set_of(alloc)?)?;
                Ok(Formula::Node(Op::Product, List::of(parts), ty))
            }
            Ty::Truth => Ok(Formula::Node(Op::EmptySet, List::of(Vec::new(alloc)), ty)),
        }
    }
}
