ghost use Rattle.std.specs.Prelude.{◌≡◌, IfOk, IsErrOf};
ghost use Rattle.unification.specs.Solutions.{equations_of, HasNoSolution};
ghost use Rattle.unification.specs.Known.{AreKnown};

use crate::building::{count_variables, free_places, place_equations};
use crate::closing::write_types;
use crate::merging::merge;
use crate::ordering::{check_sorts, order_places};
use crate::term::Term;
use formula_core::{OutOfMemory, Ty};
use std::alloc::{AllocFailed, Global};

/// Why equations are not solved.
#[derive(Clone, Copy, Debug, PartialEq, Eq)]
pub enum SolveFault {
    NoSolution,
    OutOfMemory,
}

impl<T: Drop> From<AllocFailed<T>> for SolveFault {
    ghost use Rattle.std.specs.Prelude.{◌≡◌};
    ghost use Rattle.unification.specs.declared.equations.SolveFault.TheVariants.{OutOfMemory};

    ghost from_gives = { λ _ e. e ≡ OutOfMemory };

    fn from(_: AllocFailed<T>) -> SolveFault {
        SolveFault::OutOfMemory
    }
}

impl From<OutOfMemory> for SolveFault {
    ghost use Rattle.std.specs.Prelude.{◌≡◌};
    ghost use Rattle.unification.specs.declared.equations.SolveFault.TheVariants.{OutOfMemory};

    ghost from_gives = { λ _ e. e ≡ OutOfMemory };

    fn from(_: OutOfMemory) -> SolveFault {
        SolveFault::OutOfMemory
    }
}

/// Two terms that are to be one type.
#[derive(Drop)]
pub struct Equation {
    pub left: Term,
    pub right: Term,
}

/// The types that all solutions of the equations give to the variables, each at its number. A variable has no type there, or is past the end, where two solutions give it different types. What is found of a type is kept once, whatever leads to it, and types are written out only where there is a solution. Each number up to the greatest of a variable takes a place, so they should have no large gaps.
pub fn solve(alloc: Global, equations: Vec<Equation>) -> Result<Vec<Option<Ty>>, SolveFault>
    ensures known { IfOk result (λ types. AreKnown (equations_of equations.items) types.items) }
    ensures no_solution { IsErrOf result SolveFault.NoSolution → HasNoSolution (equations_of equations.items) }
{
    let count = count_variables(&equations);
    let mut nodes = free_places(alloc, count)?;
    let mut pairs = place_equations(alloc, &mut nodes, equations)?;
    merge(&mut nodes, &mut pairs)?;
    let order = order_places(alloc, &nodes)?;
    check_sorts(alloc, &nodes, &order, count)?;
    let types = write_types(alloc, &nodes, &order, count)?;
    Ok(types)
}
