// Formulas as bytes.
ghost use Rattle.std.specs.Prelude.{◌≢◌};
ghost use Rattle.proof_codec.specs.Parts.{IsAny, list_bytes, IsList};
ghost use Rattle.proof_codec.specs.Private.{AreFit, ReadsLeaf, ReadsBy, WritesAs, op_bytes, binder_bytes, IsFormulaWithin, IsCoded, HasFitParts};
ghost use Rattle.proof_codec.specs.Formulas.{formula_bytes, IsGoodFormula, IsFitFormula};

use crate::coded::{Coded, write_pair};
use crate::reader::{ReadFault, Reader};
use crate::writer::{write_byte, write_number};
use formula_core::{Binder, Formula, List, Name, Op, OutOfMemory, Ty};
use std::alloc::Global;

impl Coded for Op {
    ghost IsGood = { IsAny };

    ghost IsFit = { IsAny };

    ghost bytes_of = { op_bytes };

    fn read(_alloc: Global, from: &mut Reader<'_>) -> Result<Op, ReadFault> {
        match Op::of_number(from.byte()?) {
            Some(op) => Ok(op),
            None => Err(ReadFault::Bad),
        }
    }

    fn write(&self, out: &mut Vec<u8>) -> Result<(), OutOfMemory> {
        write_byte(out, self.number())
    }
}

impl Coded for Binder {
    ghost IsGood = { IsAny };

    ghost IsFit = { IsAny };

    ghost bytes_of = { binder_bytes };

    fn read(_alloc: Global, from: &mut Reader<'_>) -> Result<Binder, ReadFault> {
        match Binder::of_number(from.byte()?) {
            Some(binder) => Ok(binder),
            None => Err(ReadFault::Bad),
        }
    }

    fn write(&self, out: &mut Vec<u8>) -> Result<(), OutOfMemory> {
        write_byte(out, self.number())
    }
}

impl Coded for Formula {
    ghost IsGood = { IsGoodFormula };

    ghost IsFit = { IsFitFormula };

    ghost bytes_of = { formula_bytes };

    fn read(alloc: Global, from: &mut Reader<'_>) -> Result<Formula, ReadFault> {
        well_formula(alloc, from)
    }

    #[tactic(auto, using(crate::proofs::Spelling::has_small_parts, crate::proofs::Spelling::formula_written))]
    fn write(&self, out: &mut Vec<u8>) -> Result<(), OutOfMemory> {
        write_formula(self, out)
    }
}

/// Reads a well formula within the limits.
#[tactic(auto, using(crate::proofs::Limits::formula_read, crate::proofs::Limits::no_formula_there, crate::proofs::Limits::not_within, crate::proofs::Limits::not_well))]
fn well_formula(alloc: Global, from: &mut Reader<'_>) -> Result<Formula, ReadFault>
    ensures { ReadsBy IsGoodFormula formula_bytes from.old from.new result }
{
    let formula = formula_within(alloc, from, 4_096)?;
    if !formula.is_within_limits() {
        return Err(ReadFault::Bad);
    }
    if !formula.is_well() {
        return Err(ReadFault::Bad);
    }
    Ok(formula)
}

/// Reads a formula of at most this height.
#[cycle(formula)]
#[tactic(auto, using(crate::proofs::Formulae::no_depth, crate::proofs::Formulae::no_tag))]
fn formula_within(alloc: Global, from: &mut Reader<'_>, depth: u32) -> Result<Formula, ReadFault>
    ensures { ReadsBy (IsFormulaWithin depth) formula_bytes from.old from.new result }
{
    if depth == 0 {
        return Err(ReadFault::Bad);
    }
    match from.byte()? {
        3 => {
            let op = Op::read(alloc, from)?;
            let parts = parts_within(alloc, from, depth - 1)?;
            let ty = Ty::read(alloc, from)?;
            Ok(Formula::Node(op, parts, ty))
        }
        4 => {
            let (binder, types) = <(Binder, List<Ty>)>::read(alloc, from)?;
            let parts = parts_within(alloc, from, depth - 1)?;
            let ty = Ty::read(alloc, from)?;
            Ok(Formula::Bind(binder, types, parts, ty))
        }
        tag => leaf_behind(alloc, from, tag),
    }
}

// Reads formulas of at most this height: their number, and them.
#[cycle(formula)]
#[tactic(auto, using(crate::proofs::Items::list_read, crate::proofs::Items::no_items, crate::proofs::Items::no_count))]
fn parts_within(
    alloc: Global,
    from: &mut Reader<'_>,
    depth: u32,
) -> Result<List<Formula>, ReadFault>
    ensures { ReadsBy (IsList (IsFormulaWithin depth)) (list_bytes formula_bytes) from.old from.new result }
{
    let count = from.number()?;
    let mut parts = Vec::new(alloc);
    for _ in 0..count {
        parts.push(formula_within(alloc, from, depth)?)?;
    }
    Ok(List::of(parts))
}

// Reads what stands behind the tag of a formula without parts. It isn't inlined, so that the frames of the recursion stay small.
#[inline(never)]
#[tactic(auto, using(crate::proofs::Formulae::int_behind, crate::proofs::Formulae::no_int_behind, crate::proofs::Formulae::free_behind, crate::proofs::Formulae::no_free_behind, crate::proofs::Formulae::bound_behind, crate::proofs::Formulae::no_bound_behind, crate::proofs::Formulae::no_leaf_behind))]
fn leaf_behind(alloc: Global, from: &mut Reader<'_>, tag: u8) -> Result<Formula, ReadFault>
    requires no_node { tag ≢ 3 }
    requires no_binder { tag ≢ 4 }
    ensures { ReadsLeaf tag from.old from.new result }
{
    match tag {
        0 => Ok(Formula::Int(from.integer()?)),
        1 => {
            let (name, ty) = <(Name, Ty)>::read(alloc, from)?;
            Ok(Formula::Free(name, ty))
        }
        2 => {
            let (at, ty) = <(u32, Ty)>::read(alloc, from)?;
            Ok(Formula::Bound(at, ty))
        }
        _ => Err(ReadFault::Bad),
    }
}

/// Writes a formula.
#[cycle(write)]
#[tactic(auto, using(crate::proofs::Spelling::small_free, crate::proofs::Spelling::small_bound, crate::proofs::Spelling::small_node, crate::proofs::Spelling::small_bind, crate::proofs::Writing::front_behind))]
fn write_formula(formula: &Formula, out: &mut Vec<u8>) -> Result<(), OutOfMemory>
    requires { HasFitParts formula.now }
    ensures { WritesAs IsCoded formula_bytes formula.now out.old.items out.new.items result }
{
    match formula {
        Formula::Int(value) => {
            write_byte(out, 0)?;
            value.write(out)?;
            Ok(())
        }
        Formula::Free(name, ty) => {
            write_byte(out, 1)?;
            write_pair(name, ty, out)?;
            Ok(())
        }
        Formula::Bound(at, ty) => {
            write_byte(out, 2)?;
            write_pair(at, ty, out)?;
            Ok(())
        }
        Formula::Node(op, parts, ty) => {
            write_byte(out, 3)?;
            op.write(out)?;
            write_parts(parts.items(), out)?;
            ty.write(out)?;
            Ok(())
        }
        Formula::Bind(binder, types, parts, ty) => {
            write_byte(out, 4)?;
            write_pair(binder, types, out)?;
            write_parts(parts.items(), out)?;
            ty.write(out)?;
            Ok(())
        }
    }
}

// Writes formulas: their number, and them.
#[cycle(write)]
#[tactic(auto, using(crate::proofs::Writing::no_items_written, crate::proofs::Writing::one_more_written, crate::proofs::Writing::fitting_at, crate::proofs::Writing::list_written, crate::proofs::Writing::front_behind))]
fn write_parts(parts: &[Formula], out: &mut Vec<u8>) -> Result<(), OutOfMemory>
    requires { AreFit parts.now }
    ensures { WritesAs (IsList IsCoded) (list_bytes formula_bytes) parts.now out.old.items out.new.items result }
{
    write_number(out, parts.len() as u32)?;
    for part in parts {
        write_formula(part, out)?;
    }
    Ok(())
}
