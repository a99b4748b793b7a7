// Types as bytes.
ghost use Rattle.std.specs.Prelude.{◌≡◌, ◌+◌, ◌≤◌, IfOk};
ghost use Rattle.formula_core.specs.Sizes.{type_nodes};
ghost use Rattle.proof_codec.specs.Private.{ReadsBy, WritesAs};
ghost use Rattle.proof_codec.specs.Types.{type_bytes, IsTypeWithin, IsGoodType, IsFitType};

use crate::coded::Coded;
use crate::names::name;
use crate::reader::{ReadFault, Reader};
use crate::writer::write_byte;
use formula_core::{Boxed, OutOfMemory, Ty};
use std::alloc::Global;

impl Coded for Ty {
    ghost IsGood = { IsGoodType };

    ghost IsFit = { IsFitType };

    ghost bytes_of = { type_bytes };

    fn read(alloc: Global, from: &mut Reader<'_>) -> Result<Ty, ReadFault> {
        let mut room = 4_096;
        type_within(alloc, from, &mut room)
    }

    fn write(&self, out: &mut Vec<u8>) -> Result<(), OutOfMemory> {
        write_type(self, out)
    }
}

/// Reads a type of at most as many nodes as there is room for, and takes them from the room.
#[tactic(auto, using(crate::proofs::Types::int_read, crate::proofs::Types::bool_read, crate::proofs::Types::truth_read, crate::proofs::Types::given_read, crate::proofs::Types::pow_read, crate::proofs::Types::no_given, crate::proofs::Types::no_pow, crate::proofs::Types::no_first, crate::proofs::Types::no_type, crate::proofs::Types::no_room, crate::proofs::Types::no_byte))]
pub(crate) fn type_within(
    alloc: Global,
    from: &mut Reader<'_>,
    room: &mut u32,
) -> Result<Ty, ReadFault>
    ensures read { ReadsBy (IsTypeWithin room.old) type_bytes from.old from.new result }
    ensures room { IfOk result (λ ty. room.new + type_nodes ty ≡ room.old) }
{
    if *room == 0 {
        return Err(ReadFault::Bad);
    }
    *room -= 1;
    match from.byte()? {
        0 => Ok(Ty::Int),
        1 => Ok(Ty::Bool),
        2 => Ok(Ty::Given(name(alloc, from)?)),
        3 => Ok(Ty::Pow(Boxed::new(alloc, type_within(alloc, from, room)?)?)),
        4 => {
            let left = Boxed::new(alloc, type_within(alloc, from, room)?)?;
            let right = Boxed::new(alloc, type_within(alloc, from, room)?)?;
            Ok(Ty::Pair(left, right))
        }
        5 => Ok(Ty::Truth),
        _ => Err(ReadFault::Bad),
    }
}

#[tactic(auto, using(crate::proofs::Writing::front_behind))]
fn write_type(ty: &Ty, out: &mut Vec<u8>) -> Result<(), OutOfMemory>
    requires { IsFitType ty.now }
    ensures { WritesAs IsGoodType type_bytes ty.now out.old.items out.new.items result }
{
    match ty {
        Ty::Int => write_byte(out, 0),
        Ty::Bool => write_byte(out, 1),
        Ty::Given(name) => {
            write_byte(out, 2)?;
            name.write(out)?;
            Ok(())
        }
        Ty::Pow(part) => {
            write_byte(out, 3)?;
            write_type(part.get(), out)?;
            Ok(())
        }
        Ty::Pair(left, right) => {
            write_byte(out, 4)?;
            write_type(left.get(), out)?;
            write_type(right.get(), out)?;
            Ok(())
        }
        Ty::Truth => write_byte(out, 5),
    }
}
