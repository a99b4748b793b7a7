// Values that have bytes.
ghost use Rattle.std.specs.Prelude.{◌≡◌, List, ℕ};
ghost use Rattle.std.specs.List.{AllByRecursion};
ghost use Rattle.proof_codec.specs.Private.{ReadsBy, WritesAs, AreItems, items_bytes};
ghost use Rattle.proof_codec.specs.Numbers.{IsByte, byte, FitsU32, number_bytes, IsInteger, integer};
ghost use Rattle.proof_codec.specs.Parts.{IsAny, pair_bytes, IsPair, option_bytes, IsOption, list_bytes, IsList};

use crate::reader::{ReadFault, Reader};
use crate::writer::{write_byte, write_integer, write_number};
use formula_core::{List, OutOfMemory};
use std::alloc::Global;

/// A value that has bytes.
pub(crate) trait Coded: Sized {
    // Which values have bytes.
    ghost IsGood: { Self → Type 0 };

    // What a value must be to be written, beside what its type gives.
    ghost IsFit: { Self → Type 0 };

    ghost bytes_of: { Self → List ℕ };

    /// Reads a value.
    fn read(alloc: Global, from: &mut Reader<'_>) -> Result<Self, ReadFault>
        ensures { ReadsBy IsGood bytes_of from.old from.new result };

    /// Writes the value behind the bytes.
    fn write(&self, out: &mut Vec<u8>) -> Result<(), OutOfMemory>
        requires { IsFit self.now }
        ensures { WritesAs IsGood bytes_of self.now out.old.items out.new.items result };
}

impl Coded for u8 {
    ghost IsGood = { IsByte };

    ghost IsFit = { IsAny };

    ghost bytes_of = { byte };

    fn read(_alloc: Global, from: &mut Reader<'_>) -> Result<u8, ReadFault> {
        from.byte()
    }

    fn write(&self, out: &mut Vec<u8>) -> Result<(), OutOfMemory> {
        write_byte(out, *self)
    }
}

impl Coded for u32 {
    ghost IsGood = { FitsU32 };

    ghost IsFit = { IsAny };

    ghost bytes_of = { number_bytes };

    fn read(_alloc: Global, from: &mut Reader<'_>) -> Result<u32, ReadFault> {
        from.number()
    }

    fn write(&self, out: &mut Vec<u8>) -> Result<(), OutOfMemory> {
        write_number(out, *self)
    }
}

impl Coded for i128 {
    ghost IsGood = { IsInteger };

    ghost IsFit = { IsAny };

    ghost bytes_of = { integer };

    fn read(_alloc: Global, from: &mut Reader<'_>) -> Result<i128, ReadFault> {
        from.integer()
    }

    fn write(&self, out: &mut Vec<u8>) -> Result<(), OutOfMemory> {
        write_integer(out, *self)
    }
}

impl<A: Coded + Drop, B: Coded> Coded for (A, B) {
    ghost IsGood = { IsPair A.IsGood B.IsGood };

    ghost IsFit = { IsPair A.IsFit B.IsFit };

    ghost bytes_of = { pair_bytes A.bytes_of B.bytes_of };

    fn read(alloc: Global, from: &mut Reader<'_>) -> Result<(A, B), ReadFault> {
        let first = A::read(alloc, from)?;
        let second = B::read(alloc, from)?;
        Ok((first, second))
    }

    fn write(&self, out: &mut Vec<u8>) -> Result<(), OutOfMemory> {
        write_pair(&self.0, &self.1, out)
    }
}

// Writes a value, and another behind it.
#[tactic(auto, using(crate::proofs::Writing::pair_written, crate::proofs::Writing::front_behind))]
pub(crate) fn write_pair<A: Coded, B: Coded>(
    first: &A,
    second: &B,
    out: &mut Vec<u8>,
) -> Result<(), OutOfMemory>
    requires first { A.IsFit first.now }
    requires second { B.IsFit second.now }
    ensures { WritesAs (IsPair A.IsGood B.IsGood)
        (pair_bytes A.bytes_of B.bytes_of) (first.now, second.now) out.old.items out.new.items result }
{
    first.write(out)?;
    second.write(out)
}

impl<T: Coded> Coded for Option<T> {
    ghost IsGood = { IsOption T.IsGood };

    ghost IsFit = { IsOption T.IsFit };

    ghost bytes_of = { option_bytes T.bytes_of };

    fn read(alloc: Global, from: &mut Reader<'_>) -> Result<Option<T>, ReadFault> {
        match from.byte()? {
            0 => Ok(None),
            1 => Ok(Some(T::read(alloc, from)?)),
            _ => Err(ReadFault::Bad),
        }
    }

    #[tactic(auto, using(crate::proofs::Writing::tag_written, crate::proofs::Writing::front_behind))]
    fn write(&self, out: &mut Vec<u8>) -> Result<(), OutOfMemory> {
        match self {
            None => write_byte(out, 0),
            Some(value) => {
                write_byte(out, 1)?;
                value.write(out)
            }
        }
    }
}

// Reads so many values.
#[tactic(auto, using(crate::proofs::Items::one_more, crate::proofs::Items::no_more_items, crate::proofs::Items::no_items))]
fn items<T: Coded + Drop>(
    alloc: Global,
    from: &mut Reader<'_>,
    count: u32,
) -> Result<List<T>, ReadFault>
    ensures { ReadsBy (AreItems T.IsGood count) (items_bytes T.bytes_of) from.old from.new result }
{
    let mut items = Vec::new(alloc);
    for _ in 0..count {
        items.push(T::read(alloc, from)?)?;
    }
    Ok(List::of(items))
}

// Writes values, one behind the other.
#[tactic(auto, using(crate::proofs::Writing::no_items_written, crate::proofs::Writing::one_more_written, crate::proofs::Writing::fitting_at, crate::proofs::Writing::front_behind))]
fn write_items<T: Coded>(items: &[T], out: &mut Vec<u8>) -> Result<(), OutOfMemory>
    requires { AllByRecursion T.IsFit items.now }
    ensures { WritesAs (AllByRecursion T.IsGood) (items_bytes T.bytes_of) items.now out.old.items out.new.items result }
{
    for item in items {
        item.write(out)?;
    }
    Ok(())
}

impl<T: Coded + Drop> Coded for List<T> {
    ghost IsGood = { IsList T.IsGood };

    ghost IsFit = { IsList T.IsFit };

    ghost bytes_of = { list_bytes T.bytes_of };

    fn read(alloc: Global, from: &mut Reader<'_>) -> Result<List<T>, ReadFault> {
        let count = from.number()?;
        items(alloc, from, count)
    }

    #[tactic(auto, using(crate::proofs::Writing::list_written, crate::proofs::Writing::front_behind))]
    fn write(&self, out: &mut Vec<u8>) -> Result<(), OutOfMemory> {
        let items = self.items();
        write_number(out, items.len() as u32)?;
        write_items(items, out)
    }
}
