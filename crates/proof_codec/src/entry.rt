// Entries, and their bytes in two versions.
ghost use Rattle.std.specs.Prelude.{◌≡◌, ◌++◌, List as ListOf, ℕ, IfOk, IfErr, OnOk, OnErr, IsErrOf};
ghost use Rattle.proof_entries.specs.declared.entry.Entry.{Entry};
ghost use Rattle.proof_codec.specs.Private.{ReadsBy, WritesAs};
ghost use Rattle.proof_codec.specs.Numbers.{IsText, text_bytes};
ghost use Rattle.proof_codec.specs.Parts.{IsAny, pair_bytes, IsPair};
ghost use Rattle.proof_codec.specs.ProofTrees.{tree_bytes, IsWritableTree};
ghost use Rattle.proof_codec.specs.Entries.{IsUnprimed, IsShortText, origin_bytes, proof_bytes, IsGoodProof, IsFitProof, old_proof_bytes, IsGoodOldProof, IsFitOldProof, IsComponentName, IsPoName, bytes_by, IsEntryBy, IsFitBy, entry_bytes, IsEntry, IsWritable, old_entry_bytes, IsOldEntry, IsOldWritable, AreEntriesBy, AreEntries, AreOldEntries, IsStuckBy, IsStuck, IsOldStuck};

use crate::coded::{Coded, write_pair};
use crate::names::{component_name, write_component_name};
use crate::reader::{ReadFault, Reader};
use crate::writer::write_byte;
use formula_core::{List, Name, OutOfMemory, PoName, Text};
use proof_entries::{Entry, Origin, Proof};
use sequent_core::Tree;
use std::alloc::{AllocFailed, Global};

/// Why bytes are no list of entries.
#[derive(Clone, Copy, Debug, PartialEq, Eq)]
pub enum CodecFault {
    /// What stands at this offset begins with no entry; before it stand entries alone.
    BadBytes(u64),
    OutOfMemory,
}

impl<T: Drop> From<AllocFailed<T>> for CodecFault {
    ghost use Rattle.std.specs.Prelude.{◌≡◌};
    ghost use Rattle.proof_codec.specs.declared.entry.CodecFault.TheVariants.{OutOfMemory};

    ghost from_gives = { λ _ e. e ≡ OutOfMemory };

    fn from(_: AllocFailed<T>) -> CodecFault {
        CodecFault::OutOfMemory
    }
}

/// How a version writes a proof. All else is the same in both.
trait Version {
    ghost use Rattle.proof_entries.specs.declared.proof.Proof.{Proof};

    ghost IsGoodProof: { Proof → Type 0 };

    ghost IsFitProof: { Proof → Type 0 };

    ghost proof_bytes: { Proof → ListOf ℕ };

    fn proof(alloc: Global, from: &mut Reader<'_>) -> Result<Proof, ReadFault>
        ensures { ReadsBy IsGoodProof proof_bytes from.old from.new result };

    fn write_proof(proof: &Proof, out: &mut Vec<u8>) -> Result<(), OutOfMemory>
        requires { IsFitProof proof.now }
        ensures { WritesAs IsGoodProof proof_bytes proof.now out.old.items out.new.items result };
}

/// Proofs without an origin.
struct First;

/// Proofs with their origin.
struct Second;

impl Version for First {
    ghost IsGoodProof = { IsGoodOldProof };

    ghost IsFitProof = { IsFitOldProof };

    ghost proof_bytes = { old_proof_bytes };

    #[tactic(auto, using(crate::proofs::Assembly::old_proof_read, crate::proofs::Assembly::no_old_proof))]
    fn proof(alloc: Global, from: &mut Reader<'_>) -> Result<Proof, ReadFault> {
        let tree = Tree::read(alloc, from)?;
        Ok(Proof {
            tree,
            origin: Origin::Unknown,
        })
    }

    fn write_proof(proof: &Proof, out: &mut Vec<u8>) -> Result<(), OutOfMemory> {
        proof.tree.write(out)
    }
}

impl Version for Second {
    ghost IsGoodProof = { IsGoodProof };

    ghost IsFitProof = { IsFitProof };

    ghost proof_bytes = { proof_bytes };

    #[tactic(auto, using(crate::proofs::Assembly::proof_read, crate::proofs::Assembly::no_proof))]
    fn proof(alloc: Global, from: &mut Reader<'_>) -> Result<Proof, ReadFault> {
        let (origin, tree) = <(Origin, Tree)>::read(alloc, from)?;
        Ok(Proof { tree, origin })
    }

    #[tactic(auto, using(crate::proofs::Writing::front_behind, crate::proofs::Writing::pair_written))]
    fn write_proof(proof: &Proof, out: &mut Vec<u8>) -> Result<(), OutOfMemory> {
        write_pair(&proof.origin, &proof.tree, out)
    }
}

impl Coded for Origin {
    ghost IsGood = { IsAny };

    ghost IsFit = { IsAny };

    ghost bytes_of = { origin_bytes };

    fn read(_alloc: Global, from: &mut Reader<'_>) -> Result<Origin, ReadFault> {
        match from.byte()? {
            0 => Ok(Origin::Unknown),
            1 => Ok(Origin::User),
            2 => Ok(Origin::Prover),
            _ => Err(ReadFault::Bad),
        }
    }

    fn write(&self, out: &mut Vec<u8>) -> Result<(), OutOfMemory> {
        let number = match self {
            Origin::Unknown => 0,
            Origin::User => 1,
            Origin::Prover => 2,
        };
        write_byte(out, number)
    }
}

fn name_and_text(alloc: Global, from: &mut Reader<'_>) -> Result<(Name, Text), ReadFault>
    ensures { ReadsBy (IsPair IsComponentName (IsText 65536))
        (pair_bytes text_bytes text_bytes) from.old from.new result }
{
    let name = component_name(alloc, from)?;
    let text = Text::read(alloc, from)?;
    Ok((name, text))
}

#[tactic(auto, using(crate::proofs::Writing::front_behind, crate::proofs::Writing::pair_written))]
fn write_name_and_text(name: &Name, text: &Text, out: &mut Vec<u8>) -> Result<(), OutOfMemory>
    requires name { IsUnprimed name.now }
    requires text { IsShortText text.now }
    ensures { WritesAs (IsPair IsComponentName (IsText 65536))
        (pair_bytes text_bytes text_bytes) (name.now, text.now) out.old.items out.new.items result }
{
    write_component_name(name, out)?;
    text.write(out)?;
    Ok(())
}

fn name_and_proof<V: Version>(
    alloc: Global,
    from: &mut Reader<'_>,
) -> Result<(PoName, Proof), ReadFault>
    ensures { ReadsBy (IsPair IsPoName V.IsGoodProof) (pair_bytes text_bytes V.proof_bytes) from.old from.new result }
{
    let name = <PoName as Coded>::read(alloc, from)?;
    let proof = V::proof(alloc, from)?;
    Ok((name, proof))
}

#[tactic(auto, using(crate::proofs::Writing::front_behind, crate::proofs::Writing::pair_written))]
fn write_name_and_proof<V: Version>(
    name: &PoName,
    proof: &Proof,
    out: &mut Vec<u8>,
) -> Result<(), OutOfMemory>
    requires { V.IsFitProof proof.now }
    ensures { WritesAs (IsPair IsPoName V.IsGoodProof)
        (pair_bytes text_bytes V.proof_bytes) (name.now, proof.now) out.old.items out.new.items result }
{
    name.write(out)?;
    V::write_proof(proof, out)?;
    Ok(())
}

/// Reads an entry.
#[tactic(auto, using(crate::proofs::Entrance::put_read, crate::proofs::Entrance::no_put, crate::proofs::Entrance::drop_read, crate::proofs::Entrance::no_drop, crate::proofs::Entrance::build_read, crate::proofs::Entrance::set_read, crate::proofs::Entrance::no_set, crate::proofs::Entrance::purge_read, crate::proofs::Entrance::no_purge, crate::proofs::Entrance::no_entry, crate::proofs::Entrance::no_tag))]
fn entry_at<V: Version>(alloc: Global, from: &mut Reader<'_>) -> Result<Entry, ReadFault>
    ensures { ReadsBy (IsEntryBy V.IsGoodProof) (bytes_by V.proof_bytes) from.old from.new result }
{
    match from.byte()? {
        1 => {
            let (name, text) = name_and_text(alloc, from)?;
            Ok(Entry::Put(name, text))
        }
        2 => Ok(Entry::Drop(component_name(alloc, from)?)),
        3 => Ok(Entry::Build),
        4 => {
            let (name, proof) = name_and_proof::<V>(alloc, from)?;
            Ok(Entry::SetProof(name, proof))
        }
        5 => Ok(Entry::Purge(List::<PoName>::read(alloc, from)?)),
        _ => Err(ReadFault::Bad),
    }
}

// Reads entries to the end of the bytes.
fn entries<V: Version>(alloc: Global, bytes: &[u8]) -> Result<Vec<Entry>, CodecFault>
    ensures read { IfOk result (λ read. AreEntriesBy V.IsGoodProof V.proof_bytes read.items bytes.now) }
    ensures only { (es : ListOf Entry) → AreEntriesBy V.IsGoodProof V.proof_bytes es bytes.now
        → IfOk result (λ read. read.items ≡ es) }
    ensures good { (es : ListOf Entry) → AreEntriesBy V.IsGoodProof V.proof_bytes es bytes.now
        → IfErr result (λ fault. fault ≡ CodecFault.OutOfMemory) }
    ensures bad { (at : ℕ) → IsErrOf result (CodecFault.BadBytes at)
        → IsStuckBy V.IsGoodProof V.proof_bytes bytes.now at }
{
    let mut from = Reader::new(bytes);
    let mut entries = Vec::new(alloc);
    while !from.is_empty() {
        let at = (bytes.len() - from.len()) as u64;
        match entry_at::<V>(alloc, &mut from) {
            Ok(entry) => entries.push(entry)?,
            Err(ReadFault::Bad) => return Err(CodecFault::BadBytes(at)),
            Err(ReadFault::OutOfMemory) => return Err(CodecFault::OutOfMemory),
        }
    }
    Ok(entries)
}

/// Reads entries of version 2 to the end of the bytes.
pub fn read_entries(alloc: Global, bytes: &[u8]) -> Result<Vec<Entry>, CodecFault>
    ensures read { IfOk result (λ read. AreEntries read.items bytes.now) }
    ensures only { (es : ListOf Entry) → AreEntries es bytes.now → IfOk result (λ read. read.items ≡ es) }
    ensures good { (es : ListOf Entry) → AreEntries es bytes.now
        → IfErr result (λ fault. fault ≡ CodecFault.OutOfMemory) }
    ensures bad { (at : ℕ) → IsErrOf result (CodecFault.BadBytes at) → IsStuck bytes.now at }
{
    entries::<Second>(alloc, bytes)
}

/// Reads entries of version 1 to the end of the bytes. The origin of each proof is unknown.
pub fn read_entries_v1(alloc: Global, bytes: &[u8]) -> Result<Vec<Entry>, CodecFault>
    ensures read { IfOk result (λ read. AreOldEntries read.items bytes.now) }
    ensures only { (es : ListOf Entry) → AreOldEntries es bytes.now → IfOk result (λ read. read.items ≡ es) }
    ensures good { (es : ListOf Entry) → AreOldEntries es bytes.now
        → IfErr result (λ fault. fault ≡ CodecFault.OutOfMemory) }
    ensures bad { (at : ℕ) → IsErrOf result (CodecFault.BadBytes at) → IsOldStuck bytes.now at }
{
    entries::<First>(alloc, bytes)
}

#[tactic(auto, using(crate::proofs::Exits::put_written, crate::proofs::Exits::drop_written, crate::proofs::Exits::build_written, crate::proofs::Exits::set_written, crate::proofs::Exits::purge_written, crate::proofs::Writing::front_behind))]
fn write_by<V: Version>(entry: &Entry, out: &mut Vec<u8>) -> Result<(), OutOfMemory>
    requires { IsFitBy V.IsFitProof entry.now }
    ensures { WritesAs (IsEntryBy V.IsGoodProof) (bytes_by V.proof_bytes) entry.now out.old.items out.new.items result }
{
    match entry {
        Entry::Put(name, text) => {
            write_byte(out, 1)?;
            write_name_and_text(name, text, out)?;
            Ok(())
        }
        Entry::Drop(name) => {
            write_byte(out, 2)?;
            write_component_name(name, out)?;
            Ok(())
        }
        Entry::Build => write_byte(out, 3),
        Entry::SetProof(name, proof) => {
            write_byte(out, 4)?;
            write_name_and_proof::<V>(name, proof, out)?;
            Ok(())
        }
        Entry::Purge(names) => {
            write_byte(out, 5)?;
            names.write(out)?;
            Ok(())
        }
    }
}

// Writes an entry, or leaves the bytes as they were.
fn write_or_leave<V: Version>(entry: &Entry, out: &mut Vec<u8>) -> Result<(), OutOfMemory>
    requires { IsFitBy V.IsFitProof entry.now }
    ensures entry { OnOk result (IsEntryBy V.IsGoodProof entry.now) }
    ensures bytes { OnOk result (out.new.items ≡ out.old.items ++ bytes_by V.proof_bytes entry.now) }
    ensures unchanged { OnErr result (out.new.items ≡ out.old.items) }
{
    let len = out.len();
    let written = write_by::<V>(entry, out);
    if written.is_err() {
        out.truncate(len);
    }
    written
}

/// Writes an entry behind the bytes, in version 2.
pub fn write_entry(entry: &Entry, out: &mut Vec<u8>) -> Result<(), OutOfMemory>
    requires { IsWritable entry.now }
    ensures entry { OnOk result (IsEntry entry.now) }
    ensures bytes { OnOk result (out.new.items ≡ out.old.items ++ entry_bytes entry.now) }
    ensures unchanged { OnErr result (out.new.items ≡ out.old.items) }
{
    write_or_leave::<Second>(entry, out)
}

/// Writes an entry behind the bytes, in version 1, which keeps no origin.
pub fn write_entry_v1(entry: &Entry, out: &mut Vec<u8>) -> Result<(), OutOfMemory>
    requires { IsOldWritable entry.now }
    ensures entry { OnOk result (IsOldEntry entry.now) }
    ensures bytes { OnOk result (out.new.items ≡ out.old.items ++ old_entry_bytes entry.now) }
    ensures unchanged { OnErr result (out.new.items ≡ out.old.items) }
{
    write_or_leave::<First>(entry, out)
}
