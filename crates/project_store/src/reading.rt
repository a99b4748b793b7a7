// The entries of a record's body.
ghost use Rattle.std.specs.Prelude.{◌≡◌, List, IfOk, IfErr};
ghost use Rattle.proof_entries.specs.declared.Entry.{Entry};
ghost use Rattle.proof_codec.specs.Entries.{AreEntries, AreOldEntries};
ghost use Rattle.project_store.specs.Records.{AreIn, IsBody};

use crate::fault::BodyFault;
use proof_codec::{CodecFault, Entry, read_entries, read_entries_v1};
use std::alloc::Global;

/// The entries of a record's body, at least one.
#[tactic(auto, using(crate::proofs::Versions::whole, crate::proofs::Versions::none_there, crate::proofs::Versions::in_version))]
pub(crate) fn read_body(alloc: Global, body: &[u8]) -> Result<Vec<Entry>, BodyFault>
    ensures read { IfOk result (λ read. IsBody body.now read.items) }
    ensures only { (es : List Entry) → IsBody body.now es → IfOk result (λ read. read.items ≡ es) }
    ensures good { (es : List Entry) → IsBody body.now es → IfErr result (λ fault. fault ≡ BodyFault.OutOfMemory) }
{
    let entries = match read_version(alloc, body) {
        Ok(entries) => entries,
        Err(fault) => return Err(fault),
    };
    if entries.is_empty() {
        return Err(BodyFault::Bad);
    }
    Ok(entries)
}

// The entries behind the byte of their version.
#[tactic(auto, using(crate::proofs::Versions::in_second, crate::proofs::Versions::in_first, crate::proofs::Versions::of_second, crate::proofs::Versions::of_first, crate::proofs::Versions::of_none, crate::proofs::Versions::of_nothing))]
fn read_version(alloc: Global, body: &[u8]) -> Result<Vec<Entry>, BodyFault>
    ensures read { IfOk result (λ read. AreIn body.now read.items) }
    ensures only { (es : List Entry) → AreIn body.now es → IfOk result (λ read. read.items ≡ es) }
    ensures good { (es : List Entry) → AreIn body.now es → IfErr result (λ fault. fault ≡ BodyFault.OutOfMemory) }
{
    let Some((version, bytes)) = body.split_first() else {
        return Err(BodyFault::Bad);
    };
    if *version == 2 {
        return match read_second(alloc, bytes) {
            Ok(entries) => Ok(entries),
            Err(fault) => Err(fault),
        };
    }
    if *version == 1 {
        return match read_first(alloc, bytes) {
            Ok(entries) => Ok(entries),
            Err(fault) => Err(fault),
        };
    }
    Err(BodyFault::Bad)
}

fn read_second(alloc: Global, bytes: &[u8]) -> Result<Vec<Entry>, BodyFault>
    ensures read { IfOk result (λ read. AreEntries read.items bytes.now) }
    ensures only { (es : List Entry) → AreEntries es bytes.now → IfOk result (λ read. read.items ≡ es) }
    ensures good { (es : List Entry) → AreEntries es bytes.now → IfErr result (λ fault. fault ≡ BodyFault.OutOfMemory) }
{
    match read_entries(alloc, bytes) {
        Ok(entries) => Ok(entries),
        Err(CodecFault::BadBytes(_)) => Err(BodyFault::Bad),
        Err(CodecFault::OutOfMemory) => Err(BodyFault::OutOfMemory),
    }
}

fn read_first(alloc: Global, bytes: &[u8]) -> Result<Vec<Entry>, BodyFault>
    ensures read { IfOk result (λ read. AreOldEntries read.items bytes.now) }
    ensures only { (es : List Entry) → AreOldEntries es bytes.now → IfOk result (λ read. read.items ≡ es) }
    ensures good { (es : List Entry) → AreOldEntries es bytes.now
        → IfErr result (λ fault. fault ≡ BodyFault.OutOfMemory) }
{
    match read_entries_v1(alloc, bytes) {
        Ok(entries) => Ok(entries),
        Err(CodecFault::BadBytes(_)) => Err(BodyFault::Bad),
        Err(CodecFault::OutOfMemory) => Err(BodyFault::OutOfMemory),
    }
}
