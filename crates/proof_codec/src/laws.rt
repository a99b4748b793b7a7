//! Laws of entries, one on each call. The calls do nothing.
ghost use Rattle.proof_entries.specs.declared.entry.Entry.{Entry};
ghost use Rattle.proof_codec.specs.Entries.{IsEntry, IsWritable, IsOldEntry, IsOldWritable};

use proof_entries::Entry;

/// What has bytes may be written.
#[tactic(auto, using(crate::proofs::Smaller::writable, crate::proofs::Smaller::old_writable))]
pub fn entries_are_writable(entry: &Entry)
    ensures second { IsEntry entry.now → IsWritable entry.now }
    ensures first { IsOldEntry entry.now → IsOldWritable entry.now }
{
    let _ = entry;
}
