//! Entries that may be written.
ghost use Rattle.std.specs.Prelude.{◌↔◌, IsTrue};
ghost use Rattle.proof_codec.specs.Entries.{IsShortText, IsUnprimed, IsWritable};

use crate::formula::is_short;
use crate::tree::is_fit_tree;
use formula_core::{Name, Text};
use proof_entries::Entry;

/// The most bytes of a text.
const MOST_BYTES: usize = 65_536;

/// Whether the entry may be written.
#[tactic(auto, using(crate::proofs::Nodes::purge_decides))]
pub fn is_writable(entry: &Entry) -> bool
    ensures writable { IsTrue result ↔ IsWritable entry.now }
{
    match entry {
        Entry::Put(name, text) => is_unprimed(name) && is_short_text(text),
        Entry::Drop(name) => is_unprimed(name),
        Entry::Build => true,
        Entry::SetProof(_, proof) => is_fit_tree(&proof.tree),
        Entry::Purge(names) => is_short(names.items().len()),
    }
}

fn is_unprimed(name: &Name) -> bool
    ensures { IsTrue result ↔ IsUnprimed name.now }
{
    !name.is_primed()
}

fn is_short_text(text: &Text) -> bool
    ensures { IsTrue result ↔ IsShortText text.now }
{
    text.as_text().len() <= MOST_BYTES
}
