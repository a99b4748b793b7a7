//! Copies of texts.

ghost use Rattle.std.specs.Prelude.{◌≡◌, IfOk};

use formula_core::{Name, OutOfMemory, Text};
use std::alloc::Global;
use std::collections::BTreeMap;

/// A copy of the texts.
pub fn copy_texts(
    alloc: Global,
    texts: &BTreeMap<Name, Text>,
) -> Result<BTreeMap<Name, Text>, OutOfMemory>
    ensures { IfOk result (λ copy. copy.entries ≡ texts.now.entries) }
{
    let mut copy = BTreeMap::new(alloc);
    for (name, text) in texts {
        copy.insert(name.copy(alloc)?, text.copy()?)?;
    }
    Ok(copy)
}
