//! The texts of a project, by the names of its components.
ghost use Rattle.std.specs.Prelude.{IsTrue};
ghost use Rattle.build_core.specs.Projects.{IsBuildableList};

use check_input::parts_of;
use formula_core::{Name, Text};
use std::alloc::Global;
use std::collections::BTreeMap;

/// The most bytes of a project here.
const MOST: usize = 1_048_576;

/// The most bytes of a component's text.
const LONGEST: usize = 65_536;

/// Adds the texts that a project is cut into. None where it can't be cut or memory ran out.
pub fn add_texts(alloc: Global, text: &str, texts: &mut BTreeMap<Name, Text>) -> Option<()> {
    if text.len() > MOST {
        return None;
    }
    for (name, text) in parts_of(alloc, text.as_bytes()).ok()? {
        texts.insert(name, text).ok()?;
    }
    Some(())
}

/// Whether a builder takes the texts.
pub fn are_buildable(texts: &BTreeMap<Name, Text>) -> bool
    ensures { IsTrue result → IsBuildableList texts.now.entries }
{
    for (_, text) in texts {
        if text.as_text().len() > LONGEST {
            return false;
        }
    }
    true
}
