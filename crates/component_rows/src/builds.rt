//! Builds of a project's texts, one behind another.
ghost use Rattle.std.specs.Prelude.{◌≡◌, ◌<◌};
ghost use Rattle.build_core.specs.Projects.{IsBuildableList};

use crate::texts::{add_texts, are_buildable};
use build_core::Builder;
use formula_core::{Name, Steps, Text};
use std::alloc::Global;
use std::collections::BTreeMap;
use std::marker::Brand;
use std::sync::ledger::{Blank, Ledger};

// Builds over another build or from nothing, with a counter of steps that nobody reads.
fn built_by<L: Ledger>(
    alloc: Global,
    texts: &BTreeMap<Name, Text>,
    old: Option<&Builder>,
    blank: Blank,
) -> Option<Builder>
    requires small { IsBuildableList texts.now.entries }
    requires name { blank.name ≡ L.name }
    requires parts { blank.parts ≡ L.parts }
    requires some { 0 < blank.parts }
{
    let mut steps = Steps::<L>::open(blank);
    match old {
        Some(old) => old.build(alloc, texts, &mut steps).ok(),
        None => Builder::new(alloc, texts, &mut steps).ok(),
    }
}

fn built(alloc: Global, texts: &BTreeMap<Name, Text>, old: Option<&Builder>) -> Option<Builder> {
    if are_buildable(texts) {
        built_by::<Brand>(alloc, texts, old, Blank::new(1))
    } else {
        None
    }
}

fn build_text(alloc: Global, text: &str, builders: &mut Vec<Builder>) -> Option<()> {
    let mut texts = BTreeMap::new(alloc);
    add_texts(alloc, text, &mut texts)?;
    let builder = built(alloc, &texts, builders.last())?;
    builders.push(builder).ok()
}

/// Builds the texts of a project, and behind it each text that it is edited to. None where one is no project or memory ran
/// out.
pub fn build_each(alloc: Global, text: &str, builders: &mut Vec<Builder>) -> Option<()> {
    for edited in text.split("## then\n") {
        build_text(alloc, edited, builders)?;
    }
    Some(())
}

/// Builds the texts of one build again, over the last build or from nothing.
pub fn build_again(
    alloc: Global,
    from: usize,
    over_last: bool,
    builders: &mut Vec<Builder>,
) -> Option<()> {
    let texts = builders.get(from)?.texts();
    let old = if over_last { builders.last() } else { None };
    let builder = built(alloc, texts, old)?;
    builders.push(builder).ok()
}
