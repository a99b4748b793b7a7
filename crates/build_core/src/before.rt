//! What a build takes over from the build before.

ghost use Rattle.std.specs.Prelude.{◌≡◌, ◌&&◌};
ghost use Rattle.std.specs.List.{list_all};
ghost use Rattle.std.specs.Option.{option_to_list};
ghost use Rattle.static_check.specs.Settling.{own_name};
ghost use Rattle.build_core.specs.Private.{all_kept, are_same, found, is_kept};

use crate::components::Components;
use crate::numbered::Numbered;
use crate::outcomes::Outcomes;
use crate::owns::Own;
use formula_core::{Name, PoName, Ref, Text};
use model_core::RawComponent;
use std::collections::BTreeMap;
use std::sync::Arc;

/// The texts that were built before, and what they gave.
#[derive(Clone, Copy)]
pub struct Before<'a> {
    pub texts: &'a BTreeMap<Name, Text>,
    pub components: &'a Components,
    /// The place of each component, by its name.
    pub index: &'a BTreeMap<Name, usize>,
    pub outcomes: &'a Outcomes,
    pub owns: &'a BTreeMap<Name, Own>,
    pub table: &'a [Arc<Numbered>],
    pub places: &'a Arc<BTreeMap<PoName, usize>>,
}

/// Whether the outcome of a name is known to be that of the build before.
pub fn is_kept(kept: &BTreeMap<Name, bool>, name: &Name) -> bool
    ensures { result ≡ is_kept kept.now.entries name.now }
{
    match kept.get(name) {
        Some(kept) => *kept,
        None => false,
    }
}

fn are_kept(kept: &BTreeMap<Name, bool>, references: &[Ref]) -> bool
    ensures { result ≡ list_all (λ r. is_kept kept.now.entries r.name) references.now }
{
    references
        .iter()
        .all(|reference| is_kept(kept, &reference.name))
}

/// Whether each reference of a component is kept.
fn all_kept(kept: &BTreeMap<Name, bool>, raw: &RawComponent) -> bool
    ensures { result ≡ all_kept kept.now.entries raw.now }
{
    match raw {
        RawComponent::Context { extends, .. } => are_kept(kept, extends.items()),
        RawComponent::Machine { refines, sees, .. } => {
            is_refined_kept(kept, refines) && are_kept(kept, sees.items())
        }
    }
}

/// Whether the abstraction of a machine is kept, if it refines one.
pub fn is_refined_kept(kept: &BTreeMap<Name, bool>, refines: &Option<Ref>) -> bool
    ensures { result ≡ list_all (λ r. is_kept kept.now.entries r.name) (option_to_list refines.now) }
{
    match refines {
        None => true,
        Some(refined) => is_kept(kept, &refined.name),
    }
}

/// Whether a component has its text of before.
pub fn has_same_text(
    before: &BTreeMap<Name, Text>,
    texts: &BTreeMap<Name, Text>,
    name: &Name,
) -> bool
    ensures { result ≡ are_same (found before.now.entries name.now) (found texts.now.entries name.now) }
{
    match before.get(name) {
        None => false,
        Some(one) => match texts.get(name) {
            None => false,
            Some(other) => one.same(other),
        },
    }
}

/// Whether a component and what it references are as before.
pub fn stands(
    before: &BTreeMap<Name, Text>,
    texts: &BTreeMap<Name, Text>,
    kept: &BTreeMap<Name, bool>,
    raw: &RawComponent,
) -> bool
    ensures { result ≡
        (are_same (found before.now.entries (own_name raw.now)) (found texts.now.entries (own_name raw.now))
        && all_kept kept.now.entries raw.now) }
{
    has_same_text(before, texts, &raw.heading().name) && all_kept(kept, raw)
}
