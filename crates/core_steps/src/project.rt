// The components of a project and their texts.
ghost use Rattle.std.specs.Prelude.{◌≡◌, ℕ, IfOk, OnOk, OnErr};
ghost use Rattle.std.specs.FinMap as map;

use crate::texts::Texts;
use formula_core::{Name, OutOfMemory, Text};
use std::alloc::Global;
use std::collections::BTreeMap;
use std::marker::Model;

/// The texts of a project's components, in byte order of their names.
#[derive(Drop)]
pub struct Project {
    texts: BTreeMap<Name, Text>,
}

impl Model for Project {
    ghost use Rattle.std.specs.Prelude.{ℕ, List};
    ghost use Rattle.std.specs.FinMap as map;
    ghost use Rattle.std.specs.Coded.{coded_ℕ, coded_list};
    ghost use Rattle.core_steps.specs.Durable.{text_cmp};

    ghost Value = { map.FinMap text_cmp (List ℕ) };

    ghost coded = { map.code (coded_list coded_ℕ) (coded_list coded_ℕ) };

    ghost view = { λ p. map.from_entries p.texts.entries };
}

impl Project {
    /// A project without components.
    pub fn new(alloc: Global) -> Project
        ensures { result ≡ map.empty }
    {
        Project {
            texts: BTreeMap::new(alloc),
        }
    }

    /// How many components it has.
    pub fn len(&self) -> usize
        ensures { result ≡ map.len self.now }
    {
        self.texts.len()
    }

    /// Sets the text of a component. The project is unchanged after a refusal.
    pub fn put(&mut self, name: Name, text: Text) -> Result<(), OutOfMemory>
        ensures ok { OnOk result (self.new ≡ map.insert self.old name text) }
        ensures err { OnErr result (self.new ≡ self.old) }
    {
        match self.texts.insert(name, text) {
            Ok(_) => Ok(()),
            Err(_) => Err(OutOfMemory),
        }
    }

    /// The components with their texts.
    pub fn texts(&self) -> &BTreeMap<Name, Text>
        ensures { map.entries self.now ≡ result.now.entries }
    {
        let _components = self.texts.len();
        &self.texts
    }

    /// A copy of the texts.
    pub fn of(alloc: Global, texts: &Texts) -> Result<Project, OutOfMemory>
        ensures { IfOk result (λ copy. copy ≡ texts.now) }
    {
        let mut copy = Project::new(alloc);
        for (name, text) in texts.entries() {
            copy.put(name.copy(alloc)?, text.copy()?)?;
        }
        Ok(copy)
    }
}
