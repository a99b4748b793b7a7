ghost use Rattle.std.specs.Prelude.{◌≡◌, ◌↔◌, ◌++◌, ◌∷◌, IsTrue, IfOk, OnOk, IsErrOf, false, bytes_eq, string_bytes};
ghost use Rattle.std.specs.List.{list_all};
ghost use Rattle.formula_core.specs.Texts.{is_label, is_in_label, is_po_name, is_part, is_kind, has_blank, begins_with_blank, is_ascii_blank, begins_with};

use crate::memory::OutOfMemory;
use crate::name::{Name, NameFault};
use std::alloc::Global;
use std::marker::Model;
use std::sync::Arc;

/// A label without its `@`.
#[derive(Debug, Drop)]
pub struct Label {
    text: String,
}

impl Model for Label {
    ghost use Rattle.std.specs.Prelude.{List, ℕ, string_bytes, IsTrue};

    ghost Value = { List ℕ };

    ghost use Rattle.formula_core.specs.Texts.{is_label};

    ghost view = { λ a. string_bytes a.text };

    ghost invariant = { λ a. IsTrue (is_label (string_bytes a.text)) };
}

impl Label {
    pub fn as_text(&self) -> &str
        ensures text { result.now ≡ self.now }
        ensures label { IsTrue (is_label self.now) }
    {
        self.text.as_str()
    }

    pub fn same(&self, other: &Label) -> bool
        ensures exact { IsTrue result ↔ (self.now ≡ other.now) }
        ensures test { result ≡ bytes_eq self.now other.now }
    {
        self.text.as_str() == other.text.as_str()
    }

    pub fn copy(&self, alloc: Global) -> Result<Label, OutOfMemory>
        ensures { IfOk result (λ copy. copy ≡ self.now) }
    {
        let text = String::from_str(alloc, self.text.as_str())?;
        Ok(Label { text })
    }

    /// Reads a label.
    pub fn read(alloc: Global, text: &str) -> Result<Label, NameFault>
        ensures read { IfOk result (λ read. read ≡ text.now) }
        ensures bad { IsErrOf result NameFault.BadName ↔ (is_label text.now ≡ false) }
    {
        if !is_label(text) {
            return Err(NameFault::BadName);
        }
        let text = String::from_str(alloc, text)?;
        Ok(Label { text })
    }
}

/// An obligation's name.
#[derive(Debug, Drop)]
pub struct PoName {
    text: String,
}

impl Model for PoName {
    ghost use Rattle.std.specs.Prelude.{List, ℕ, string_bytes, IsTrue};

    ghost Value = { List ℕ };

    ghost use Rattle.formula_core.specs.Texts.{is_po_name};

    ghost view = { λ a. string_bytes a.text };

    ghost invariant = { λ a. IsTrue (is_po_name (string_bytes a.text)) };
}

impl PoName {
    pub fn as_text(&self) -> &str
        ensures text { result.now ≡ self.now }
        ensures name { IsTrue (is_po_name self.now) }
    {
        self.text.as_str()
    }

    pub fn same(&self, other: &PoName) -> bool
        ensures exact { IsTrue result ↔ (self.now ≡ other.now) }
        ensures test { result ≡ bytes_eq self.now other.now }
    {
        self.text.as_str() == other.text.as_str()
    }

    pub fn copy(&self, alloc: Global) -> Result<PoName, OutOfMemory>
        ensures { IfOk result (λ copy. copy ≡ self.now) }
    {
        let text = String::from_str(alloc, self.text.as_str())?;
        Ok(PoName { text })
    }

    /// Reads an obligation's name.
    pub fn read(alloc: Global, text: &str) -> Result<PoName, NameFault>
        ensures read { IfOk result (λ read. read ≡ text.now) }
        ensures bad { IsErrOf result NameFault.BadName ↔ (is_po_name text.now ≡ false) }
    {
        if !is_po_name(text) {
            return Err(NameFault::BadName);
        }
        let text = String::from_str(alloc, text)?;
        Ok(PoName { text })
    }

    /// The name of an obligation of a whole component: `component/KIND`.
    pub fn of_component(alloc: Global, component: &Name, kind: &str) -> Result<PoName, OutOfMemory>
        requires { IsTrue (is_kind kind.now) }
        ensures { IfOk result (λ name. name ≡ component.now ++ 47 ∷ kind.now) }
    {
        let mut text = String::from_str(alloc, component.as_text())?;
        add_part(&mut text, kind)?;
        Ok(PoName { text })
    }

    /// The name of an obligation that stands at a label of a component: `component/label/KIND`.
    pub fn of_labelled(
        alloc: Global,
        component: &Name,
        label: &Label,
        kind: &str,
    ) -> Result<PoName, OutOfMemory>
        requires { IsTrue (is_kind kind.now) }
        ensures { IfOk result (λ name. name ≡ component.now ++ 47 ∷ label.now ++ 47 ∷ kind.now) }
    {
        let mut text = String::from_str(alloc, component.as_text())?;
        add_part(&mut text, label.as_text())?;
        add_part(&mut text, kind)?;
        Ok(PoName { text })
    }

    /// The name of an obligation of a whole event: `component/event/KIND`.
    pub fn of_event(
        alloc: Global,
        component: &Name,
        event: &Name,
        kind: &str,
    ) -> Result<PoName, OutOfMemory>
        requires { IsTrue (is_kind kind.now) }
        ensures { IfOk result (λ name. name ≡ component.now ++ 47 ∷ event.now ++ 47 ∷ kind.now) }
    {
        let mut text = String::from_str(alloc, component.as_text())?;
        add_part(&mut text, event.as_text())?;
        add_part(&mut text, kind)?;
        Ok(PoName { text })
    }

    /// The name of an obligation at a part of an event, which has a label or is an identifier: `component/event/part/KIND`.
    pub fn of_event_part(
        alloc: Global,
        component: &Name,
        event: &Name,
        part: &str,
        kind: &str,
    ) -> Result<PoName, OutOfMemory>
        requires part { IsTrue (is_part part.now) }
        requires kind { IsTrue (is_kind kind.now) }
        ensures { IfOk result (λ name. name ≡ component.now ++ 47 ∷ event.now ++ 47 ∷ part.now ++ 47 ∷ kind.now) }
    {
        let mut text = String::from_str(alloc, component.as_text())?;
        add_part(&mut text, event.as_text())?;
        add_part(&mut text, part)?;
        add_part(&mut text, kind)?;
        Ok(PoName { text })
    }
}

/// Adds a part to the text of a name, behind a slash.
fn add_part(text: &mut String, part: &str) -> Result<(), OutOfMemory>
    ensures { OnOk result (string_bytes text.new ≡ string_bytes text.old ++ 47 ∷ part.now) }
{
    text.push_str("/")?;
    text.push_str(part)?;
    Ok(())
}

/// A text. Its copies share it, so that a copy takes little time and no memory.
#[derive(Debug, Drop)]
pub struct Text {
    text: Arc<String>,
}

impl Model for Text {
    ghost use Rattle.std.specs.Prelude.{List, ℕ, string_bytes};
    ghost use Rattle.std.specs.Arc.{arc_value};

    ghost Value = { List ℕ };

    ghost view = { λ a. string_bytes (arc_value a.text) };
}

impl Text {
    pub fn as_text(&self) -> &str
        ensures { result.now ≡ self.now }
    {
        self.text.as_str()
    }

    pub fn same(&self, other: &Text) -> bool
        ensures exact { IsTrue result ↔ (self.now ≡ other.now) }
        ensures test { result ≡ bytes_eq self.now other.now }
    {
        self.text.as_str() == other.text.as_str()
    }

    pub fn copy(&self) -> Result<Text, OutOfMemory>
        ensures { IfOk result (λ copy. copy ≡ self.now) }
    {
        let text = Arc::try_clone(&self.text)?;
        Ok(Text { text })
    }

    /// A copy of a text.
    pub fn of(alloc: Global, text: &str) -> Result<Text, OutOfMemory>
        ensures { IfOk result (λ copy. copy ≡ text.now) }
    {
        let text = String::from_str(alloc, text)?;
        let text = Arc::new(alloc, text)?;
        Ok(Text { text })
    }
}

fn is_label(text: &str) -> bool
    ensures { result ≡ is_label text.now }
{
    1 <= text.len() && text.len() <= 64 && all_in_label(text.as_bytes())
}

fn all_in_label(text: &[u8]) -> bool
    ensures { result ≡ list_all is_in_label text.now }
{
    text.iter().all(|c| is_in_label(*c))
}

fn is_in_label(c: u8) -> bool
    ensures { result ≡ is_in_label c }
{
    c.is_ascii_alphanumeric() || c == b'_' || c == b'-' || c == b'.' || c == b'\''
}

fn is_po_name(text: &str) -> bool
    ensures { result ≡ is_po_name text.now }
{
    1 <= text.len() && text.len() <= 300 && !has_blank(text.as_bytes())
}

fn has_blank(text: &[u8]) -> bool
    ensures { result ≡ has_blank text.now }
{
    for i in 0..text.len() {
        if begins_with_blank(&text[i..]) {
            return true;
        }
    }
    false
}

fn begins_with_blank(text: &[u8]) -> bool
    ensures { result ≡ begins_with_blank text.now }
{
    match text.split_first() {
        Some((first, rest)) => { is_ascii_blank(*first) || *first == 194 && begins_with(160, rest) }
        None => false,
    }
}

fn is_ascii_blank(c: u8) -> bool
    ensures { result ≡ is_ascii_blank c }
{
    c == b' ' || c == b'\t' || c == b'\r' || c == b'\n'
}

fn begins_with(byte: u8, text: &[u8]) -> bool
    ensures { result ≡ begins_with byte text.now }
{
    match text.first() {
        Some(first) => *first == byte,
        None => false,
    }
}
