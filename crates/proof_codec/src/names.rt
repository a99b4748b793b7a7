// Names and texts as bytes.
ghost use Rattle.proof_codec.specs.Private.{ReadsBy, WritesAs};
ghost use Rattle.proof_codec.specs.Numbers.{IsText, text_bytes};
ghost use Rattle.proof_codec.specs.Parts.{IsAny};
ghost use Rattle.proof_codec.specs.Names.{IsGoodName};
ghost use Rattle.proof_codec.specs.Entries.{IsComponentName, IsUnprimed, IsPoName, IsShortText};

use crate::coded::Coded;
use crate::reader::{ReadFault, Reader};
use crate::writer::write_text;
use formula_core::{Name, NameFault, OutOfMemory, PoName, Text};
use std::alloc::Global;

/// Reads a name.
#[tactic(auto, using(crate::proofs::ShortNames::name_read, crate::proofs::ShortNames::no_name, crate::proofs::ShortNames::no_text_no_name))]
pub(crate) fn name(alloc: Global, from: &mut Reader<'_>) -> Result<Name, ReadFault>
    ensures { ReadsBy IsGoodName text_bytes from.old from.new result }
{
    let text = from.text(65)?;
    match Name::read(alloc, text) {
        Ok(name) => Ok(name),
        Err(NameFault::BadName) => Err(ReadFault::Bad),
        Err(NameFault::OutOfMemory) => Err(ReadFault::OutOfMemory),
    }
}

impl Coded for Name {
    ghost IsGood = { IsGoodName };

    ghost IsFit = { IsAny };

    ghost bytes_of = { text_bytes };

    fn read(alloc: Global, from: &mut Reader<'_>) -> Result<Name, ReadFault> {
        name(alloc, from)
    }

    fn write(&self, out: &mut Vec<u8>) -> Result<(), OutOfMemory> {
        write_text(out, self.as_text())
    }
}

/// Reads a component's name.
#[tactic(auto, using(crate::proofs::NarrowNames::component_read, crate::proofs::NarrowNames::no_component, crate::proofs::NarrowNames::no_name_there))]
pub(crate) fn component_name(alloc: Global, from: &mut Reader<'_>) -> Result<Name, ReadFault>
    ensures { ReadsBy IsComponentName text_bytes from.old from.new result }
{
    let name = name(alloc, from)?;
    if name.is_primed() {
        return Err(ReadFault::Bad);
    }
    Ok(name)
}

pub(crate) fn write_component_name(name: &Name, out: &mut Vec<u8>) -> Result<(), OutOfMemory>
    requires { IsUnprimed name.now }
    ensures { WritesAs IsComponentName text_bytes name.now out.old.items out.new.items result }
{
    name.write(out)
}

impl Coded for PoName {
    ghost IsGood = { IsPoName };

    ghost IsFit = { IsAny };

    ghost bytes_of = { text_bytes };

    fn read(alloc: Global, from: &mut Reader<'_>) -> Result<PoName, ReadFault> {
        let text = from.text(300)?;
        match PoName::read(alloc, text) {
            Ok(name) => Ok(name),
            Err(NameFault::BadName) => Err(ReadFault::Bad),
            Err(NameFault::OutOfMemory) => Err(ReadFault::OutOfMemory),
        }
    }

    fn write(&self, out: &mut Vec<u8>) -> Result<(), OutOfMemory> {
        write_text(out, self.as_text())
    }
}

impl Coded for Text {
    ghost IsGood = { IsText 65536 };

    ghost IsFit = { IsShortText };

    ghost bytes_of = { text_bytes };

    fn read(alloc: Global, from: &mut Reader<'_>) -> Result<Text, ReadFault> {
        let text = from.text(65_536)?;
        match Text::of(alloc, text) {
            Ok(text) => Ok(text),
            Err(_) => Err(ReadFault::OutOfMemory),
        }
    }

    fn write(&self, out: &mut Vec<u8>) -> Result<(), OutOfMemory> {
        write_text(out, self.as_text())
    }
}
