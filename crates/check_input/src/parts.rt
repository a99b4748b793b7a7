//! The components of an input.
ghost use Rattle.std.specs.Prelude.{◌≡◌, ◌≤◌, ◌++◌, ◌∷◌, [], Ok, Err, Some, None, IfOk, OnOk, IsErrOf, length, true};
ghost use Rattle.formula_core.specs.Names.{is_identifier};
ghost use Rattle.check_input.specs.declared.input.InputFault.{InputFault};
ghost use Rattle.check_input.specs.Inputs.{IsInput, input_parts};
ghost use Rattle.check_input.specs.PrivateCutting.{numbered_of};
ghost use Rattle.check_input.specs.PrivateParts.{AreNames, fault_among, fault_behind, component_of_piece, validated, outcome};
ghost use Rattle.model_core.specs.Borrowed.{has};

use crate::cutting::{Piece, Rest, next_piece};
use crate::headings::is_blank_text;
use crate::input::{InputError, InputFault};
use formula_core::{Name, NameFault, OutOfMemory, Text};
use std::alloc::Global;
use std::collections::BTreeSet;

/// The most components of an input.
const MOST_PARTS: usize = 256;

/// The most bytes of a component's text.
const LONGEST_TEXT: usize = 65_536;

/// The components of an input, each with its name and its text, in the order in which they stand there.
pub fn parts_of(alloc: Global, bytes: &[u8]) -> Result<Vec<(Name, Text)>, InputError>
    requires small { length bytes.now ≤ 67108864 }
    ensures parts { IfOk result (λ parts. IsInput bytes.now (Ok parts.items)) }
    ensures fault { (f : InputFault) → IsErrOf result (InputError.Fault f) → IsInput bytes.now (Err f) }
{
    let Ok(text) = std::str::from_utf8(bytes) else {
        return Err(InputError::Fault(InputFault::NotUtf8));
    };
    parts_of_text(alloc, text)
}

/// The components of a text, of which there are none if it is blank.
fn parts_of_text(alloc: Global, text: &str) -> Result<Vec<(Name, Text)>, InputError>
    requires small { length text.now ≤ 67108864 }
    ensures parts { IfOk result (λ parts. outcome text.now ≡ Ok parts.items) }
    ensures fault { (f : InputFault) → IsErrOf result (InputError.Fault f) → outcome text.now ≡ Err f }
{
    if is_blank_text(text.as_bytes()) {
        return Ok(Vec::new(alloc));
    }
    let parts = cut_parts(alloc, text)?;
    if parts.is_empty() {
        return Err(InputError::Fault(InputFault::NoHeading));
    }
    Ok(parts)
}

/// The components that the heading lines of a text begin.
fn cut_parts(alloc: Global, text: &str) -> Result<Vec<(Name, Text)>, InputError>
    requires small { length text.now ≤ 67108864 }
    ensures parts { IfOk result (λ parts. validated (input_parts text.now) ≡ Ok parts.items) }
    ensures fault { (f : InputFault) → IsErrOf result (InputError.Fault f) → validated (input_parts text.now) ≡ Err f }
{
    let mut names = BTreeSet::new(alloc);
    let mut parts = Vec::new(alloc);
    let mut rest = Rest { line: 1, text };
    while let Some((piece, behind)) = next_piece(rest) {
        add(alloc, &mut names, &mut parts, piece)?;
        rest = behind;
    }
    Ok(parts)
}

/// Adds a component with its name, unless that is a fault.
fn add<'a>(
    alloc: Global,
    names: &mut BTreeSet<&'a str>,
    parts: &mut Vec<(Name, Text)>,
    piece: Piece<'a>,
) -> Result<(), InputError>
    requires seen { AreNames names.old parts.old.items }
    requires name { is_identifier piece.name.now ≡ true }
    ensures seen { OnOk result (AreNames names.new parts.new.items) }
    ensures added { OnOk result (parts.new.items ≡ parts.old.items ++ component_of_piece piece.entry ∷ []) }
    ensures right { OnOk result (fault_behind parts.old.items piece.entry ≡ None) }
    ensures fault { (f : InputFault) → IsErrOf result (InputError.Fault f)
        → fault_behind parts.old.items piece.entry ≡ Some f }
{
    if let Some(fault) = fault_of(alloc, names, parts.len(), piece)? {
        return Err(InputError::Fault(fault));
    }
    names.insert(piece.name)?;
    let component = component_of(alloc, piece)?;
    parts.push(component)?;
    Ok(())
}

/// What is wrong with a component behind others of these names, of which there are so many.
fn fault_of(
    alloc: Global,
    names: &BTreeSet<&str>,
    count: usize,
    piece: Piece<'_>,
) -> Result<Option<InputFault>, OutOfMemory>
    requires name { is_identifier piece.name.now ≡ true }
    ensures { IfOk result (λ fault. fault ≡ fault_among (has names.now) count (numbered_of piece.entry)) }
{
    if names.contains(piece.name) {
        let name = name_of(alloc, piece.name)?;
        Ok(Some(InputFault::Second(piece.line, name)))
    } else if count >= MOST_PARTS {
        Ok(Some(InputFault::TooMany(piece.line)))
    } else if piece.text.len() > LONGEST_TEXT {
        Ok(Some(InputFault::TextTooLong(piece.line)))
    } else {
        Ok(None)
    }
}

fn component_of(alloc: Global, piece: Piece<'_>) -> Result<(Name, Text), OutOfMemory>
    requires name { is_identifier piece.name.now ≡ true }
    ensures { IfOk result (λ component. component ≡ component_of_piece piece.entry) }
{
    let name = name_of(alloc, piece.name)?;
    let text = Text::of(alloc, piece.text)?;
    Ok((name, text))
}

/// The name that an identifier is.
fn name_of(alloc: Global, word: &str) -> Result<Name, OutOfMemory>
    requires { is_identifier word.now ≡ true }
    ensures { IfOk result (λ name. name ≡ word.now) }
{
    match Name::read(alloc, word) {
        Ok(name) => Ok(name),
        Err(NameFault::BadName) => unreachable!(),
        Err(NameFault::OutOfMemory) => Err(OutOfMemory),
    }
}
