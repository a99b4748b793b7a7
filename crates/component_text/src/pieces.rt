//! Reading the texts of components.

ghost use Rattle.std.specs.Prelude.{◌≡◌, ◌^◌, ◌<◌, [], None, IfOk, IfErr, length, Option};
ghost use Rattle.std.specs.List.{AllByRecursion};
ghost use Rattle.component_text.specs.Marks.{marks_of};
ghost use Rattle.component_text.specs.Spelled.{misnamed};
ghost use Rattle.component_text.specs.PrivatePieces.{HasText, TellsFaultAt, fault_kind, fault_place, TellsUnexpected, TellsTooLarge, ReadsPieces};
ghost use Rattle.component_text.specs.Machines.{IsComponent};

use crate::cursor::Cursor;
use crate::machine::component;
use crate::stop::Stop;
use component_tokens::{CutFault, Pieces};
use formula_core::{Name, OutOfMemory};
use model_core::{Fault, FaultKind, RawComponent, fault_at};
use std::alloc::Global;

/// Why a text isn't read.
#[derive(Drop)]
pub enum ReadFault {
    /// A fault of one of the kinds 1 to 6.
    Fault(Fault),
    OutOfMemory,
}

impl From<OutOfMemory> for ReadFault {
    ghost use Rattle.std.specs.Prelude.{◌≡◌};
    ghost use Rattle.component_text.specs.declared.pieces.ReadFault.TheVariants as fault;

    ghost from_gives = { λ _ e. e ≡ fault.OutOfMemory };

    fn from(_: OutOfMemory) -> ReadFault {
        ReadFault::OutOfMemory
    }
}

/// The fault, unless memory runs out.
fn fault(alloc: Global, name: &Name, kind: FaultKind, place: u32, words: &str) -> ReadFault
    ensures { TellsFaultAt result name.now kind place words.now }
{
    match fault_at(alloc, name, kind, place, words) {
        Ok(fault) => ReadFault::Fault(fault),
        Err(OutOfMemory) => ReadFault::OutOfMemory,
    }
}

fn cut_fault(alloc: Global, name: &Name, wrong: CutFault) -> ReadFault
    ensures { TellsFaultAt result name.now (fault_kind wrong) (fault_place wrong) [] }
{
    match wrong {
        CutFault::BadSign(place) => fault(alloc, name, FaultKind::BadSign, place, ""),
        CutFault::NumberTooWide(place) => fault(alloc, name, FaultKind::NumberTooWide, place, ""),
        CutFault::CommentNotClosed(place) => fault(
            alloc,
            name,
            FaultKind::CommentNotClosed,
            place,
            "",
        ),
    }
}

/// The place of the heading's name, where it isn't the wanted one.
fn misnamed(
    alloc: Global,
    cursor: &mut Cursor<'_, '_>,
    name: &Name,
) -> Result<Option<u32>, OutOfMemory>
    ensures { IfOk result (λ place. place ≡ misnamed name.now cursor.old) }
{
    if !cursor.take_word("context") && !cursor.take_word("machine") {
        return Ok(None);
    }
    let Some(found) = cursor.name(alloc)? else {
        return Ok(None);
    };
    if found.name.same(name) {
        Ok(None)
    } else {
        Ok(Some(found.place))
    }
}

/// The fault at a token that nothing goes on with, or behind the last one.
fn unexpected(
    alloc: Global,
    name: &Name,
    text: &str,
    cursor: &Cursor<'_, '_>,
    wrong: Option<CutFault>,
) -> ReadFault
    requires fits { length text.now < 2 ^ 32 }
    requires texts { AllByRecursion HasText cursor.now }
    ensures { TellsUnexpected result name.now text.now cursor.now wrong }
{
    if let Some((place, bytes)) = cursor.first() {
        match std::str::from_utf8(bytes) {
            Ok(words) => fault(alloc, name, FaultKind::Unexpected, place, words),
            Err(_) => unreachable!(),
        }
    } else if let Some(wrong) = wrong {
        cut_fault(alloc, name, wrong)
    } else {
        fault(alloc, name, FaultKind::Unexpected, text.len() as u32, "")
    }
}

/// The fault at a token that passes a limit.
fn too_large(alloc: Global, name: &Name, cursor: &Cursor<'_, '_>) -> ReadFault
    requires { 0 < length cursor.now }
    ensures { TellsTooLarge result name.now cursor.now }
{
    match cursor.first() {
        Some((place, _)) => fault(alloc, name, FaultKind::FormulaTooLarge, place, ""),
        None => unreachable!(),
    }
}

/// Reads the tokens of a text.
pub fn read_pieces(
    alloc: Global,
    name: &Name,
    text: &str,
    pieces: &Pieces,
) -> Result<RawComponent, ReadFault>
    requires fits { length text.now < 2 ^ 32 }
    requires texts { AllByRecursion HasText (marks_of text.now pieces.now.tokens.items) }
    ensures { ReadsPieces IsComponent name.now text.now
        (marks_of text.now pieces.now.tokens.items) pieces.now.fault result }
{
    if let Some(place) = misnamed(alloc, &mut Cursor::new(text, &pieces.tokens), name)? {
        return Err(fault(alloc, name, FaultKind::WrongName, place, ""));
    }
    let mut cursor = Cursor::new(text, &pieces.tokens);
    match component(alloc, &mut cursor) {
        Ok(component) => match pieces.fault {
            None => Ok(component),
            Some(wrong) => Err(cut_fault(alloc, name, wrong)),
        },
        Err(Stop::Unexpected) => Err(unexpected(alloc, name, text, &cursor, pieces.fault)),
        Err(Stop::TooLarge) => Err(too_large(alloc, name, &cursor)),
        Err(Stop::OutOfMemory) => Err(ReadFault::OutOfMemory),
    }
}
