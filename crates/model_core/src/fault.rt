//! Faults of components.

ghost use Rattle.std.specs.Prelude.{◌≡◌, ◌++◌, IfOk};
ghost use Rattle.model_core.specs.Faults.{number, comes_before, earlier, fault_at};

use formula_core::{Name, OutOfMemory, Text};
use std::alloc::Global;

/// What is wrong with a component, in the order of the handbook's table of faults.
#[derive(Clone, Copy, Debug, PartialEq, Eq)]
pub enum FaultKind {
    BadSign,
    NumberTooWide,
    Unexpected,
    FormulaTooLarge,
    CommentNotClosed,
    WrongName,
    NoComponent,
    Cyclic,
    Blocked,
    DeclaredTwice,
    LabelTwice,
    WrongKind,
    Unknown,
    TypesClash,
    NoSingleType,
    NoType,
    NoVariable,
    AssignedTwice,
    BadInitialisation,
    NoAbstractEvent,
    MergedDiffer,
    BadWitness,
    Lost,
    BadConvergence,
}

impl FaultKind {
    /// The number that a printed fault shows, from 1 to 24.
    pub fn number(self) -> u8
        ensures { result ≡ number self }
    {
        match self {
            FaultKind::BadSign => 1,
            FaultKind::NumberTooWide => 2,
            FaultKind::Unexpected => 3,
            FaultKind::FormulaTooLarge => 4,
            FaultKind::CommentNotClosed => 5,
            FaultKind::WrongName => 6,
            FaultKind::NoComponent => 7,
            FaultKind::Cyclic => 8,
            FaultKind::Blocked => 9,
            FaultKind::DeclaredTwice => 10,
            FaultKind::LabelTwice => 11,
            FaultKind::WrongKind => 12,
            FaultKind::Unknown => 13,
            FaultKind::TypesClash => 14,
            FaultKind::NoSingleType => 15,
            FaultKind::NoType => 16,
            FaultKind::NoVariable => 17,
            FaultKind::AssignedTwice => 18,
            FaultKind::BadInitialisation => 19,
            FaultKind::NoAbstractEvent => 20,
            FaultKind::MergedDiffer => 21,
            FaultKind::BadWitness => 22,
            FaultKind::Lost => 23,
            FaultKind::BadConvergence => 24,
        }
    }
}

/// A fault of a component: its byte place in the component's text, and the name, label or token that its message shows,
/// empty where it shows none.
#[derive(Debug, Drop)]
pub struct Fault {
    pub component: Name,
    pub kind: FaultKind,
    pub place: u32,
    pub words: Text,
}

fn comes_before(first: &Fault, second: &Fault) -> bool
    ensures { result ≡ comes_before first.now second.now }
{
    first.place < second.place
        || first.place == second.place && first.kind.number() < second.kind.number()
}

/// The earlier of two faults of one phase, if there is one. Of two that tie it is the first.
pub fn earlier(first: Option<Fault>, second: Option<Fault>) -> Option<Fault>
    ensures { result ≡ earlier first second }
{
    match first {
        None => second,
        Some(first) => match second {
            None => Some(first),
            Some(second) => {
                if comes_before(&second, &first) {
                    Some(second)
                } else {
                    Some(first)
                }
            }
        },
    }
}

/// A fault of a component at a place.
pub fn fault_at(
    alloc: Global,
    component: &Name,
    kind: FaultKind,
    place: u32,
    words: &str,
) -> Result<Fault, OutOfMemory>
    ensures { IfOk result (λ fault. fault ≡ fault_at component.now kind place words.now) }
{
    Ok(Fault {
        component: component.copy(alloc)?,
        kind,
        place,
        words: Text::of(alloc, words)?,
    })
}
