//! The first token of a formula or of a pattern.

ghost use Rattle.std.specs.Prelude.{◌≡◌, [], Some, IfOk};
ghost use Rattle.formula_core.specs.declared.raw.Raw.TheVariants as raw;
ghost use Rattle.formula_core.specs.declared.raw.RawOp.TheVariants as rawop;
ghost use Rattle.formula_core.specs.Names.{is_name};
ghost use Rattle.math_grammar.specs.declared.holes.Grade.TheVariants as grade;
ghost use Rattle.math_grammar.specs.Levels.{reaches, call_grade};
ghost use Rattle.formula_parse.specs.Machine.{begin, begin_prefix, begin_binding, begin_shape, call_word, only_if, have, calling, binding_opened};
ghost use Rattle.formula_parse.specs.View.{forms, Steps, IsReadName};

use crate::fault::StepFault;
use crate::frames::{Frame, Phase, held_if, open, open_if, push};
use crate::nodes::node;
use formula_core::{List, Name, NameFault, Op, OutOfMemory, Raw, RawOp};
use math_grammar::{Binding, Bracket, Call, Grade, Hole, Prefix, Symbol};
use std::alloc::Global;

/// The name that the bytes are.
#[tactic(auto, using(crate::proofs::Words::no_name))]
pub fn read_name(alloc: Global, word: &[u8]) -> Result<Option<Name>, OutOfMemory>
    ensures { IfOk result (λ read. IsReadName read word.now) }
{
    let Ok(text) = std::str::from_utf8(word) else {
        return Ok(None);
    };
    match Name::read(alloc, text) {
        Ok(name) => Ok(Some(name)),
        Err(NameFault::BadName) => Ok(None),
        Err(NameFault::OutOfMemory) => Err(OutOfMemory),
    }
}

fn begin_name(alloc: Global, stack: Vec<Frame>, from: u32, word: &[u8]) -> Result<Phase, StepFault>
    ensures { Steps result (only_if (is_name word.now) (have (forms stack.items) grade.Name (raw.Name word.now from))) }
{
    match read_name(alloc, word)? {
        Some(name) => Ok(Phase::Have(stack, Grade::Name, Raw::Name(name, from))),
        None => Err(StepFault::Refused),
    }
}

/// A formula without parts.
fn atom(alloc: Global, op: Op, from: u32) -> Raw
    ensures { result ≡ raw.Node (rawop.Plain op) [] from }
{
    node(RawOp::Plain(op), List::of(Vec::new(alloc)), from)
}

fn begin_call(
    hole: Hole,
    stack: Vec<Frame>,
    call: Call,
    op: RawOp,
    from: u32,
) -> Result<Phase, StepFault>
    ensures { Steps result (only_if (reaches hole (call_grade call)) (calling (forms stack.items) call op from)) }
{
    if hole.reaches(call.grade()) {
        Ok(Phase::Calling(stack, call, op, from))
    } else {
        Err(StepFault::Refused)
    }
}

/// A form with bound names.
fn opened(
    alloc: Global,
    mut stack: Vec<Frame>,
    binding: Binding,
    from: u32,
) -> Result<Phase, StepFault>
    ensures { Steps result (Some (binding_opened binding (forms stack.items) from)) }
{
    match binding {
        Binding::Set | Binding::Reaching(_) => {
            open(
                stack,
                Frame::Listed(binding, true, List::of(Vec::new(alloc)), from),
            )
        }
        Binding::Quantified(_) => {
            open(
                stack,
                Frame::Names(binding, List::of(Vec::new(alloc)), from),
            )
        }
        Binding::Lambda => {
            push(&mut stack, Frame::Pattern(false, None, from))?;
            Ok(Phase::ShapeWant(stack))
        }
    }
}

fn begin_binding(
    alloc: Global,
    hole: Hole,
    stack: Vec<Frame>,
    binding: Binding,
    from: u32,
) -> Result<Phase, StepFault>
    ensures { Steps result (begin_binding hole (forms stack.items) from binding) }
{
    if hole.reaches(binding.grade()) {
        opened(alloc, stack, binding, from)
    } else {
        Err(StepFault::Refused)
    }
}

/// The first token of a formula at such a place.
pub fn begin(
    alloc: Global,
    hole: Hole,
    stack: Vec<Frame>,
    from: u32,
    word: &[u8],
    symbol: Symbol,
) -> Result<Phase, StepFault>
    ensures { Steps result (begin hole (forms stack.items) from word.now symbol) }
{
    match symbol {
        Symbol::Word => begin_name(alloc, stack, from, word),
        Symbol::Number(value) => held_if(
            hole.reaches(Grade::Primary),
            stack,
            Grade::Primary,
            Raw::Int(value, from),
        ),
        Symbol::Truth(op) => held_if(
            hole.reaches(Grade::Literal),
            stack,
            Grade::Literal,
            atom(alloc, op, from),
        ),
        Symbol::Constant(op) => held_if(
            hole.reaches(Grade::Primary),
            stack,
            Grade::Primary,
            atom(alloc, op, from),
        ),
        Symbol::Call(call, op) => begin_call(hole, stack, call, op, from),
        Symbol::Not => begin_prefix(hole, stack, Prefix::Not, from),
        Symbol::Minus => begin_prefix(hole, stack, Prefix::Minus, from),
        Symbol::Binder(binding) => begin_binding(alloc, hole, stack, binding, from),
        Symbol::Open(Bracket::Brace) => begin_binding(alloc, hole, stack, Binding::Set, from),
        Symbol::Open(Bracket::Round) => open_if(
            hole.reaches(Grade::Primary),
            stack,
            Frame::Group(hole.inside()),
        ),
        _ => Err(StepFault::Refused),
    }
}

fn begin_prefix(
    hole: Hole,
    stack: Vec<Frame>,
    prefix: Prefix,
    from: u32,
) -> Result<Phase, StepFault>
    ensures { Steps result (begin_prefix hole (forms stack.items) from prefix) }
{
    open_if(
        hole.reaches(prefix.grade()),
        stack,
        Frame::Prefixed(prefix, from),
    )
}

/// The parenthesis behind a word.
pub fn call(
    alloc: Global,
    stack: Vec<Frame>,
    call: Call,
    op: RawOp,
    place: u32,
    symbol: Symbol,
) -> Result<Phase, StepFault>
    ensures { Steps result (call_word (forms stack.items) call op place symbol) }
{
    match symbol {
        Symbol::Open(Bracket::Round) => {
            open(
                stack,
                Frame::Parts(call, op, List::of(Vec::new(alloc)), place),
            )
        }
        _ => Err(StepFault::Refused),
    }
}

/// The first token of a pattern.
pub fn begin_shape(
    alloc: Global,
    mut stack: Vec<Frame>,
    from: u32,
    word: &[u8],
    symbol: Symbol,
) -> Result<Phase, StepFault>
    ensures { Steps result (begin_shape (forms stack.items) from word.now symbol) }
{
    match symbol {
        Symbol::Word => match read_name(alloc, word)? {
            Some(name) => Ok(Phase::ShapeName(stack, name, from)),
            None => Err(StepFault::Refused),
        },
        Symbol::Open(Bracket::Round) => {
            push(&mut stack, Frame::Pattern(true, None, from))?;
            Ok(Phase::ShapeWant(stack))
        }
        _ => Err(StepFault::Refused),
    }
}
