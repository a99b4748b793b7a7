//! The parser: it reads token by token, and keeps the unfinished forms on a stack.

ghost use Rattle.std.specs.Prelude.{◌≡◌, ◌∷◌, Some, None, cond};
ghost use Rattle.math_grammar.specs.Levels.{is_typing};
ghost use Rattle.formula_parse.specs.Machine.{want, shape_step, extend, attach, step, complete, ended};
ghost use Rattle.formula_parse.specs.declared.frames.Frame.TheVariants as frame;
ghost use Rattle.formula_parse.specs.View.{forms, state_of, Steps, Completes};
ghost use Rattle.formula_parse.specs.PrivateView.{Fills};
ghost use Rattle.math_grammar.specs.Grammar.{item, lone};

use crate::begin::{begin, begin_shape, call};
use crate::bounds::lone;
use crate::close::{close, shape_step};
use crate::fault::StepFault;
use crate::frames::{Frame, Phase, hole_of, open, place, pop, push};
use crate::nodes::{alone, between, bind, node, place_of, with};
use formula_core::{Name, Op, Raw, RawOp};
use math_grammar::{Grade, Hole, Symbol};
use std::alloc::Global;

/// What becomes of a form with its last part: a formula, or a form that needs a sign.
#[derive(Drop)]
pub enum Filled {
    Whole(Grade, Raw),
    Open(Frame, Raw),
}

/// A token that goes on with the formula before it.
fn extend(
    alloc: Global,
    stack: Vec<Frame>,
    grade: Grade,
    formula: Raw,
    symbol: Symbol,
) -> Result<Phase, StepFault>
    ensures { Steps result (extend (forms stack.items) grade formula symbol) }
{
    match symbol {
        Symbol::Converse => {
            let place = place_of(&formula);
            let parts = alone(alloc, formula)?;
            let converse = node(RawOp::Plain(Op::Converse), parts, place);
            Ok(Phase::Have(stack, Grade::Suffixed, converse))
        }
        Symbol::Open(_) => match symbol.suffix() {
            Some((bracket, op)) => open(stack, Frame::Suffixed(bracket, op, formula)),
            None => Err(StepFault::Refused),
        },
        _ => match symbol.infix() {
            Some((level, op)) => open(
                stack,
                Frame::Between(op, level, level.grade(grade), formula),
            ),
            None => Err(StepFault::Refused),
        },
    }
}

/// Gives a form its last part.
fn fill(alloc: Global, frame: Frame, formula: Raw) -> Result<Filled, StepFault>
    ensures { Fills result frame formula }
{
    match frame {
        Frame::Between(op, _, grade, left) => {
            Ok(Filled::Whole(grade, between(alloc, op, left, formula)?))
        }
        Frame::Prefixed(prefix, place) => {
            let parts = alone(alloc, formula)?;
            Ok(Filled::Whole(prefix.grade(), node(prefix.operator(), parts, place)))
        }
        Frame::Last(binding, hole, binder, names, parts, place) => {
            if binding.is_closed() {
                let frame = Frame::Last(binding, hole, binder, names, parts, place);
                Ok(Filled::Open(frame, formula))
            } else {
                let parts = with(parts, formula)?;
                Ok(Filled::Whole(binding.grade(), bind(binder, names, parts, place)))
            }
        }
        other => Ok(Filled::Open(other, formula)),
    }
}

/// The next token, with a formula of the grade before it: it goes on with it, or ends the forms that it
/// doesn't belong to.
fn attach(
    alloc: Global,
    goal: Hole,
    mut stack: Vec<Frame>,
    grade: Grade,
    formula: Raw,
    symbol: Symbol,
) -> Result<Phase, StepFault>
    ensures { Steps result (attach None goal (forms stack.items) grade formula symbol) }
{
    match pop(&mut stack) {
        None => {
            if symbol.goes_on(goal, grade) {
                extend(alloc, stack, grade, formula, symbol)
            } else {
                Err(StepFault::Refused)
            }
        }
        Some(frame) => {
            let hole = hole_of(&frame);
            if symbol.goes_on(hole, grade) {
                push(&mut stack, frame)?;
                extend(alloc, stack, grade, formula, symbol)
            } else if hole.fits(grade) {
                match fill(alloc, frame, formula)? {
                    Filled::Whole(grade, formula) => {
                        attach(alloc, goal, stack, grade, formula, symbol)
                    }
                    Filled::Open(frame, formula) => {
                        close(alloc, stack, frame, grade, formula, symbol)
                    }
                }
            } else {
                Err(StepFault::Refused)
            }
        }
    }
}

/// The token behind a name in a pattern.
fn shape_named(
    alloc: Global,
    stack: Vec<Frame>,
    name: Name,
    place: u32,
    symbol: Symbol,
) -> Result<Phase, StepFault>
    ensures { Steps result (cond (is_typing symbol) (Some (want (frame.PatternType name place ∷ forms stack.items)))
        (shape_step (forms stack.items) (lone name place None) symbol)) }
{
    if symbol.is_typing() {
        open(stack, Frame::PatternType(name, place))
    } else {
        let shape = lone(alloc, name, place, None)?;
        shape_step(alloc, stack, shape, symbol)
    }
}

/// The next token, by its class, its first byte and its bytes.
pub fn step(
    alloc: Global,
    goal: Hole,
    phase: Phase,
    symbol: Symbol,
    from: u32,
    word: &[u8],
) -> Result<Phase, StepFault>
    ensures { Steps result (step None goal (state_of phase) (item symbol from word.now)) }
{
    match phase {
        Phase::Want(stack) => {
            let hole = place(goal, &stack);
            begin(alloc, hole, stack, from, word, symbol)
        }
        Phase::Have(stack, grade, formula) => { attach(alloc, goal, stack, grade, formula, symbol) }
        Phase::Calling(stack, word, op, place) => { call(alloc, stack, word, op, place, symbol) }
        Phase::ShapeWant(stack) => begin_shape(alloc, stack, from, word, symbol),
        Phase::ShapeName(stack, name, place) => shape_named(alloc, stack, name, place, symbol),
        Phase::ShapeHave(stack, shape) => shape_step(alloc, stack, shape, symbol),
    }
}

/// The formula, if it completes each form on the stack.
fn complete(
    alloc: Global,
    goal: Hole,
    mut stack: Vec<Frame>,
    grade: Grade,
    formula: Raw,
) -> Result<Raw, StepFault>
    ensures { Completes result (complete goal (forms stack.items) grade formula) }
{
    match pop(&mut stack) {
        None => {
            if goal.fits(grade) {
                Ok(formula)
            } else {
                Err(StepFault::Refused)
            }
        }
        Some(frame) => {
            if hole_of(&frame).fits(grade) {
                match fill(alloc, frame, formula)? {
                    Filled::Whole(grade, formula) => complete(alloc, goal, stack, grade, formula),
                    Filled::Open(_, _) => Err(StepFault::Refused),
                }
            } else {
                Err(StepFault::Refused)
            }
        }
    }
}

/// The formula at the end of the tokens.
pub fn end(alloc: Global, goal: Hole, phase: Phase) -> Result<Raw, StepFault>
    ensures { Completes result (ended goal (state_of phase)) }
{
    match phase {
        Phase::Have(stack, grade, formula) => complete(alloc, goal, stack, grade, formula),
        _ => Err(StepFault::Refused),
    }
}
