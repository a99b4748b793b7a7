//! The forms that aren't complete.

ghost use Rattle.std.specs.Prelude.{◌≡◌, ◌∷◌, [], Some, OnOk, IfSome, IfNone};
ghost use Rattle.std.specs.List.{list_all};
ghost use Rattle.formula_parse.specs.Machine.{hole_of, hole_wanted, want, have, only_if, is_open_ended, is_ready};
ghost use Rattle.formula_parse.specs.View.{forms, state_of, Steps};

use crate::fault::StepFault;
use formula_core::{List, Name, Raw, RawBinder, RawBound, RawOp};
use math_grammar::{Binding, Bracket, Call, Grade, Hole, Level, Prefix, Shape};
use std::alloc::AllocError;

/// A form that isn't complete: what stands before the place that is read. The last number is the byte of its first token.
#[derive(Drop)]
pub enum Frame {
    Between(RawOp, Level, Grade, Raw),
    Prefixed(Prefix, u32),
    Group(Hole),
    Parts(Call, RawOp, List<Raw>, u32),
    Suffixed(Bracket, RawOp, Raw),
    /// Names up to a dot.
    Names(Binding, List<RawBound>, u32),
    /// The type of a name, and its left side if it has two.
    TypeAfter(Binding, List<RawBound>, Name, u32, Option<Raw>, u32),
    /// Members or names, and whether all so far may be names.
    Listed(Binding, bool, List<Raw>, u32),
    /// The predicate behind the names.
    Given(Binding, List<RawBound>, List<Raw>, u32),
    /// The last part.
    Last(Binding, Hole, RawBinder, List<RawBound>, List<Raw>, u32),
    /// A pattern, in parentheses or not, and what stands before its last ↦.
    Pattern(bool, Option<Shape>, u32),
    PatternType(Name, u32),
}

/// What the parser wants or holds, in the innermost of the unfinished forms, which stands last.
#[derive(Drop)]
pub enum Phase {
    Want(Vec<Frame>),
    Have(Vec<Frame>, Grade, Raw),
    /// A word was read, and its parenthesis is wanted.
    Calling(Vec<Frame>, Call, RawOp, u32),
    ShapeWant(Vec<Frame>),
    /// A name is held in a pattern.
    ShapeName(Vec<Frame>, Name, u32),
    ShapeHave(Vec<Frame>, Shape),
}

pub fn push(stack: &mut Vec<Frame>, frame: Frame) -> Result<(), AllocError>
    ensures { OnOk result (forms stack.new.items ≡ frame ∷ forms stack.old.items) }
{
    stack.push(frame)?;
    Ok(())
}

pub fn pop(stack: &mut Vec<Frame>) -> Option<Frame>
    ensures some { IfSome result (λ frame. forms stack.old.items ≡ frame ∷ forms stack.new.items) }
    ensures none { IfNone result ((forms stack.old.items ≡ []) × (forms stack.new.items ≡ [])) }
{
    stack.pop()
}

pub fn hole_of(frame: &Frame) -> Hole
    ensures { result ≡ hole_of frame.now }
{
    match frame {
        Frame::Between(_, level, _, _) => level.right(),
        Frame::Prefixed(prefix, _) => prefix.operand(),
        Frame::Group(hole) => *hole,
        Frame::Parts(call, _, _, _) => call.part(),
        Frame::Suffixed(_, _, _) => Hole::Expression,
        Frame::Names(_, _, _) => Hole::Name,
        Frame::TypeAfter(_, _, _, _, _, _) => Hole::Pair,
        Frame::Listed(_, _, _, _) => Hole::Expression,
        Frame::Given(_, _, _, _) => Hole::Predicate,
        Frame::Last(_, hole, _, _, _, _) => *hole,
        Frame::Pattern(_, _, _) => Hole::Name,
        Frame::PatternType(_, _) => Hole::Arrow,
    }
}

/// The place at the top of the stack.
pub fn place(goal: Hole, stack: &Vec<Frame>) -> Hole
    ensures { result ≡ hole_wanted goal (forms stack.now.items) }
{
    match stack.last() {
        None => goal,
        Some(frame) => hole_of(frame),
    }
}

/// Whether the form ends with its last part, without a sign.
fn is_open_ended(frame: &Frame) -> bool
    ensures { result ≡ is_open_ended frame.now }
{
    match frame {
        Frame::Between(_, _, _, _) | Frame::Prefixed(_, _) => true,
        Frame::Last(binding, _, _, _, _, _) => !binding.is_closed(),
        _ => false,
    }
}

fn all_open_ended(stack: &Vec<Frame>) -> bool
    ensures { result ≡ list_all is_open_ended (forms stack.now.items) }
{
    stack.iter().rev().all(|frame| is_open_ended(frame))
}

/// Whether a formula is held, and no unfinished form waits for a sign.
pub fn is_ready(phase: &Phase) -> bool
    ensures { result ≡ is_ready (state_of phase.now) }
{
    match phase {
        Phase::Have(stack, _, _) => all_open_ended(stack),
        _ => false,
    }
}

/// A new form.
pub fn open(mut stack: Vec<Frame>, frame: Frame) -> Result<Phase, StepFault>
    ensures { Steps result (Some (want (frame ∷ forms stack.items))) }
{
    push(&mut stack, frame)?;
    Ok(Phase::Want(stack))
}

/// A new form, if the test holds.
pub fn open_if(test: bool, stack: Vec<Frame>, frame: Frame) -> Result<Phase, StepFault>
    ensures { Steps result (only_if test (want (frame ∷ forms stack.items))) }
{
    if test {
        open(stack, frame)
    } else {
        Err(StepFault::Refused)
    }
}

/// A formula that is read, if the test holds.
pub fn held_if(
    test: bool,
    stack: Vec<Frame>,
    grade: Grade,
    formula: Raw,
) -> Result<Phase, StepFault>
    ensures { Steps result (only_if test (have (forms stack.items) grade formula)) }
{
    if test {
        Ok(Phase::Have(stack, grade, formula))
    } else {
        Err(StepFault::Refused)
    }
}
