//! The signs that a form takes after a part.

ghost use Rattle.std.specs.Prelude.{◌≡◌, ◌∷◌, ◌++◌, [], cond, None, Some};
ghost use Rattle.formula_core.specs.declared.raw.Raw.TheVariants as raw;
ghost use Rattle.math_grammar.specs.Levels.{binding_grade};
ghost use Rattle.formula_parse.specs.Machine.{binding_body, after_names, then_want, after_name, second_side, after_type, names_next, type_next, shape_next, after_member, after_shape, pattern_of, shape_step, closed, plain_name_of, typed_name_of, bounds_from, have};
ghost use Rattle.formula_parse.specs.View.{forms, Steps};
ghost use Rattle.formula_parse.specs.declared.frames.Frame.TheVariants as frame;

use crate::bounds::{TypedName, bounds_of, joined, lone, name_of, typed, typed_name_of, untyped};
use crate::fault::StepFault;
use crate::frames::{Frame, Phase, held_if, open, open_if, pop, push};
use crate::nodes::{alone, between, bind, node, type_with, with};
use formula_core::{List, Name, Op, Raw, RawBinder, RawBound, RawOp, Ref};
use math_grammar::{Binding, Bracket, Call, Grade, Hole, Level, Shape, Symbol};
use std::alloc::Global;

/// A form with bound names, and the byte of its first token.
#[derive(Clone, Copy)]
struct Begun {
    binding: Binding,
    place: u32,
}

/// A form of an operator and the parts in its parentheses, and the byte of its first token.
#[derive(Clone, Copy)]
struct Called {
    call: Call,
    op: RawOp,
    place: u32,
}

/// A function or a relation, and the bracket and the operator behind it.
#[derive(Drop)]
struct Suffix {
    bracket: Bracket,
    op: RawOp,
    function: Raw,
}

/// A name whose type is read, and the left side of the type if that is read too.
#[derive(Drop)]
struct Named {
    name: Ref,
    side: Option<Raw>,
}

/// A part, and the sign behind it.
#[derive(Drop)]
struct Part {
    formula: Raw,
    symbol: Symbol,
}

/// What follows the names of a form.
fn body_of(binding: Binding, names: List<RawBound>, before: List<Raw>, place: u32) -> Frame
    ensures { result ≡ binding_body binding names before place }
{
    if binding.is_quantified() {
        Frame::Last(
            binding,
            Hole::Predicate,
            binding.binder(),
            names,
            before,
            place,
        )
    } else {
        Frame::Given(binding, names, before, place)
    }
}

/// A comma or a dot behind names.
fn after_names(
    alloc: Global,
    binding: Binding,
    names: List<RawBound>,
    place: u32,
    symbol: Symbol,
) -> Option<Frame>
    ensures { result ≡ after_names binding names place symbol }
{
    match symbol {
        Symbol::Comma => Some(Frame::Names(binding, names, place)),
        Symbol::Dot => Some(body_of(binding, names, List::of(Vec::new(alloc)), place)),
        _ => None,
    }
}

fn then_want(stack: Vec<Frame>, frame: Option<Frame>) -> Result<Phase, StepFault>
    ensures { Steps result (then_want (forms stack.items) frame) }
{
    match frame {
        Some(frame) => open(stack, frame),
        None => Err(StepFault::Refused),
    }
}

fn close_names(
    alloc: Global,
    stack: Vec<Frame>,
    begun: Begun,
    before: List<RawBound>,
    part: Part,
) -> Result<Phase, StepFault>
    ensures { Steps result (after_name (forms stack.items) begun.binding before
        begun.place part.symbol (plain_name_of part.formula)) }
{
    let Begun { binding, place } = begun;
    let Part { formula, symbol } = part;
    let Some(Ref { name, place: at }) = name_of(formula) else {
        return Err(StepFault::Refused);
    };
    if symbol.is_typing() {
        open(
            stack,
            Frame::TypeAfter(binding, before, name, at, None, place),
        )
    } else {
        let names = with(before, untyped(name, at))?;
        then_want(stack, after_names(alloc, binding, names, place, symbol))
    }
}

fn second_side(
    stack: Vec<Frame>,
    begun: Begun,
    before: List<RawBound>,
    named: Named,
    formula: Raw,
) -> Result<Phase, StepFault>
    ensures { Steps result (second_side (forms stack.items) begun.binding before
        named.name.name named.name.place named.side formula begun.place) }
{
    let Begun { binding, place } = begun;
    let Named { name, side } = named;
    let Ref { name, place: at } = name;
    match side {
        Some(_) => Err(StepFault::Refused),
        None => open(
            stack,
            Frame::TypeAfter(binding, before, name, at, Some(formula), place),
        ),
    }
}

fn close_type(
    alloc: Global,
    stack: Vec<Frame>,
    begun: Begun,
    before: List<RawBound>,
    named: Named,
    part: Part,
) -> Result<Phase, StepFault>
    ensures { Steps result (after_type (forms stack.items) begun.binding before
        named.name.name named.name.place named.side part.formula begun.place part.symbol) }
{
    let Part { formula, symbol } = part;
    if symbol.is_typing() {
        second_side(stack, begun, before, named, formula)
    } else {
        let Begun { binding, place } = begun;
        let Named { name, side } = named;
        let Ref { name, place: at } = name;
        let ty = type_with(alloc, side, formula)?;
        let names = with(before, typed(alloc, name, at, ty)?)?;
        then_want(stack, after_names(alloc, binding, names, place, symbol))
    }
}

fn names_next(
    alloc: Global,
    are_names: bool,
    stack: Vec<Frame>,
    begun: Begun,
    all: List<Raw>,
    symbol: Symbol,
) -> Result<Phase, StepFault>
    ensures { Steps result (cond are_names
        (names_next (forms stack.items) begun.binding (bounds_from all) begun.place symbol) None) }
{
    if !are_names {
        return Err(StepFault::Refused);
    }
    let Begun { binding, place } = begun;
    match bounds_of(alloc, all)? {
        Some(names) => then_want(stack, after_names(alloc, binding, names, place, symbol)),
        None => Err(StepFault::Refused),
    }
}

fn type_next(
    alloc: Global,
    are_names: bool,
    stack: Vec<Frame>,
    begun: Begun,
    before: List<Raw>,
    formula: Raw,
) -> Result<Phase, StepFault>
    ensures { Steps result (cond are_names (type_next (forms stack.items) begun.binding
        (bounds_from before) (typed_name_of formula) begun.place) None) }
{
    if !are_names {
        return Err(StepFault::Refused);
    }
    let Begun { binding, place } = begun;
    match (bounds_of(alloc, before)?, typed_name_of(formula)) {
        (
            Some(before),
            Some(
                TypedName {
                    name,
                    place: at,
                    ty,
                },
            ),
        ) => open(
            stack,
            Frame::TypeAfter(binding, before, name, at, Some(ty), place),
        ),
        _ => Err(StepFault::Refused),
    }
}

fn shape_next(
    alloc: Global,
    stack: Vec<Frame>,
    begun: Begun,
    before: List<Raw>,
    formula: Raw,
) -> Result<Phase, StepFault>
    ensures { Steps result (shape_next (forms stack.items) begun.binding before formula begun.place) }
{
    let Begun { binding, place } = begun;
    if !before.items().is_empty() {
        return Err(StepFault::Refused);
    }
    let parts = alone(alloc, formula)?;
    let no_names = List::of(Vec::new(alloc));
    open(
        stack,
        Frame::Last(
            binding,
            Hole::Predicate,
            binding.implicit(),
            no_names,
            parts,
            place,
        ),
    )
}

fn close_listed(
    alloc: Global,
    stack: Vec<Frame>,
    begun: Begun,
    are_names: bool,
    before: List<Raw>,
    part: Part,
) -> Result<Phase, StepFault>
    ensures { Steps result (after_member (forms stack.items) begun.binding are_names
        before begun.place part.formula part.symbol) }
{
    let Begun { binding, place } = begun;
    let Part { formula, symbol } = part;
    match symbol {
        Symbol::Comma => {
            let all = with(before, formula)?;
            if binding.is_closed() {
                open(stack, Frame::Listed(binding, are_names, all, place))
            } else {
                names_next(alloc, are_names, stack, begun, all, symbol)
            }
        }
        Symbol::Close(Bracket::Brace) => {
            let all = with(before, formula)?;
            held_if(
                binding.is_closed(),
                stack,
                Grade::Primary,
                node(RawOp::Plain(Op::SetExtension), all, place),
            )
        }
        Symbol::Bar => shape_next(alloc, stack, begun, before, formula),
        Symbol::Dot => {
            let all = with(before, formula)?;
            names_next(alloc, are_names, stack, begun, all, symbol)
        }
        Symbol::Infix(Level::Typing, _) => {
            type_next(alloc, are_names, stack, begun, before, formula)
        }
        _ => Err(StepFault::Refused),
    }
}

fn close_given(
    stack: Vec<Frame>,
    begun: Begun,
    names: List<RawBound>,
    parts: List<Raw>,
    grade: Grade,
    part: Part,
) -> Result<Phase, StepFault>
    ensures { Steps result (closed None (forms stack.items)
        (frame.Given begun.binding names parts begun.place) grade part.formula part.symbol) }
{
    let _ = grade;
    let Begun { binding, place } = begun;
    let Part { formula, symbol } = part;
    match symbol {
        Symbol::Bar => {
            let parts = with(parts, formula)?;
            open(
                stack,
                Frame::Last(
                    binding,
                    Hole::Expression,
                    binding.binder(),
                    names,
                    parts,
                    place,
                ),
            )
        }
        _ => Err(StepFault::Refused),
    }
}

/// A form with bound names, with its last part.
fn whole(
    stack: Vec<Frame>,
    begun: Begun,
    binder: RawBinder,
    names: List<RawBound>,
    parts: List<Raw>,
    formula: Raw,
) -> Result<Phase, StepFault>
    ensures { Steps result (Some (have (forms stack.items) (binding_grade begun.binding)
        (raw.Bind binder names (parts ++ formula ∷ []) begun.place))) }
{
    let Begun { binding, place } = begun;
    let parts = with(parts, formula)?;
    Ok(Phase::Have(stack, binding.grade(), bind(binder, names, parts, place)))
}

fn close_parts(
    stack: Vec<Frame>,
    called: Called,
    before: List<Raw>,
    grade: Grade,
    part: Part,
) -> Result<Phase, StepFault>
    ensures { Steps result (closed None (forms stack.items)
        (frame.Parts called.call called.op before called.place) grade part.formula part.symbol) }
{
    let _ = grade;
    let Called { call, op, place } = called;
    let Part { formula, symbol } = part;
    match symbol {
        Symbol::Close(Bracket::Round) => {
            let parts = with(before, formula)?;
            Ok(Phase::Have(stack, call.grade(), node(op, parts, place)))
        }
        Symbol::Comma => {
            let parts = with(before, formula)?;
            let more = call.has_room(parts.items().len());
            open_if(more, stack, Frame::Parts(call, op, parts, place))
        }
        _ => Err(StepFault::Refused),
    }
}

fn close_suffix(
    alloc: Global,
    stack: Vec<Frame>,
    suffix: Suffix,
    grade: Grade,
    part: Part,
) -> Result<Phase, StepFault>
    ensures { Steps result (closed None (forms stack.items)
        (frame.Suffixed suffix.bracket suffix.op suffix.function) grade part.formula part.symbol) }
{
    let _ = grade;
    let Suffix {
        bracket,
        op,
        function,
    } = suffix;
    let Part { formula, symbol } = part;
    let closes = match (bracket, symbol) {
        (Bracket::Round, Symbol::Close(Bracket::Round)) => true,
        (Bracket::Square, Symbol::Close(Bracket::Square)) => true,
        _ => false,
    };
    if closes {
        let suffixed = between(alloc, op, function, formula)?;
        Ok(Phase::Have(stack, Grade::Suffixed, suffixed))
    } else {
        Err(StepFault::Refused)
    }
}

fn after_shape(
    alloc: Global,
    mut stack: Vec<Frame>,
    inner: bool,
    shape: Shape,
    place: u32,
    symbol: Symbol,
) -> Result<Phase, StepFault>
    ensures { Steps result (after_shape (forms stack.items) inner shape place symbol) }
{
    match symbol {
        Symbol::Infix(Level::Maplet, _) => {
            push(&mut stack, Frame::Pattern(inner, Some(shape), place))?;
            Ok(Phase::ShapeWant(stack))
        }
        Symbol::Close(Bracket::Round) => {
            if inner {
                Ok(Phase::ShapeHave(stack, shape))
            } else {
                Err(StepFault::Refused)
            }
        }
        Symbol::Dot => {
            if inner {
                Err(StepFault::Refused)
            } else {
                let Shape { names, tree } = shape;
                open(
                    stack,
                    Frame::Given(Binding::Lambda, names, alone(alloc, tree)?, place),
                )
            }
        }
        _ => Err(StepFault::Refused),
    }
}

fn pattern_of(frame: Frame) -> Option<(bool, Option<Shape>, u32)>
    ensures { result ≡ pattern_of frame }
{
    match frame {
        Frame::Pattern(inner, before, place) => Some((inner, before, place)),
        _ => None,
    }
}

/// A sign behind a pattern.
pub fn shape_step(
    alloc: Global,
    mut stack: Vec<Frame>,
    shape: Shape,
    symbol: Symbol,
) -> Result<Phase, StepFault>
    ensures { Steps result (shape_step (forms stack.items) shape symbol) }
{
    let Some(frame) = pop(&mut stack) else {
        return Err(StepFault::Refused);
    };
    let Some((inner, before, place)) = pattern_of(frame) else {
        return Err(StepFault::Refused);
    };
    let shape = joined(alloc, before, shape)?;
    after_shape(alloc, stack, inner, shape, place, symbol)
}

/// A sign that a form takes after its part.
pub fn close(
    alloc: Global,
    stack: Vec<Frame>,
    frame: Frame,
    grade: Grade,
    formula: Raw,
    symbol: Symbol,
) -> Result<Phase, StepFault>
    ensures { Steps result (closed None (forms stack.items) frame grade formula symbol) }
{
    match frame {
        Frame::Group(_) => match symbol {
            Symbol::Close(Bracket::Round) => Ok(Phase::Have(stack, grade.grouped(), formula)),
            _ => Err(StepFault::Refused),
        },
        Frame::Parts(call, op, before, place) => {
            let called = Called { call, op, place };
            close_parts(stack, called, before, grade, Part { formula, symbol })
        }
        Frame::Suffixed(bracket, op, function) => {
            let suffix = Suffix {
                bracket,
                op,
                function,
            };
            close_suffix(alloc, stack, suffix, grade, Part { formula, symbol })
        }
        Frame::Names(binding, before, place) => {
            let begun = Begun { binding, place };
            close_names(alloc, stack, begun, before, Part { formula, symbol })
        }
        Frame::TypeAfter(binding, before, name, at, side, place) => {
            let begun = Begun { binding, place };
            let name = Ref { name, place: at };
            let named = Named { name, side };
            close_type(alloc, stack, begun, before, named, Part { formula, symbol })
        }
        Frame::Listed(binding, are_names, before, place) => {
            let begun = Begun { binding, place };
            let are_names = are_names && grade.is_declaration();
            close_listed(
                alloc,
                stack,
                begun,
                are_names,
                before,
                Part { formula, symbol },
            )
        }
        Frame::Given(binding, names, parts, place) => {
            let begun = Begun { binding, place };
            close_given(stack, begun, names, parts, grade, Part { formula, symbol })
        }
        Frame::Last(binding, _, binder, names, parts, place) => match symbol {
            Symbol::Close(Bracket::Brace) => {
                let begun = Begun { binding, place };
                whole(stack, begun, binder, names, parts, formula)
            }
            _ => Err(StepFault::Refused),
        },
        Frame::PatternType(name, place) => {
            let shape = lone(alloc, name, place, Some(formula))?;
            shape_step(alloc, stack, shape, symbol)
        }
        _ => Err(StepFault::Refused),
    }
}
