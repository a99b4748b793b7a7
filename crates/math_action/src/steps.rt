//! The reader of actions: it reads token by token.

ghost use Rattle.std.specs.Prelude.{◌≡◌, ◌∷◌, ◌++◌, [], None, Some, IfOk};
ghost use Rattle.math_action.specs.PrivateMachine.{begin_target, if_first, after_target, comma_taken, after_argument, formula, action_step, whole_action, action_ended};
ghost use Rattle.math_action.specs.declared.stages.Stage.TheVariants as stage;
ghost use Rattle.math_action.specs.PrivateView.{action_state, ActionSteps, CompletesAction};
ghost use Rattle.math_grammar.specs.Grammar.{item};
ghost use Rattle.formula_parse.specs.Machine.{want};

use crate::stages::{Head, Stage};
use formula_core::{List, Raw, RawAction, Ref};
use formula_parse::{Phase, StepFault, end, is_ready, read_name};
use math_grammar::{Bracket, Symbol};
use std::alloc::{AllocError, Global};

/// A list with one more at its end.
fn with<T: Drop>(items: List<T>, item: T) -> Result<List<T>, AllocError>
    ensures { IfOk result (λ all. all ≡ items ++ item ∷ []) }
{
    let mut items = items.into_vec();
    items.push(item)?;
    Ok(List::of(items))
}

/// A formula is wanted.
fn begin(alloc: Global, head: Head) -> Stage
    ensures { action_state result ≡ formula head (want []) }
{
    Stage::Formula(head, Phase::Want(Vec::new(alloc)))
}

fn begin_target(
    alloc: Global,
    before: List<Ref>,
    from: u32,
    word: &[u8],
    symbol: Symbol,
) -> Result<Stage, StepFault>
    ensures { ActionSteps result (begin_target before from word.now symbol) }
{
    match symbol {
        Symbol::Word => match read_name(alloc, word)? {
            Some(name) => Ok(Stage::Named(before, Ref { name, place: from })),
            None => Err(StepFault::Refused),
        },
        _ => Err(StepFault::Refused),
    }
}

/// What may stand behind one target alone.
fn if_first(alloc: Global, before: List<Ref>, head: Head) -> Result<Stage, StepFault>
    ensures { ActionSteps result (if_first before (formula head (want []))) }
{
    if before.items().is_empty() {
        Ok(begin(alloc, head))
    } else {
        Err(StepFault::Refused)
    }
}

/// A sign behind a target.
fn after_target(
    alloc: Global,
    before: List<Ref>,
    name: Ref,
    symbol: Symbol,
) -> Result<Stage, StepFault>
    ensures { ActionSteps result (after_target before name symbol) }
{
    match symbol {
        Symbol::Comma => Ok(Stage::Target(with(before, name)?)),
        Symbol::Becomes => {
            let targets = with(before, name)?;
            Ok(begin(alloc, Head::Assign(targets, List::of(Vec::new(alloc)))))
        }
        Symbol::BecomesSuch => {
            let targets = with(before, name)?;
            Ok(begin(alloc, Head::ChooseSuch(targets)))
        }
        Symbol::BecomesIn => if_first(alloc, before, Head::ChooseIn(name)),
        Symbol::Open(Bracket::Round) => if_first(alloc, before, Head::Argument(name)),
        _ => Err(StepFault::Refused),
    }
}

/// A formula with the sign that ends it.
fn separated(alloc: Global, head: Head, formula: Raw) -> Result<Stage, StepFault>
    ensures { ActionSteps result (comma_taken head formula) }
{
    match head {
        Head::Assign(targets, before) => {
            let values = with(before, formula)?;
            if values.items().len() < targets.items().len() {
                Ok(begin(alloc, Head::Assign(targets, values)))
            } else {
                Err(StepFault::Refused)
            }
        }
        Head::Argument(name) => Ok(Stage::Applied(name, formula)),
        _ => Err(StepFault::Refused),
    }
}

/// A token of a formula, or the sign that ends it.
fn formula_step(
    alloc: Global,
    head: Head,
    phase: Phase,
    symbol: Symbol,
    from: u32,
    word: &[u8],
) -> Result<Stage, StepFault>
    ensures { ActionSteps result
        (action_step None (action_state (stage.Formula head phase)) (item symbol from word.now)) }
{
    let goal = head.goal();
    if head.ends_at(symbol) && is_ready(&phase) {
        let formula = end(alloc, goal, phase)?;
        separated(alloc, head, formula)
    } else {
        let phase = formula_parse::step(alloc, goal, phase, symbol, from, word)?;
        Ok(Stage::Formula(head, phase))
    }
}

/// ≔ behind a name with its argument.
fn after_argument(
    alloc: Global,
    name: Ref,
    argument: Raw,
    symbol: Symbol,
) -> Result<Stage, StepFault>
    ensures { ActionSteps result (after_argument name argument symbol) }
{
    match symbol {
        Symbol::Becomes => Ok(begin(alloc, Head::Apply(name, argument))),
        _ => Err(StepFault::Refused),
    }
}

/// The next token, by its class, its first byte and its bytes.
pub fn step(
    alloc: Global,
    stage: Stage,
    symbol: Symbol,
    from: u32,
    word: &[u8],
) -> Result<Stage, StepFault>
    ensures { ActionSteps result (action_step None (action_state stage) (item symbol from word.now)) }
{
    match stage {
        Stage::Target(before) => begin_target(alloc, before, from, word, symbol),
        Stage::Named(before, name) => after_target(alloc, before, name, symbol),
        Stage::Formula(head, phase) => formula_step(alloc, head, phase, symbol, from, word),
        Stage::Applied(name, argument) => after_argument(alloc, name, argument, symbol),
    }
}

/// The action with its last formula.
fn whole(head: Head, formula: Raw) -> Result<RawAction, StepFault>
    ensures { CompletesAction result (whole_action head formula) }
{
    match head {
        Head::Assign(targets, before) => {
            let values = with(before, formula)?;
            if targets.items().len() == values.items().len() {
                Ok(RawAction::Assign(targets, values))
            } else {
                Err(StepFault::Refused)
            }
        }
        Head::Argument(_) => Err(StepFault::Refused),
        Head::Apply(name, argument) => Ok(RawAction::Apply(name, argument, formula)),
        Head::ChooseIn(name) => Ok(RawAction::ChooseIn(name, formula)),
        Head::ChooseSuch(targets) => Ok(RawAction::ChooseSuch(targets, formula)),
    }
}

/// The action at the end of the tokens.
pub fn end_action(alloc: Global, stage: Stage) -> Result<RawAction, StepFault>
    ensures { CompletesAction result (action_ended (action_state stage)) }
{
    match stage {
        Stage::Formula(head, phase) => {
            let formula = end(alloc, head.goal(), phase)?;
            whole(head, formula)
        }
        _ => Err(StepFault::Refused),
    }
}
