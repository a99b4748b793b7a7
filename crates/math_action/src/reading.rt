//! Reading of actions.

ghost use Rattle.std.specs.Prelude.{◌≡◌, IfOk, IfErr};
ghost use Rattle.formula_core.specs.declared.raw.RawAction.{RawAction};
ghost use Rattle.math_grammar.specs.Tokens.{items_of};
ghost use Rattle.formula_parse.specs.Limits.{FindsFormula};
ghost use Rattle.formula_parse.specs.PrivateReaders.{ReadsTokens};
ghost use Rattle.math_action.specs.Limits.{IsAction, IsActionFault};
ghost use Rattle.math_action.specs.PrivateMachine.{is_full_action, action_reader};
ghost use Rattle.math_action.specs.PrivateView.{action_state};

use crate::stages::Stage;
use crate::steps::{end_action, step};
use formula_core::{List, RawAction};
use formula_parse::{ParseFault, StepFault, bytes_of, is_full, open_after, passes};
use math_grammar::symbol_of;
use math_tokens::Token;
use std::alloc::Global;

/// Whether a part of a partition is wanted behind the last one allowed.
fn is_full_action(stage: &Stage) -> bool
    ensures { result ≡ is_full_action (action_state stage.now) }
{
    match stage {
        Stage::Formula(_, phase) => is_full(phase),
        _ => false,
    }
}

fn read(alloc: Global, text: &str, tokens: &[Token]) -> Result<RawAction, ParseFault>
    ensures { ReadsTokens action_reader text.now tokens.now result }
{
    let mut stage = Stage::Target(List::of(Vec::new(alloc)));
    let mut depth = 0;
    for (index, token) in tokens.iter().enumerate() {
        let word = bytes_of(text, token);
        let symbol = symbol_of(token.kind, word);
        if passes(index, depth, symbol) {
            return Err(ParseFault::TooLarge(index as u32));
        }
        match step(alloc, stage, symbol, token.from, word) {
            Ok(next) => stage = next,
            Err(StepFault::Refused) => return Err(ParseFault::Unexpected(index as u32)),
            Err(StepFault::OutOfMemory) => return Err(ParseFault::OutOfMemory),
        }
        if is_full_action(&stage) {
            return Err(ParseFault::TooLarge(index as u32));
        }
        depth = open_after(depth, symbol);
    }
    match end_action(alloc, stage) {
        Ok(action) => Ok(action),
        Err(StepFault::Refused) => Err(ParseFault::Unexpected(tokens.len() as u32)),
        Err(StepFault::OutOfMemory) => Err(ParseFault::OutOfMemory),
    }
}

/// The action that the tokens of a text spell.
pub fn action(alloc: Global, text: &str, tokens: &[Token]) -> Result<RawAction, ParseFault>
    // What is found is spelled so, within the limits.
    ensures found { IfOk result (λ a. IsAction (items_of text.now tokens.now) a) }
    // What is spelled so is found, unless memory runs out.
    ensures only { (a : RawAction) → IsAction (items_of text.now tokens.now) a → FindsFormula result a }
    // Else the place is that of the first token that no action within the limits has there.
    ensures fault { IfErr result (λ fault. IsActionFault (items_of text.now tokens.now) fault) }
{
    read(alloc, text, tokens)
}
