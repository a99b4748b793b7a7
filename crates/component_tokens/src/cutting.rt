//! Cutting a component's text into tokens.

ghost use Rattle.std.specs.Prelude.{◌≡◌, ◌<◌, ◌^◌, IfOk, length};
ghost use Rattle.component_tokens.specs.Pieces.{CutInto};

use crate::piece::{CutFault, Piece, piece_at};
use formula_core::OutOfMemory;
use math_tokens::Token;
use std::alloc::Global;

/// The tokens of a text up to its end or to the first fault.
#[derive(Drop)]
pub struct Pieces {
    pub tokens: Vec<Token>,
    pub fault: Option<CutFault>,
}

/// Cuts a text. Each byte is looked at once, but for those of a sign's longest match.
pub fn cut(alloc: Global, text: &str) -> Result<Pieces, OutOfMemory>
    requires { length text.now < 2 ^ 32 }
    ensures { IfOk result (λ pieces. CutInto text.now 0 pieces.tokens.items pieces.fault) }
{
    let mut tokens = Vec::new(alloc);
    let mut at = 0;
    while at < text.len() {
        match piece_at(text, at as u32) {
            Piece::Gap(length) => at += length,
            Piece::Token(token) => {
                at = token.to as usize;
                tokens.push(token)?;
            }
            Piece::Fault(fault) => {
                return Ok(Pieces {
                    tokens,
                    fault: Some(fault),
                });
            }
        }
    }
    Ok(Pieces {
        tokens,
        fault: None,
    })
}
