//! The calls on texts, with the signs of formulas.

ghost use Rattle.std.specs.Prelude.{◌^◌, ◌<◌, ◌≤◌, length};
ghost use Rattle.math_tokens.specs.SignForms.{sign_forms};
ghost use Rattle.math_tokens.specs.Texts.{IsTokenAt, Cuts};

use crate::cutting::{Token, TokenFault, token_in, tokens_in};
use crate::signs::{SIGNS, STARTS};
use std::alloc::Global;

/// The longest token that begins at the byte. It takes no memory.
pub fn token_at(text: &str, at: u32) -> Result<Option<Token>, TokenFault>
    requires fits { length text.now < 2 ^ 32 }
    requires within { at ≤ length text.now }
    ensures { IsTokenAt sign_forms text.now at result }
{
    token_in(&SIGNS, &STARTS, text, at)
}

/// The tokens of a text, or the first fault in it.
pub fn tokens(alloc: Global, text: &str) -> Result<Vec<Token>, TokenFault>
    requires { length text.now < 2 ^ 32 }
    ensures { Cuts sign_forms text.now result }
{
    tokens_in(alloc, &SIGNS, &STARTS, text)
}
