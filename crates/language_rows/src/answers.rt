//! What comes of a text, by the kind of its row.

use crate::blanks::{write_blank, write_tokens_among_blanks};
use crate::kinds::Kind;
use crate::places::{write_law, write_place};
use crate::token_rows::{write_class, write_level, write_token_at, write_tokens};
use crate::tree::write_reading;
use crate::typed::write_typing;
use formula_core::Env;
use std::alloc::{AllocError, Global};

/// Writes what comes of the text.
pub fn answer(
    alloc: Global,
    env: &Env,
    out: &mut String,
    kind: Kind,
    text: &str,
) -> Result<(), AllocError> {
    match kind {
        Kind::TokenAt(at) => write_token_at(out, text, at),
        Kind::Tokens => write_tokens(alloc, out, text),
        Kind::TokensAmongBlanks => write_tokens_among_blanks(alloc, out, text),
        Kind::Blank => write_blank(alloc, out, text),
        Kind::Class => write_class(alloc, out, text),
        Kind::Level => write_level(alloc, out, text),
        Kind::Place => write_place(out, text),
        Kind::Law => write_law(out, text),
        Kind::Read(reading, form) => write_reading(alloc, out, reading, form, text),
        Kind::Typed(typing, form) => write_typing(alloc, env, out, typing, form, text),
        Kind::Name | Kind::Unknown => out.push_str("no such kind"),
    }
}
