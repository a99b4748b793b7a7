//! The tokens of formulas: words, primed names, numbers and signs, each by longest match.
#![tactic(auto)]

mod cutting;
mod laws;
mod lexemes;
mod signs;
mod text;

pub use cutting::{Token, TokenFault, TokenKind, blank_length};
pub use laws::cut_one_way;
pub use signs::SIGNS;
pub use text::{token_at, tokens};
