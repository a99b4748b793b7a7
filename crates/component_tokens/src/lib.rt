//! The tokens of a component's text: those of formulas, and labels, between blanks and comments.
#![tactic(auto)]

mod cutting;
mod gap;
mod laws;
mod piece;
mod positions;

pub use cutting::{Pieces, cut};
pub use gap::Gap;
pub use laws::pieces_one_way;
pub use piece::{CutFault, Piece};
pub use positions::{Position, position_of};
