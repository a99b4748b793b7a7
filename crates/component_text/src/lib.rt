//! Reads the texts of components.
#![tactic(auto)]

mod cursor;
mod laws;
mod machine;
mod parse;
mod pieces;
mod reader;
mod stop;
mod words;

pub use laws::one_reading;
pub use pieces::ReadFault;
pub use reader::read;
pub use words::STRUCTURAL;
