//! How large an instance of a rule is, before it is built.
#![tactic(auto)]

mod extent;
mod growing;
mod instantiated;
mod members;
mod replaced;
mod room;
mod rows;
mod shapes;

pub use extent::Extent;
pub use growing::{needed_hyps, needs_goal, outgrows};
pub use instantiated::instantiated_extent;
pub use members::extension_extent;
pub use replaced::replaced_extent;
pub use room::room_of;
