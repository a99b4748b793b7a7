//! Sets that operators make of finite values.
#![tactic(auto)]

mod applying;
mod bounds;
mod collecting;
mod counting;
mod fault;
mod joining;
mod lists;
mod pairing;
mod relations;

pub use applying::applied;
pub use bounds::{greatest, least};
pub use collecting::{extension, made};
pub use counting::{elements, interval};
pub use fault::ValueFault;
pub use joining::{difference, intersection, union};
pub use lists::{is_in, is_within, members, number};
pub use pairing::{composition, product};
pub use relations::{
    converse, domain, domain_restriction, domain_subtraction, image, overriding, range,
    range_restriction, range_subtraction,
};
