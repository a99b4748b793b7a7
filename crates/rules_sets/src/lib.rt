//! The rules of equality, sets and functions, and the laws of sets: what each needs and leaves, as the table of rules has it.
#![tactic(auto)]

mod arrows;
mod equality;
mod functions;
mod over;
mod relations;
mod replace;
mod sets;
mod unions;
mod words;

pub use arrows::{
    member_of_bijections, member_of_partial_functions, member_of_partial_injections,
    member_of_partial_surjections, member_of_relations, member_of_surjective_relations,
    member_of_total_functions, member_of_total_injections, member_of_total_relations,
    member_of_total_surjections, member_of_total_surjective_relations,
};
pub use equality::{bool_cases, bool_diff, eq_goal, eq_hyp, eq_refl};
pub use functions::{card_nat, fun_eq, fun_in, over_other};
pub use relations::{
    equal_pairs, member_of_composition, member_of_converse, member_of_direct_product,
    member_of_domain, member_of_domain_restriction, member_of_domain_subtraction,
    member_of_first_projection, member_of_identity, member_of_image, member_of_overriding,
    member_of_parallel_product, member_of_product, member_of_range, member_of_range_restriction,
    member_of_range_subtraction, member_of_second_projection, overridden_at,
};
pub use replace::replaced;
pub use sets::{
    equal_sets, equal_to_empty, finite_empty, finite_extension, finite_interval, finite_union,
    inclusion, member_of_difference, member_of_empty, member_of_extension, member_of_intersection,
    member_of_non_empty_power_set, member_of_power_set, member_of_union, member_of_whole,
    proper_inclusion,
};
pub use unions::{
    member_of_comprehension, member_of_general_intersection, member_of_general_union,
    member_of_quantified_intersection, member_of_quantified_union,
};
