//! What places of the grammar take, and the laws, whose calls ask for nothing and do nothing.

use formula_core::Formula;
use math_grammar::{Call, Grade, Hole, Level};
use math_tokens::cut_one_way;
use plain_grammar::{same_sentences, types_before_maplet_need_the_condition};
use std::alloc::AllocError;
use well_defined::{atoms_are_well_defined, total_formulas_are_well_defined};

fn takes_product(place: Hole) -> bool {
    place.fits(Level::Multiplicative.grade(Grade::Name))
}

fn is_so(question: &str) -> Option<bool> {
    match question {
        "on its right + takes a product" => Some(takes_product(Level::Additive.right())),
        "on its right ^ takes a product" => Some(takes_product(Level::Power.right())),
        "on its left ∧ takes a conjunction" => {
            Some(Level::Conjunction.takes_left(Grade::Conjunction))
        }
        "on its left ∧ takes a disjunction" => {
            Some(Level::Conjunction.takes_left(Grade::Disjunction))
        }
        "parentheses round a literal take an implication" => {
            Some(Hole::Literal.inside().fits(Grade::Implication))
        }
        "parentheses round a sum take an implication" => {
            Some(Hole::Sum.inside().fits(Grade::Implication))
        }
        "partition has room after 9 parts" => Some(Call::Partition.has_room(9)),
        "finite has room after 1 part" => Some(Call::Finite.has_room(1)),
        _ => None,
    }
}

/// Writes the answer to a question on places.
pub fn write_place(out: &mut String, question: &str) -> Result<(), AllocError> {
    out.push_str(match is_so(question) {
        Some(true) => "yes",
        Some(false) => "no",
        None => "no such question",
    })
}

fn call_law(law: &str) -> bool {
    match law {
        "cut_one_way" => cut_one_way(),
        "same_sentences" => same_sentences(),
        "types_before_maplet_need_the_condition" => types_before_maplet_need_the_condition(),
        "atoms_are_well_defined" => atoms_are_well_defined(&Formula::Int(1)),
        "total_formulas_are_well_defined" => total_formulas_are_well_defined(&Formula::Int(1)),
        _ => return false,
    }
    true
}

/// Calls a law.
pub fn write_law(out: &mut String, law: &str) -> Result<(), AllocError> {
    out.push_str(if call_law(law) {
        "called"
    } else {
        "no such law"
    })
}
