//! The words that name the rules of proofs.
#![tactic(auto)]

mod words;

pub use words::{RULE_WORDS, rule_named, rule_word};
