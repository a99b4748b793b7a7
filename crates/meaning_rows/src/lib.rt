//! Facts of set theory, as tests of what formulas denote: each is proved in proofs/. It has no calls.
#![tactic(auto)]
