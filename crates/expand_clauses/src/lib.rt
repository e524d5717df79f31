// The clauses of an expanded formula, and the numbers of the copies in them.

#![tactic(auto)]

pub mod literals;
pub mod numbers;
pub mod stores;
