// The formula as lent: its definitions and laws, the clause table, and clauses that are always true.

#![tactic(auto)]

pub mod clauses;
pub mod truth;
