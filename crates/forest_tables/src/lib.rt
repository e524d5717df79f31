// Lent forest tables: their rows, the counts that belong to them, and whether they are well formed (refusal 12).

#![tactic(auto)]

pub mod checking;
pub mod counts;
pub mod rows;
