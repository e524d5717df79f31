// What add looks at before it puts the clause in: the clause itself, refused as 10, and the tally beside the tables, refused as 18.

#![tactic(auto)]

pub mod clause;
pub mod tallying;
