// The passes around a union-find of loose rows: begin with every existential alone (or with lent rows), put all clauses in, settle the class rows so
// that each names its class, and write the rows out. Each pass over rows is linear in n. A clause costs a walk up two chains for each pair that it
// joins (`grow_union_find::merge`).

#![tactic(auto)]

pub mod depths;
pub mod rows;
