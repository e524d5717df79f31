// The records of a file as bytes, each stored in a lent table from a place on: the numbers and literals that they hold, and the records themselves.

#![tactic(auto)]

mod bytes;
pub mod parts;
