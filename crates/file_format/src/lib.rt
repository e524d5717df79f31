// The file of a forest: what the head of a record says, the numbers in the bytes of a file, and the sum of its words.

#![tactic(auto)]

pub mod numbers;
pub mod sums;

// The head of a record: its kind, and how many bytes its payload has.
#[derive(Clone, Copy)]
pub struct Record {
    pub kind: u32,
    pub size: u32,
}

impl Record {
    // The kinds, in the order in which they stand: n and the prefix, the clauses, the rows of the forest, the sets, which may be absent, and the
    // word that closes the sum. START is what the first record has in the place of a kind before it.
    pub const START: u32 = 0;

    pub const PREFIX: u32 = 1;

    pub const CLAUSES: u32 = 2;

    pub const ROWS: u32 = 3;

    pub const SETS: u32 = 4;

    pub const CLOSING: u32 = 65535;
    // The bytes of a head: four for the length of the payload, and two for the kind.
    pub const HEAD: usize = 6;
    // The most bytes that a file may have.
    pub const FILE_BYTES: usize = 262144;
}
