// The text of a formula as it is written into a lent buffer: bytes and numbers, the problem line, and the lines of the two tables.

#![tactic(auto)]

pub mod bytes;
pub mod writing;

// The most bytes that a text may have.
pub const TEXT_MOST: usize = 65536;

// The bytes that the format names.
pub const LF: u8 = 10;

pub const SPACE: u8 = 32;

pub const MINUS: u8 = 45;

pub const ZERO: u8 = 48;

pub const NINE: u8 = 57;

pub const LETTER_A: u8 = 97;

pub const LETTER_C: u8 = 99;

pub const LETTER_E: u8 = 101;

pub const LETTER_F: u8 = 102;

pub const LETTER_N: u8 = 110;

pub const LETTER_P: u8 = 112;
