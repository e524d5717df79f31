// The words of a line of text, what they say as numbers and entries, and what is looked for next in a line.

#![tactic(auto)]

pub mod expected;
pub mod items;
pub mod words;

// A line of entries: where the next line stands, and the count of entries with it.
#[derive(Clone, Copy)]
pub struct Row {
    pub next: usize,
    pub count: usize,
}

// What stands next in a line of entries: a number and where the line goes on, or the closing 0 and where the next line stands. Take and Negate are
// not neighbours: the compiler would make one sum of their tags, and then no caller could be compiled without a branch on the sign. Nor is a word that is
// no entry told by an Option around the others, with which a text of clauses was measured to be read a quarter slower.
#[derive(Clone, Copy)]
pub enum Entry {
    Unfit,
    Take { value: u32, next: usize },
    Close { next: usize },
    Negate { value: u32, next: usize },
}

// A number that stands next in a line, and where the line goes on.
#[derive(Clone, Copy)]
pub struct Counted {
    pub value: u32,
    pub next: usize,
}

// What stands next in a line: a word, from its first byte up to its end, or the line's end, an LF or the text's end. With a word comes whether it
// carries `-`, and the number that the rest of it is, if it is one: apart, so that a caller can be branch-free: a processor cannot predict the sign of a literal.
#[derive(Clone, Copy)]
pub enum Word {
    Found {
        start: usize,
        end: usize,
        number: Option<u32>,
        negative: bool,
    },
    End {
        at: usize,
    },
}
