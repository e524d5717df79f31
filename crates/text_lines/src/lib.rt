// The lines of QDIMACS text: the format as a grammar, and what is read of one line.

#![tactic(auto)]

pub mod body;
pub mod opening;
pub mod tables;

// What stands next in a clause line: a literal, its sign beside its number, or the closing 0. As for entries, what is neither is one case more.
#[derive(Clone, Copy)]
enum Signed {
    Unfit,
    Close {
        next: usize,
    },
    Literal {
        value: u32,
        negative: bool,
        next: usize,
    },
}

// Where a line stands: before the problem line, or after it, with the number of clause lines that it announced and of those that have stood.
#[derive(Clone, Copy)]
pub enum Stage {
    Opening,
    Body { n: u32, announced: u32, stood: u32 },
}

// What a line that may stand at a stage makes of it: the stage that it leads to, where the next line stands, and the counts of entries by then.
#[derive(Clone, Copy)]
pub struct Step {
    pub stage: Stage,
    pub next: usize,
    pub entries: usize,
    pub literals: usize,
}

// A line before or at the problem line, and where the next one stands.
#[derive(Clone, Copy)]
pub enum Opened {
    Comment { next: usize },
    Problem { n: u32, announced: u32, next: usize },
}

// The mark that stands in the prefix table for the `e` or `a` that begins a line, and where the line goes on.
#[derive(Clone, Copy)]
struct Mark {
    mark: u32,
    next: usize,
}
