// The words of the library: variables, levels and literals, kept apart at compile time (rule 1.8, rule 18.4), their limits, and what calls answer.

#![tactic(auto)]

pub mod pairs;

ghost use Rattle.std.specs.Prelude.{◌≤◌, ◌≡◌, pos, neg_ℤ};
ghost use Rattle.terms.specs.Literals.{variable_of};
ghost use Rattle.terms.specs.InnerLiteralRows.{most_literal};
ghost use Rattle.terms.specs.InnerLiteralRows.{row_by, row_of, other_row};
ghost use Rattle.terms.specs.Says.{fault_number};

// A variable by its number, from 1 on; 0 stands for none.
#[derive(Clone, Copy, PartialEq, Eq, PartialOrd, Ord)]
pub struct Variable(pub u32);

// A level: the number of a block, outermost 1; 0 is the level of free variables outside every block.
#[derive(Clone, Copy, PartialEq, Eq, PartialOrd, Ord)]
pub struct Level(pub u32);

// A literal as it is lent: the number of its variable, negative for the negation.
#[derive(Clone, Copy, PartialEq, Eq)]
pub struct Literal(pub i32);

impl Variable {
    // The largest variable count that a formula may have.
    pub const MOST: u32 = 4096;
    // The rows of a table with one for each variable: row v is for variable v, and row 0 for none.
    pub const ROWS: usize = 4097;
    // The largest variable count of a formula of which resolution paths are asked.
    pub const RESOLUTION_MOST: u32 = 512;
    // The rows of a table with one for each variable of such a formula.
    pub const RESOLUTION_ROWS: usize = 513;

    pub fn new(number: u32) -> Variable
        ensures holds { result.0 ≡ number }
    {
        Variable(number)
    }

    // The literal of the variable.
    pub fn literal(self) -> Literal
        requires fits { self.0 ≤ most_literal }
        ensures plain { result.0 ≡ pos self.0 }
    {
        Literal(self.0 as i32)
    }

    // The literal of its negation.
    pub fn negation(self) -> Literal
        requires fits { self.0 ≤ most_literal }
        ensures negated { result.0 ≡ neg_ℤ (pos self.0) }
    {
        let literal = self.0 as i32;
        Literal(-literal)
    }
}

impl Level {
    // The most blocks that a prefix may have.
    pub const MOST: u32 = 64;
    // The most entries that the table of the levels, the prefix, may have.
    pub const ENTRIES: usize = 8192;
    // The most entries that it may have once neighbouring blocks are joined: all variables, and a mark and a 0 for each block.
    pub const JOINED: usize = 4224;
    // A level over every block number, so that no variable is deeper. A pass over the universals starts from it: no class is an entry point yet.
    pub const NONE_DEEPER: u32 = 4294967295;

    pub fn new(number: u32) -> Level
        ensures holds { result.0 ≡ number }
    {
        Level(number)
    }
}

impl Literal {
    // The most entries that a table of literals, the clause table or an added clause, may have.
    pub const ENTRIES: usize = 16384;
    // The rows of a table with two for each variable, one for each of its literals, and two for none.
    pub const ROWS: usize = 8194;
    // The rows of such a table where resolution paths are asked for.
    pub const RESOLUTION_ROWS: usize = 1026;

    pub fn new(number: i32) -> Literal
        ensures holds { result.0 ≡ number }
    {
        Literal(number)
    }

    // The variable of any literal, the smallest 32-bit one included.
    pub fn variable(self) -> Variable
        ensures own { result.0 ≡ variable_of self.0 }
    {
        Variable(magnitude(self.0))
    }

    // The row of the literal in a table with two rows for each variable: 2v for v, and 2v + 1 for its negation.
    pub fn row(self) -> usize
        ensures own { result ≡ row_of self.0 }
    {
        row_by(magnitude(self.0), self.0 < 0)
    }

    // The row of the literal with the other sign.
    pub fn other_row(self) -> usize
        ensures other { result ≡ other_row self.0 }
    {
        row_by(magnitude(self.0), !(self.0 < 0))
    }
}

// The first or the second row of a variable in a table with two for each.
fn row_by(variable: u32, second: bool) -> usize
    ensures chosen { result ≡ row_by variable second }
{
    let half = variable as usize;
    if second { half + half + 1 } else { half + half }
}

// The magnitude of any 32-bit number, with no negation that could wrap: the complement of a negative number is one less.
fn magnitude(number: i32) -> u32
    ensures size { result ≡ variable_of number }
{
    if number < 0 {
        let below = !number;
        (below as u32) + 1
    } else {
        number as u32
    }
}

// What is wrong with what was lent, as the table of refusals has it (rule 8.1): each fault by its number there.
#[derive(Clone, Copy, Debug, PartialEq, Eq)]
pub enum Fault {
    // n over the limit
    TooManyVariables = 1,
    // a table longer than its limit
    TooManyEntries = 2,
    // the prefix ends inside a block
    UnclosedBlock = 3,
    // a mark that is neither 1 nor 2
    NoMark = 4,
    // the mark of the block before
    SameMark = 5,
    // the mark of one block too many
    TooManyBlocks = 6,
    // a variable of the prefix outside 1 to n
    ForeignVariable = 7,
    // a variable that was named before
    NamedBefore = 8,
    // a block with no variable
    EmptyBlock = 9,
    // a literal of a variable outside 1 to n; a 0 in an added clause
    ForeignLiteral = 10,
    // the clause table ends inside a clause, or the table of lists inside a list
    UnclosedClause = 11,
    // forest tables that are not well formed
    MalformedForest = 12,
    // no clause with that number; an x that is not universal; a y that is not existential and deeper than x
    NotAskable = 13,
    // an output shorter than is needed
    TooLittleRoom = 14,
    // a text over its limit
    TextTooLong = 15,
    // a line that is not of the format, or may not stand there
    WrongLine = 16,
    // clause lines not as many as announced
    WrongClauseCount = 17,
    // a tally that takes no more, or that is not of these tables
    WrongTally = 18,
    // a record of a file that is cut, odd or not of its length; a file over its limit
    WrongRecord = 19,
    // a record of unknown kind or out of order, or none where one belongs
    WrongOrder = 20,
    // the words of a file do not sum to zero
    WrongSum = 21,
    // rows or sets of a file that are not those of its formula
    WrongContents = 22,
    // a rule number that is neither 1 nor 2
    NoSuchRule = 23,
    // a path that is empty or fails
    WrongPath = 24,
    // the y of a list out of range, or placed before
    MisplacedExistential = 25,
    // an x of a list that is not universal, or twice in it
    MisplacedUniversal = 26,
    // n over the limit for resolution paths
    TooManyForPaths = 27,
}

impl Fault {
    // Its number in the table of refusals.
    pub fn number(self) -> u32
        ensures numbered { result ≡ fault_number self }
    {
        self as u32
    }
}

// Why a call does not accept what was lent to it: what is wrong, and at which place.
#[derive(Clone, Copy, Debug, PartialEq, Eq)]
pub struct Refusal(pub Fault, pub usize);

// Where the climb for a variable ends: the class, and how many classes were passed on the way, the first not counted.
#[derive(Clone, Copy)]
pub struct Point {
    pub class: Variable,
    pub rises: u32,
}

// How much of a formula was written: n, and how many entries its prefix and its clause table have.
#[derive(Clone, Copy)]
pub struct Counts {
    pub n: u32,
    pub prefix: usize,
    pub clauses: usize,
}

// The same of a formula with dependency lists: also how many entries their table has.
#[derive(Clone, Copy)]
pub struct ListedCounts {
    pub n: u32,
    pub prefix: usize,
    pub clauses: usize,
    pub lists: usize,
}

// What a file has: its formula, of which so much was written, and whether it has sets.
#[derive(Clone, Copy)]
pub struct Loaded {
    pub n: u32,
    pub prefix: usize,
    pub clauses: usize,
    pub sets: bool,
}

// Which dependencies are asked for: the standard ones, reached from clauses that have x in either sign, or the strict ones, reached both from
// clauses with x and from clauses with its negation.
#[derive(Clone, Copy)]
pub enum Scheme {
    Standard,
    Strict,
}

// A tally beside a forest: the clauses taken, the merges made and the classes left (rule 4.3, rule 18.6).
#[derive(Clone, Copy)]
pub struct Tally {
    pub clauses: u32,
    pub merges: u32,
    pub classes: u32,
}

// What a call that keeps a tally comes to: its answer, and the tally afterwards.
#[derive(Clone, Copy)]
pub struct Tallied {
    pub answer: Result<u32, Refusal>,
    pub tally: Tally,
}

impl Tally {
    // A tally with so many clauses takes no more.
    pub const CLAUSES: u32 = 65535;
}
