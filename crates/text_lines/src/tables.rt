// The entries of a line in its table: they are stored from a row on, as far as the table has rows.

ghost use Rattle.std.specs.Prelude.{◌≡◌, cond, ◌<◌, ◌≤◌, set, pos, neg_ℤ};
ghost use Rattle.text_words.specs.InnerNumbers.{variables, literals};
ghost use Rattle.text_lines.specs.InnerSteps.{BlockIs, SignedIs};
ghost use Rattle.text_words.specs.InnerPlaces.{RowIs};

use crate::Signed;
use terms::Variable;
use text_words::items::entry_at;
use text_words::{Entry, Row};

// The entries of a quantifier line, its mark first, stored in the prefix table from a row on. The place is the one after the mark.
pub fn block_at(text: &[u8], at: usize, mark: u32, prefix: &mut [u32], from: usize) -> Option<Row>
    requires behind { from < at }
    ensures stored { BlockIs mark text.now at from prefix.old prefix.new result }
{
    store(prefix, from, mark);
    variables_at(text, at, prefix, from + 1)
}

// The variables of a quantifier line and its 0, stored in the prefix table from a row on.
pub fn variables_at(text: &[u8], at: usize, prefix: &mut [u32], from: usize) -> Option<Row>
    requires behind { from ≤ at }
    ensures stored { RowIs variables text.now at from prefix.old prefix.new result }
{
    let mut i = at;
    let mut row = from;
    // A walk along the words: where the next one is looked for is what the last one says.
    loop {
        match entry_at(text, i) {
            Entry::Unfit => return None,
            Entry::Negate { value: _, next: _ } => return None,
            Entry::Close { next } => {
                store(prefix, row, 0);
                return Some(Row {
                    next,
                    count: row + 1,
                });
            }
            Entry::Take { value, next } => {
                store(prefix, row, value);
                row += 1;
                i = next;
            }
        }
    }
}

// The literals of a clause line and its 0, stored in the clause table from a row on.
pub fn literals_at(text: &[u8], at: usize, clauses: &mut [i32], from: usize) -> Option<Row>
    requires behind { from ≤ at }
    ensures stored { RowIs literals text.now at from clauses.old clauses.new result }
{
    let mut i = at;
    let mut row = from;
    // A walk along the words, as for variables.
    loop {
        match signed_at(text, i) {
            Signed::Unfit => return None,
            Signed::Close { next } => {
                store(clauses, row, 0);
                return Some(Row {
                    next,
                    count: row + 1,
                });
            }
            Signed::Literal {
                value,
                negative,
                next,
            } => {
                store(clauses, row, literal_of(value, negative));
                row += 1;
                i = next;
            }
        }
    }
}

// What stands next in a clause line. A literal with `-` and one without are one case, so that the loop that stores them is branch-free: a processor
// cannot predict the sign of a literal.
fn signed_at(text: &[u8], at: usize) -> Signed
    ensures read { SignedIs text.now at result }
{
    match entry_at(text, at) {
        Entry::Unfit => Signed::Unfit,
        Entry::Close { next } => Signed::Close { next },
        Entry::Take { value, next } => Signed::Literal {
            value,
            negative: false,
            next,
        },
        Entry::Negate { value, next } => Signed::Literal {
            value,
            negative: true,
            next,
        },
    }
}

// Stores an entry of a table if the table has that row.
fn store<T: Copy>(table: &mut [T], row: usize, entry: T)
    ensures stored { table.new ≡ set table.old row entry }
{
    if row < table.len() {
        table[row] = entry;
    }
}

// The literal of a number word, with `-` or without.
fn literal_of(value: u32, negative: bool) -> i32
    requires small { value < 100000 }
    ensures signed { result ≡ cond negative (neg_ℤ (pos value)) (pos value) }
{
    let v = Variable::new(value);
    if negative {
        v.negation().0
    } else {
        v.literal().0
    }
}
