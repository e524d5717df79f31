// The writer of accepted tables: the problem line, then the lines of the prefix table and those of the clause table.

ghost use Rattle.std.specs.Prelude.{◌≡◌, [], ◌∷◌, ◌+◌, ◌<◌, ◌≤◌, length, eqb, nat_abs, true};
ghost use Rattle.text_write.specs.Written.{cnf_bytes, problem_line, literal_word};
ghost use Rattle.text_write.specs.InnerText.{spaced, prefix_text, clause_text, clause_count, text_by_entries};
ghost use Rattle.terms.specs.Limits.{prefix_entries, clause_entries};
ghost use Rattle.text_write.specs.InnerBytes.{next_first, entry_bytes, literal_bytes, SmallEntries, SmallLiterals, Writable};
ghost use Rattle.text_write.specs.InnerOrders.{WriteIs};
ghost use Rattle.text_write.specs.InnerBytes.{Wrote};

use crate::bytes::{put_byte, put_number};
use crate::{
    LETTER_A, LETTER_C, LETTER_E, LETTER_F, LETTER_N, LETTER_P, LF, MINUS, SPACE, TEXT_MOST,
};
use terms::{Fault, Literal, Refusal};

// Writes the text of tables that were accepted into a lent buffer. The length is found first, by writing into a scratch buffer of one byte, so that
// nothing is written where the text is too long or does not fit.
pub fn write_accepted(
    n: u32,
    prefix: &[u32],
    clauses: &[i32],
    out: &mut [u8],
) -> Result<u32, Refusal>
    requires writable { Writable n prefix.now clauses.now }
    ensures answered { WriteIs (text_by_entries n prefix.now clauses.now) out.old out.new result }
{
    let mut unseen = [0u8; 1];
    let count = put_text(&mut unseen, n, prefix, clauses);
    if TEXT_MOST < count {
        return Err(Refusal(Fault::TextTooLong, TEXT_MOST));
    }
    if out.len() < count {
        return Err(Refusal(Fault::TooLittleRoom, 0));
    }
    let written = put_text(out, n, prefix, clauses);
    Ok(written as u32)
}

// The text of n and two tables.
fn put_text(out: &mut [u8], n: u32, prefix: &[u32], clauses: &[i32]) -> usize
    requires writable { Writable n prefix.now clauses.now }
    ensures wrote { Wrote (text_by_entries n prefix.now clauses.now) out.old out.new 0 result }
{
    let count = count_clauses(clauses);
    let lines = put_problem(out, n, count);
    let body = put_prefix(out, lines, prefix);
    put_clauses(out, body, clauses)
}

// The problem line.
pub fn put_problem(out: &mut [u8], n: u32, count: u32) -> usize
    requires small { (n < 100000) × (count < 100000) }
    ensures wrote { Wrote (problem_line n count) out.old out.new 0 result }
{
    let start = put_cnf(out);
    let number = put_number(out, start, n);
    let space = put_byte(out, number, SPACE);
    let last = put_number(out, space, count);
    put_byte(out, last, LF)
}

// The words `p cnf` and the space after them.
fn put_cnf(out: &mut [u8]) -> usize
    ensures wrote { Wrote cnf_bytes out.old out.new 0 result }
{
    let space = put_byte(out, 0, LETTER_P);
    let c = put_byte(out, space, SPACE);
    let n = put_byte(out, c, LETTER_C);
    let f = put_byte(out, n, LETTER_N);
    let last = put_byte(out, f, LETTER_F);
    put_byte(out, last, SPACE)
}

// How many clauses a clause table has.
pub fn count_clauses(clauses: &[i32]) -> u32
    requires small { (length clauses.now ≤ clause_entries) × SmallLiterals clauses.now }
    ensures counted { result ≡ clause_count clauses.now }
{
    clauses.iter().filter(|&&literal| closes(literal)).count() as u32
}

// The lines of the prefix table.
pub fn put_prefix(out: &mut [u8], at: usize, prefix: &[u32]) -> usize
    requires small { (at < 4096) × (length prefix.now ≤ prefix_entries) × SmallEntries prefix.now }
    ensures wrote { Wrote (prefix_text true prefix.now) out.old out.new at result }
{
    let mut next = at;
    let mut first = true;
    for &entry in prefix {
        next = put_entry(out, next, first, entry);
        first = starts(first, entry);
    }
    next
}

// One entry of the prefix table: a mark as its letter, or a number after a space, with LF after the closing 0.
pub fn put_entry(out: &mut [u8], at: usize, first: bool, entry: u32) -> usize
    requires small { (at < 4294967000) × (entry < 100000) }
    ensures wrote { Wrote (entry_bytes first entry) out.old out.new at result }
{
    if first {
        if entry == 1 {
            return put_byte(out, at, LETTER_E);
        }
        return put_byte(out, at, LETTER_A);
    }
    let start = put_byte(out, at, SPACE);
    let end = put_number(out, start, entry);
    if entry == 0 {
        return put_byte(out, end, LF);
    }
    end
}

// Whether a line begins after an entry of the prefix table.
fn starts(first: bool, entry: u32) -> bool
    ensures told { result ≡ next_first first entry }
{
    if first {
        return false;
    }
    entry == 0
}

// The lines of the clause table.
pub fn put_clauses(out: &mut [u8], at: usize, clauses: &[i32]) -> usize
    requires small { (at < 1048576) × (length clauses.now ≤ clause_entries) × SmallLiterals clauses.now }
    ensures wrote { Wrote (clause_text true clauses.now) out.old out.new at result }
{
    let mut next = at;
    let mut first = true;
    for &literal in clauses {
        next = put_clause_entry(out, next, first, literal);
        first = closes(literal);
    }
    next
}

// One entry of the clause table: a literal after a space unless its clause begins here, with LF after the closing 0.
fn put_clause_entry(out: &mut [u8], at: usize, first: bool, literal: i32) -> usize
    requires small { (at < 4294967000) × (nat_abs literal < 100000) }
    ensures wrote { Wrote (literal_bytes first literal) out.old out.new at result }
{
    let start = put_space(out, at, first);
    let end = put_literal(out, start, literal);
    if closes(literal) {
        return put_byte(out, end, LF);
    }
    end
}

// A space unless a line begins here.
fn put_space(out: &mut [u8], at: usize, first: bool) -> usize
    requires near { at < 4294967296 }
    ensures wrote { Wrote (spaced first []) out.old out.new at result }
{
    if first {
        return at;
    }
    put_byte(out, at, SPACE)
}

// The word of a literal, with `-` where it is negative.
fn put_literal(out: &mut [u8], at: usize, literal: i32) -> usize
    requires small { (at < 4294967100) × (nat_abs literal < 100000) }
    ensures wrote { Wrote (literal_word literal) out.old out.new at result }
{
    let variable = Literal::new(literal).variable().0;
    if literal < 0 {
        let start = put_byte(out, at, MINUS);
        return put_number(out, start, variable);
    }
    put_number(out, at, variable)
}

// Whether an entry of the clause table is the closing 0.
fn closes(literal: i32) -> bool
    ensures told { result ≡ eqb (nat_abs literal) 0 }
{
    let variable = Literal::new(literal).variable().0;
    variable == 0
}
