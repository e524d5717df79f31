// The records of a file, each stored from a place on, by their kinds.

ghost use Rattle.std.specs.Prelude.{◌≡◌, ◌+◌, ◌<◌, ◌≤◌, ◌++◌, length, take};
ghost use Rattle.terms.specs.Limits.{most_variables, prefix_entries, clause_entries};
ghost use Rattle.text_write.specs.InnerBytes.{Wrote};
ghost use Rattle.file_format.specs.Numbers.{bytes_of};
ghost use Rattle.file_format.specs.Layout.{prefix_record, clauses_record, rows_record, closing_record};
ghost use Rattle.file_bytes.specs.InnerParts.{closing};

use crate::bytes::{put_entries, put_head, put_number, put_numbers};
use file_format::Record;
use file_format::numbers::literal_number;
use file_format::sums::sum_words;

// Kind 1: n and the prefix.
pub fn put_prefix(out: &mut [u8], n: u32, prefix: &[u32]) -> usize
    requires few { length prefix.now ≤ prefix_entries }
    ensures wrote { Wrote (prefix_record n prefix.now) out.old out.new 0 result }
{
    let head = Record {
        kind: Record::PREFIX,
        size: 2 * (prefix.len() as u32) + 2,
    };
    let start = put_head(out, 0, head);
    let next = put_number(out, start, 2, n);
    put_numbers(out, next, 2, prefix)
}

// Kind 2: the clauses.
pub fn put_clauses(out: &mut [u8], at: usize, clauses: &[i32]) -> usize
    requires near { (at < 65536) × (length clauses.now ≤ clause_entries) }
    ensures wrote { Wrote (clauses_record clauses.now) out.old out.new at result }
{
    let head = Record {
        kind: Record::CLAUSES,
        size: 4 * (clauses.len() as u32),
    };
    let start = put_head(out, at, head);
    put_entries(out, start, 4, clauses, literal_number)
}

// Kind 3: the rows.
pub fn put_rows(
    out: &mut [u8],
    at: usize,
    classes: &[u32],
    parents: &[u32],
    counts: &[u32],
) -> usize
    requires near { (at < 131072) × (length classes.now ≤ most_variables)
        × (length parents.now ≡ length classes.now) × (length counts.now ≡ length classes.now) }
    ensures wrote { Wrote (rows_record classes.now parents.now counts.now)
        out.old out.new at result }
{
    let head = Record {
        kind: Record::ROWS,
        size: 12 * (classes.len() as u32),
    };
    let start = put_head(out, at, head);
    put_tables(out, start, classes, parents, counts)
}

// The numbers of three tables one after the other.
fn put_tables(out: &mut [u8], at: usize, classes: &[u32], parents: &[u32], counts: &[u32]) -> usize
    requires near { (at < 262144) × (length classes.now ≤ most_variables)
        × (length parents.now ≤ most_variables) × (length counts.now ≤ most_variables) }
    ensures wrote { Wrote (bytes_of 4 (classes.now ++ (parents.now ++ counts.now)))
        out.old out.new at result }
{
    let second = put_numbers(out, at, 4, classes);
    let third = put_numbers(out, second, 4, parents);
    put_numbers(out, third, 4, counts)
}

// Kind 65,535: the word with which the sum of all words wraps to zero.
pub fn put_closing(out: &mut [u8], at: usize) -> usize
    requires room { (at < 524288) × (at + 8 ≤ length out.old) }
    ensures wrote { Wrote (closing_record (closing (take at out.old))) out.old out.new at result }
{
    let head = Record {
        kind: Record::CLOSING,
        size: 2,
    };
    let next = put_head(out, at, head);
    let sum = sum_words(&out[..next]);
    let word = 0u16.wrapping_sub(sum);
    put_number(out, next, 2, u32::from(word))
}
