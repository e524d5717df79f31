// The whole file: its size is known before anything is written.

ghost use Rattle.std.specs.Prelude.{◌≤◌, ◌≡◌, length};
ghost use Rattle.terms.specs.Limits.{most_variables, prefix_entries, clause_entries};
ghost use Rattle.formula.specs.Lent.{formula_of, formula_in};
ghost use Rattle.forest_tables.specs.Lent.{rows, rows_in};
ghost use Rattle.text_write.specs.InnerBytes.{Wrote};
ghost use Rattle.file_write.specs.InnerParts.{formula_part, whole_of, size_of, Small, StoresWhole};

use file_bytes::parts::{put_clauses, put_closing, put_prefix, put_rows};
use terms::{Fault, Refusal};

// Writes the file of a formula and these rows; nothing is written where it does not fit. Within the limits it is never too long.
pub fn store_file(
    n: u32,
    prefix: &[u32],
    clauses: &[i32],
    classes: &[u32],
    parents: &[u32],
    counts: &[u32],
    file: &mut [u8],
) -> Result<u32, Refusal>
    requires small { Small (formula_of n prefix.now clauses.now) (rows classes.now parents.now counts.now) }
    ensures stored { StoresWhole (whole_of (formula_in n prefix clauses) (rows_in classes parents counts)) file.old file.new result }
{
    let size = size_of(prefix.len(), clauses.len(), classes.len());
    if file.len() < size {
        return Err(Refusal(Fault::TooLittleRoom, 0));
    }
    let written = put_file(file, n, prefix, clauses, classes, parents, counts);
    Ok(written as u32)
}

// How many bytes a file has, by its prefix entries, literals, and rows of each table.
fn size_of(entries: usize, literals: usize, rows: usize) -> usize
    requires small { (entries ≤ prefix_entries) × (literals ≤ clause_entries) × (rows ≤ most_variables) }
    ensures sized { result ≡ size_of entries literals rows }
{
    2 * entries + 4 * literals + 12 * rows + 28
}

// All records of a file, for which there is room.
fn put_file(
    out: &mut [u8],
    n: u32,
    prefix: &[u32],
    clauses: &[i32],
    classes: &[u32],
    parents: &[u32],
    counts: &[u32],
) -> usize
    requires small { Small (formula_of n prefix.now clauses.now) (rows classes.now parents.now counts.now) }
    requires room { size_of (length prefix.now) (length clauses.now) (length classes.now) ≤ length out.old }
    ensures wrote { Wrote (whole_of (formula_in n prefix clauses) (rows_in classes parents counts)) out.old out.new 0 result }
{
    let forest = put_formula(out, n, prefix, clauses);
    let last = put_rows(out, forest, classes, parents, counts);
    put_closing(out, last)
}

// The records of the formula.
fn put_formula(out: &mut [u8], n: u32, prefix: &[u32], clauses: &[i32]) -> usize
    requires small { (length prefix.now ≤ prefix_entries) × (length clauses.now ≤ clause_entries) }
    ensures wrote { Wrote (formula_part (formula_in n prefix clauses)) out.old out.new 0 result }
{
    let next = put_prefix(out, n, prefix);
    put_clauses(out, next, clauses)
}
