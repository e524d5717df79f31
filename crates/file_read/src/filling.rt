// The lent tables, once everything is judged: whether they have room for what the file has, and their rows.

ghost use Rattle.std.specs.Prelude.{◌≤◌, ◌≡◌, length};
ghost use Rattle.std.proofs.lemmas.List.Edits.{sets};
ghost use Rattle.forest_tables.specs.Lent.{rows};
ghost use Rattle.forest_tables.specs.InnerRows.{Tells};
ghost use Rattle.file_format.specs.Places.{count_in, formula_held};
ghost use Rattle.file_format.specs.Causes.{lent_tables, lent_in, lent_out, Roomy};
ghost use Rattle.file_format.specs.Promises.{stored_in};
ghost use Rattle.file_layout.specs.InnerLaid.{Laid};
ghost use Rattle.file_verify.specs.InnerVerified.{classes_in, parents_in, counts_in, rows_held};
ghost use Rattle.file_read.specs.Inner.{said_of};

use file_format::Record;
use file_format::numbers::two_at;
use file_layout::decoding::{fill_formula, fill_numbers};
use file_layout::places::{clause_entries, has_sets, prefix_entries, third_at};
use terms::Loaded;

// Whether every lent table is long enough.
pub fn has_room(
    file: &[u8],
    prefix: &[u32],
    clauses: &[i32],
    classes: &[u32],
    parents: &[u32],
    counts: &[u32],
) -> bool
    requires laid { Laid file.now }
    ensures told { Tells result (Roomy (formula_held file.now)
        (lent_tables prefix.now clauses.now (rows classes.now parents.now counts.now))) }
{
    if prefix.len() < prefix_entries(file) {
        return false;
    }
    if clauses.len() < clause_entries(file) {
        return false;
    }
    let n = two_at(file, Record::HEAD) as usize;
    if classes.len() < n {
        return false;
    }
    if parents.len() < n {
        return false;
    }
    if counts.len() < n {
        return false;
    }
    true
}

// Fills the lent tables, and gives what the file has.
pub fn fill_lent(
    file: &[u8],
    prefix: &mut [u32],
    clauses: &mut [i32],
    classes: &mut [u32],
    parents: &mut [u32],
    counts: &mut [u32],
) -> Loaded
    requires room { Laid file.now × Roomy (formula_held file.now)
        (lent_tables prefix.old clauses.old (rows classes.old parents.old counts.old)) }
    ensures stored { lent_out prefix clauses classes parents counts
        ≡ stored_in (lent_in prefix clauses classes parents counts) (formula_held file.now) (rows_held file.now) }
    ensures said { result ≡ said_of file.now }
{
    fill_formula(file, prefix, clauses);
    fill_rows(file, classes, parents, counts);
    said_of(file)
}

// Stores the rows of the file.
fn fill_rows(file: &[u8], classes: &mut [u32], parents: &mut [u32], counts: &mut [u32])
    requires room { Laid file.now × (count_in file.now ≤ length classes.old) × (count_in file.now ≤ length parents.old)
        × (count_in file.now ≤ length counts.old) }
    ensures classes { classes.new ≡ sets classes.old 0 (classes_in file.now) }
    ensures parents { parents.new ≡ sets parents.old 0 (parents_in file.now) }
    ensures counts { counts.new ≡ sets counts.old 0 (counts_in file.now) }
{
    let n = two_at(file, Record::HEAD) as usize;
    let first = third_at(file) + Record::HEAD;
    let many = 4 * n;
    fill_numbers(file, 4, first, n, classes);
    fill_numbers(file, 4, first + many, n, parents);
    fill_numbers(file, 4, first + many + many, n, counts);
}

// What the file has: n, how many entries prefix and clauses have, and whether sets are there.
fn said_of(file: &[u8]) -> Loaded
    requires laid { Laid file.now }
    ensures said { result ≡ said_of file.now }
{
    Loaded {
        n: two_at(file, Record::HEAD),
        prefix: prefix_entries(file),
        clauses: clause_entries(file),
        sets: has_sets(file),
    }
}
