// The calls for C that write and read the file of a forest, each under a reading rule.

ghost use Rattle.formula.specs.Lent.{formula_in};
ghost use Rattle.file_format.specs.Causes.{lent_in, lent_out};
ghost use Rattle.snowcoddle.specs.Promises.{StoreTold, LoadTold};

use c_answers::formulas::lay_loaded;
use c_answers::lay;

// Store: the file of a formula and its forest, with the count of its bytes.
pub fn snow_store(
    rule: u32,
    n: u32,
    prefix: &[u32],
    clauses: &[i32],
    file: &mut [u8],
    count: &mut u32,
    place: &mut u32,
) -> u32
    ensures told { StoreTold rule (formula_in n prefix clauses) file count place result }
{
    let answer = file_write::store(rule, n, prefix, clauses, file);
    lay(answer, count, place)
}

// Load: n, both tables of the formula with the counts of their entries, the rows of its forest, and whether the file has sets.
pub fn snow_load(
    rule: u32,
    file: &[u8],
    n: &mut u32,
    prefix: &mut [u32],
    prefix_count: &mut u32,
    clauses: &mut [i32],
    clauses_count: &mut u32,
    classes: &mut [u32],
    parents: &mut [u32],
    counts: &mut [u32],
    with_sets: &mut u32,
    place: &mut u32,
) -> u32
    ensures told { LoadTold rule file.now (lent_in prefix clauses classes parents counts)
        (lent_out prefix clauses classes parents counts) n prefix_count clauses_count with_sets place result }
{
    let answer = file_read::load(rule, file, prefix, clauses, classes, parents, counts);
    lay_loaded(answer, n, prefix_count, clauses_count, with_sets, place)
}
