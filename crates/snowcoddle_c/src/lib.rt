// What the archive exports for C, as include/snowcoddle.h has it: each export is the call of the same name of `snowcoddle`, with its promise. A slice is a
// pointer and a length there, a `&mut` to a number is a cell, and that to the three numbers of a tally is a pointer to its struct.

#![tactic(auto)]

pub mod dependent;
pub mod expanding;
pub mod files;
pub mod listed;
pub mod pairs;
pub mod resolving;

ghost use Rattle.terms.specs.declared.Scheme.TheVariants.{Strict};
ghost use Rattle.formula.specs.Lent.{formula_in, prefix_in};
ghost use Rattle.forest_tables.specs.Lent.{rows_in};
ghost use Rattle.c_answers.specs.Codes.{scheme_of};
ghost use Rattle.snowcoddle.specs.Promises.{CheckTold, ClauseTold, BuildTold, AddTold, EntryTold, EntriesTold, SetTold, SizeTold, SetsTold, ReadTold};
ghost use Rattle.snowcoddle.specs.Promises.{WriteTold};

use c_answers::tallies::TallyCells;

// Check: whether a formula keeps every rule.
#[unsafe(no_mangle)]
pub extern "C" fn snow_check(
    rule: u32,
    n: u32,
    prefix: &[u32],
    clauses: &[i32],
    place: &mut u32,
) -> u32
    ensures told { CheckTold rule (formula_in n prefix clauses) place result }
{
    snowcoddle::snow_check(rule, n, prefix, clauses, place)
}

// The clause with a given number: where it stands in the lent table, and how many literals it has.
#[unsafe(no_mangle)]
pub extern "C" fn snow_clause(
    n: u32,
    clauses: &[i32],
    asked: u32,
    start: &mut u32,
    len: &mut u32,
    place: &mut u32,
) -> u32
    ensures told { ClauseTold n clauses.now asked start len place result }
{
    snowcoddle::snow_clause(n, clauses, asked, start, len, place)
}

// Build: the forest of a formula and its tally, with n as the count of its rows.
#[unsafe(no_mangle)]
pub extern "C" fn snow_build(
    rule: u32,
    n: u32,
    prefix: &[u32],
    clauses: &[i32],
    classes: &mut [u32],
    parents: &mut [u32],
    counts: &mut [u32],
    tally: &mut TallyCells,
    count: &mut u32,
    place: &mut u32,
) -> u32
    ensures told { BuildTold rule (formula_in n prefix clauses) classes parents counts tally count place result }
{
    snowcoddle::snow_build(
        rule, n, prefix, clauses, classes, parents, counts, tally, count, place,
    )
}

// The entry point of x for y, and the number of rises up to it.
#[unsafe(no_mangle)]
pub extern "C" fn snow_entry_point(
    rule: u32,
    n: u32,
    prefix: &[u32],
    classes: &[u32],
    parents: &[u32],
    counts: &[u32],
    x: u32,
    y: u32,
    entry: &mut u32,
    rises: &mut u32,
    place: &mut u32,
) -> u32
    ensures told { EntryTold rule (prefix_in n prefix) (rows_in classes parents counts) x y entry rises place result }
{
    snowcoddle::snow_entry_point(
        rule, n, prefix, classes, parents, counts, x, y, entry, rises, place,
    )
}

// The strict entry points of x, ascending, with their count.
#[unsafe(no_mangle)]
pub extern "C" fn snow_entry_points(
    rule: u32,
    n: u32,
    prefix: &[u32],
    clauses: &[i32],
    classes: &[u32],
    parents: &[u32],
    counts: &[u32],
    x: u32,
    out: &mut [u32],
    count: &mut u32,
    place: &mut u32,
) -> u32
    ensures told { EntriesTold rule Strict (formula_in n prefix clauses) (rows_in classes parents counts) x out count place result }
{
    snowcoddle::snow_entry_points(
        rule, n, prefix, clauses, classes, parents, counts, x, out, count, place,
    )
}

// The strict set of x, ascending, with the count of its members.
#[unsafe(no_mangle)]
pub extern "C" fn snow_set(
    rule: u32,
    n: u32,
    prefix: &[u32],
    clauses: &[i32],
    classes: &[u32],
    parents: &[u32],
    counts: &[u32],
    x: u32,
    out: &mut [u32],
    count: &mut u32,
    place: &mut u32,
) -> u32
    ensures told { SetTold rule Strict (formula_in n prefix clauses) (rows_in classes parents counts) x out count place result }
{
    snowcoddle::snow_set(
        rule, n, prefix, clauses, classes, parents, counts, x, out, count, place,
    )
}

// The size of the strict set of x.
#[unsafe(no_mangle)]
pub extern "C" fn snow_size(
    rule: u32,
    n: u32,
    prefix: &[u32],
    clauses: &[i32],
    classes: &[u32],
    parents: &[u32],
    counts: &[u32],
    x: u32,
    size: &mut u32,
    place: &mut u32,
) -> u32
    ensures told { SizeTold rule Strict (formula_in n prefix clauses) (rows_in classes parents counts) x size place result }
{
    snowcoddle::snow_size(
        rule, n, prefix, clauses, classes, parents, counts, x, size, place,
    )
}

// The entry points of x by the scheme that a number asks for, ascending, with their count.
#[unsafe(no_mangle)]
pub extern "C" fn snow_entry_points_by(
    rule: u32,
    scheme: u32,
    n: u32,
    prefix: &[u32],
    clauses: &[i32],
    classes: &[u32],
    parents: &[u32],
    counts: &[u32],
    x: u32,
    out: &mut [u32],
    count: &mut u32,
    place: &mut u32,
) -> u32
    ensures told { EntriesTold rule (scheme_of scheme) (formula_in n prefix clauses) (rows_in classes parents counts) x out count place result }
{
    snowcoddle::snow_entry_points_by(
        rule, scheme, n, prefix, clauses, classes, parents, counts, x, out, count, place,
    )
}

// The set of x by the scheme that a number asks for, ascending, with the count of its members.
#[unsafe(no_mangle)]
pub extern "C" fn snow_set_by(
    rule: u32,
    scheme: u32,
    n: u32,
    prefix: &[u32],
    clauses: &[i32],
    classes: &[u32],
    parents: &[u32],
    counts: &[u32],
    x: u32,
    out: &mut [u32],
    count: &mut u32,
    place: &mut u32,
) -> u32
    ensures told { SetTold rule (scheme_of scheme) (formula_in n prefix clauses) (rows_in classes parents counts) x out count place result }
{
    snowcoddle::snow_set_by(
        rule, scheme, n, prefix, clauses, classes, parents, counts, x, out, count, place,
    )
}

// The size of the set of x by the scheme that a number asks for.
#[unsafe(no_mangle)]
pub extern "C" fn snow_size_by(
    rule: u32,
    scheme: u32,
    n: u32,
    prefix: &[u32],
    clauses: &[i32],
    classes: &[u32],
    parents: &[u32],
    counts: &[u32],
    x: u32,
    size: &mut u32,
    place: &mut u32,
) -> u32
    ensures told { SizeTold rule (scheme_of scheme) (formula_in n prefix clauses) (rows_in classes parents counts) x size place result }
{
    snowcoddle::snow_size_by(
        rule, scheme, n, prefix, clauses, classes, parents, counts, x, size, place,
    )
}

// The sets of all universals by the strict scheme: for each universal ascending its number, the count of its set and its set; with the count of
// all entries.
#[unsafe(no_mangle)]
pub extern "C" fn snow_sets(
    rule: u32,
    n: u32,
    prefix: &[u32],
    clauses: &[i32],
    classes: &[u32],
    parents: &[u32],
    counts: &[u32],
    out: &mut [u32],
    count: &mut u32,
    place: &mut u32,
) -> u32
    ensures told { SetsTold rule Strict (formula_in n prefix clauses) (rows_in classes parents counts) out count place result }
{
    snowcoddle::snow_sets(
        rule, n, prefix, clauses, classes, parents, counts, out, count, place,
    )
}

// The sets of all universals by the scheme that a number asks for, in the same form.
#[unsafe(no_mangle)]
pub extern "C" fn snow_sets_by(
    rule: u32,
    scheme: u32,
    n: u32,
    prefix: &[u32],
    clauses: &[i32],
    classes: &[u32],
    parents: &[u32],
    counts: &[u32],
    out: &mut [u32],
    count: &mut u32,
    place: &mut u32,
) -> u32
    ensures told { SetsTold rule (scheme_of scheme) (formula_in n prefix clauses) (rows_in classes parents counts) out count place result }
{
    snowcoddle::snow_sets_by(
        rule, scheme, n, prefix, clauses, classes, parents, counts, out, count, place,
    )
}

// Add a clause: the lent rows become those of the forest with it, and the tally counts it.
#[unsafe(no_mangle)]
pub extern "C" fn snow_add(
    rule: u32,
    n: u32,
    prefix: &[u32],
    classes: &mut [u32],
    parents: &mut [u32],
    counts: &mut [u32],
    tally: &mut TallyCells,
    clause: &[i32],
    place: &mut u32,
) -> u32
    ensures told { AddTold rule n prefix.now classes parents counts tally clause.now place result }
{
    snowcoddle::snow_add(
        rule, n, prefix, classes, parents, counts, tally, clause, place,
    )
}

// Read a text: n, and both tables with the counts of their entries.
#[unsafe(no_mangle)]
pub extern "C" fn snow_read(
    text: &[u8],
    n: &mut u32,
    prefix: &mut [u32],
    prefix_count: &mut u32,
    clauses: &mut [i32],
    clauses_count: &mut u32,
    place: &mut u32,
) -> u32
    ensures told { ReadTold text.now n prefix prefix_count clauses clauses_count place result }
{
    snowcoddle::snow_read(text, n, prefix, prefix_count, clauses, clauses_count, place)
}

// Write a text, with the count of its bytes.
#[unsafe(no_mangle)]
pub extern "C" fn snow_write(
    rule: u32,
    n: u32,
    prefix: &[u32],
    clauses: &[i32],
    text: &mut [u8],
    count: &mut u32,
    place: &mut u32,
) -> u32
    ensures told { WriteTold rule (formula_in n prefix clauses) text count place result }
{
    snowcoddle::snow_write(rule, n, prefix, clauses, text, count, place)
}
