// The calls of the library for C, as include/snowcoddle.h has them: each calls the library, by a reading rule where it takes a prefix, and lays its
// answer out. A `&mut` to a number is a cell, and that to the three numbers of a tally is its struct. `snowcoddle_c` exports each under its name.

#![tactic(auto)]

pub mod dependent;
pub mod expanding;
pub mod files;
pub mod listed;
pub mod pairs;
pub mod resolving;

ghost use Rattle.terms.specs.declared.Scheme.TheVariants.{Strict};
ghost use Rattle.formula.specs.Lent.{formula_in, prefix_in};
ghost use Rattle.forest_tables.specs.Lent.{rows_in};
ghost use Rattle.c_answers.specs.Codes.{scheme_of};
ghost use Rattle.snowcoddle.specs.Promises.{CheckTold, ClauseTold, BuildTold, AddTold, EntryTold, EntriesTold, SetTold, SizeTold, SetsTold, ReadTold};
ghost use Rattle.snowcoddle.specs.Promises.{WriteTold};

use c_answers::formulas::lay_counts;
use c_answers::tallies::{TallyCells, lay_added, lay_built, tally_in};
use c_answers::{lay, lay_entry, lay_verdict, scheme_in};
use terms::{Fault, Variable};

// The number by which C asks for the strict scheme, which the calls mean that take none.
const STRICT: u32 = 2;

// Check: whether a formula keeps every rule.
pub fn snow_check(rule: u32, n: u32, prefix: &[u32], clauses: &[i32], place: &mut u32) -> u32
    ensures told { CheckTold rule (formula_in n prefix clauses) place result }
{
    lay_verdict(formula_rules::check(rule, n, prefix, clauses), place)
}

// The clause with a given number: where it stands in the lent table, and how many literals it has.
pub fn snow_clause(
    n: u32,
    clauses: &[i32],
    asked: u32,
    start: &mut u32,
    len: &mut u32,
    place: &mut u32,
) -> u32
    ensures told { ClauseTold n clauses.now asked start len place result }
{
    match formula_checks::clause_verdict(n, clauses, asked) {
        Err(refusal) => {
            *place = refusal.1 as u32;
            refusal.0.number()
        }
        Ok(()) => match formula::clauses::find(clauses, asked) {
            Some(span) => {
                *start = span.start as u32;
                *len = (span.end - span.start) as u32;
                0
            }
            None => Fault::NotAskable.number(),
        },
    }
}

// Build: the forest of a formula and its tally, with n as the count of its rows.
pub fn snow_build(
    rule: u32,
    n: u32,
    prefix: &[u32],
    clauses: &[i32],
    classes: &mut [u32],
    parents: &mut [u32],
    counts: &mut [u32],
    tally: &mut TallyCells,
    count: &mut u32,
    place: &mut u32,
) -> u32
    ensures told { BuildTold rule (formula_in n prefix clauses) classes parents counts tally count place result }
{
    let lent = tally_in(tally);
    let told = grow::build(rule, n, prefix, clauses, classes, parents, counts, lent);
    lay_built(told, tally, count, place)
}

// The entry point of x for y, and the number of rises up to it.
pub fn snow_entry_point(
    rule: u32,
    n: u32,
    prefix: &[u32],
    classes: &[u32],
    parents: &[u32],
    counts: &[u32],
    x: u32,
    y: u32,
    entry: &mut u32,
    rises: &mut u32,
    place: &mut u32,
) -> u32
    ensures told { EntryTold rule (prefix_in n prefix) (rows_in classes parents counts) x y entry rises place result }
{
    let answer = forest::entry_point(
        rule,
        n,
        prefix,
        classes,
        parents,
        counts,
        Variable(x),
        Variable(y),
    );
    lay_entry(answer, entry, rises, place)
}

// The strict entry points of x, ascending, with their count.
pub fn snow_entry_points(
    rule: u32,
    n: u32,
    prefix: &[u32],
    clauses: &[i32],
    classes: &[u32],
    parents: &[u32],
    counts: &[u32],
    x: u32,
    out: &mut [u32],
    count: &mut u32,
    place: &mut u32,
) -> u32
    ensures told { EntriesTold rule Strict (formula_in n prefix clauses) (rows_in classes parents counts) x out count place result }
{
    snow_entry_points_by(
        rule, STRICT, n, prefix, clauses, classes, parents, counts, x, out, count, place,
    )
}

// The strict set of x, ascending, with the count of its members.
pub fn snow_set(
    rule: u32,
    n: u32,
    prefix: &[u32],
    clauses: &[i32],
    classes: &[u32],
    parents: &[u32],
    counts: &[u32],
    x: u32,
    out: &mut [u32],
    count: &mut u32,
    place: &mut u32,
) -> u32
    ensures told { SetTold rule Strict (formula_in n prefix clauses) (rows_in classes parents counts) x out count place result }
{
    snow_set_by(
        rule, STRICT, n, prefix, clauses, classes, parents, counts, x, out, count, place,
    )
}

// The size of the strict set of x.
pub fn snow_size(
    rule: u32,
    n: u32,
    prefix: &[u32],
    clauses: &[i32],
    classes: &[u32],
    parents: &[u32],
    counts: &[u32],
    x: u32,
    size: &mut u32,
    place: &mut u32,
) -> u32
    ensures told { SizeTold rule Strict (formula_in n prefix clauses) (rows_in classes parents counts) x size place result }
{
    snow_size_by(
        rule, STRICT, n, prefix, clauses, classes, parents, counts, x, size, place,
    )
}

// The entry points of x by the scheme that a number asks for, ascending, with their count.
pub fn snow_entry_points_by(
    rule: u32,
    scheme: u32,
    n: u32,
    prefix: &[u32],
    clauses: &[i32],
    classes: &[u32],
    parents: &[u32],
    counts: &[u32],
    x: u32,
    out: &mut [u32],
    count: &mut u32,
    place: &mut u32,
) -> u32
    ensures told { EntriesTold rule (scheme_of scheme) (formula_in n prefix clauses) (rows_in classes parents counts) x out count place result }
{
    let answer = forest::entry_points(
        rule,
        scheme_in(scheme),
        n,
        prefix,
        clauses,
        classes,
        parents,
        counts,
        Variable(x),
        out,
    );
    lay(answer, count, place)
}

// The set of x by the scheme that a number asks for, ascending, with the count of its members.
pub fn snow_set_by(
    rule: u32,
    scheme: u32,
    n: u32,
    prefix: &[u32],
    clauses: &[i32],
    classes: &[u32],
    parents: &[u32],
    counts: &[u32],
    x: u32,
    out: &mut [u32],
    count: &mut u32,
    place: &mut u32,
) -> u32
    ensures told { SetTold rule (scheme_of scheme) (formula_in n prefix clauses) (rows_in classes parents counts) x out count place result }
{
    let answer = forest::set_of(
        rule,
        scheme_in(scheme),
        n,
        prefix,
        clauses,
        classes,
        parents,
        counts,
        Variable(x),
        out,
    );
    lay(answer, count, place)
}

// The size of the set of x by the scheme that a number asks for.
pub fn snow_size_by(
    rule: u32,
    scheme: u32,
    n: u32,
    prefix: &[u32],
    clauses: &[i32],
    classes: &[u32],
    parents: &[u32],
    counts: &[u32],
    x: u32,
    size: &mut u32,
    place: &mut u32,
) -> u32
    ensures told { SizeTold rule (scheme_of scheme) (formula_in n prefix clauses) (rows_in classes parents counts) x size place result }
{
    let answer = forest::set_size(
        rule,
        scheme_in(scheme),
        n,
        prefix,
        clauses,
        classes,
        parents,
        counts,
        Variable(x),
    );
    lay(answer, size, place)
}

// The sets of all universals by the strict scheme: for each universal ascending its number, the count of its set and its set; with the count of
// all entries.
pub fn snow_sets(
    rule: u32,
    n: u32,
    prefix: &[u32],
    clauses: &[i32],
    classes: &[u32],
    parents: &[u32],
    counts: &[u32],
    out: &mut [u32],
    count: &mut u32,
    place: &mut u32,
) -> u32
    ensures told { SetsTold rule Strict (formula_in n prefix clauses) (rows_in classes parents counts) out count place result }
{
    snow_sets_by(
        rule, STRICT, n, prefix, clauses, classes, parents, counts, out, count, place,
    )
}

// The sets of all universals by the scheme that a number asks for, in the same form.
pub fn snow_sets_by(
    rule: u32,
    scheme: u32,
    n: u32,
    prefix: &[u32],
    clauses: &[i32],
    classes: &[u32],
    parents: &[u32],
    counts: &[u32],
    out: &mut [u32],
    count: &mut u32,
    place: &mut u32,
) -> u32
    ensures told { SetsTold rule (scheme_of scheme) (formula_in n prefix clauses) (rows_in classes parents counts) out count place result }
{
    let answer = sets::sets(
        rule,
        scheme_in(scheme),
        n,
        prefix,
        clauses,
        classes,
        parents,
        counts,
        out,
    );
    lay(answer, count, place)
}

// Add a clause: the lent rows become those of the forest with it, and the tally counts it.
pub fn snow_add(
    rule: u32,
    n: u32,
    prefix: &[u32],
    classes: &mut [u32],
    parents: &mut [u32],
    counts: &mut [u32],
    tally: &mut TallyCells,
    clause: &[i32],
    place: &mut u32,
) -> u32
    ensures told { AddTold rule n prefix.now classes parents counts tally clause.now place result }
{
    let lent = tally_in(tally);
    let told = grow::add(rule, n, prefix, classes, parents, counts, lent, clause);
    lay_added(told, tally, place)
}

// Read a text: n, and both tables with the counts of their entries.
pub fn snow_read(
    text: &[u8],
    n: &mut u32,
    prefix: &mut [u32],
    prefix_count: &mut u32,
    clauses: &mut [i32],
    clauses_count: &mut u32,
    place: &mut u32,
) -> u32
    ensures told { ReadTold text.now n prefix prefix_count clauses clauses_count place result }
{
    let answer = text_qdimacs::read(text, prefix, clauses);
    lay_counts(answer, n, prefix_count, clauses_count, place)
}

// Write a text, with the count of its bytes.
pub fn snow_write(
    rule: u32,
    n: u32,
    prefix: &[u32],
    clauses: &[i32],
    text: &mut [u8],
    count: &mut u32,
    place: &mut u32,
) -> u32
    ensures told { WriteTold rule (formula_in n prefix clauses) text count place result }
{
    let answer = text_qdimacs::write(rule, n, prefix, clauses, text);
    lay(answer, count, place)
}
