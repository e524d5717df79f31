// Which universals have another set by a scheme once a clause is added. Sets only grow, so that their sizes tell: those by the clauses and rows as lent,
// and those with the clause put in, each in one pass over all universals. Nothing lent is changed but the output.

#![tactic(auto)]

mod growing;

ghost use Rattle.std.specs.Prelude.{◌≤◌, length};
ghost use Rattle.terms.specs.Answers.{Listing};
ghost use Rattle.terms.specs.Limits.{clause_entries};
ghost use Rattle.formula.specs.Lent.{formula_in};
ghost use Rattle.formula.specs.InnerLevels.{SoundPrefix};
ghost use Rattle.forest_tables.specs.Lent.{rows_in};
ghost use Rattle.grow.specs.Grown.{with_last};
ghost use Rattle.grow_changed.specs.Changed.{Changes, ChangedListed};
ghost use Rattle.grow_changed.specs.InnerChanged.{OverAlike, Fit, behind_changed, behind_added};

use formula::clauses::check_clauses;
use formula_rules::take_prefix;
use grow::checking::tables_verdict;
use grow_refusals::clause::check_added;
use growing::list_changed;
use terms::{Level, Literal, Refusal, Scheme};

// The universals, ascending, whose set by a scheme is another once the clause is added, with their count. The clause has no closing 0.
pub fn changed(
    rule: u32,
    scheme: Scheme,
    n: u32,
    prefix: &[u32],
    clauses: &[i32],
    classes: &[u32],
    parents: &[u32],
    counts: &[u32],
    clause: &[i32],
    out: &mut [u32],
) -> Result<u32, Refusal>
    ensures listed { ChangedListed rule scheme (formula_in n prefix clauses) (rows_in classes parents counts) clause.now
        out.old out.new result }
{
    let mut joined = [0u32; Level::JOINED];
    let read = take_prefix(rule, n, prefix, entries(clauses, clause), &mut joined)?;
    changed_read(
        scheme, n, read, clauses, classes, parents, counts, clause, out,
    )
}

// How many entries the clause table has with the clause and its 0 behind it, or a number over the limit where they are more than it.
fn entries(clauses: &[i32], clause: &[i32]) -> usize
    ensures alike { OverAlike result (length (with_last clauses.now clause.now)) }
{
    if Literal::ENTRIES < clauses.len() {
        return clauses.len();
    }
    if Literal::ENTRIES < clause.len() {
        return clause.len();
    }
    clauses.len() + clause.len() + 1
}

// Lists them by an accepted prefix: the clauses are judged next, and then the clause.
fn changed_read(
    scheme: Scheme,
    n: u32,
    prefix: &[u32],
    clauses: &[i32],
    classes: &[u32],
    parents: &[u32],
    counts: &[u32],
    clause: &[i32],
    out: &mut [u32],
) -> Result<u32, Refusal>
    requires sound { SoundPrefix n prefix.now × (length (with_last clauses.now clause.now) ≤ clause_entries) }
    ensures listed { Listing (behind_changed scheme (formula_in n prefix clauses) (rows_in classes parents counts) clause.now
        out.old)
        (Changes scheme (formula_in n prefix clauses) (rows_in classes parents counts) clause.now) out.old out.new result }
{
    check_clauses(n, clauses)?;
    check_added(n, clause)?;
    changed_sound(
        scheme, n, prefix, clauses, classes, parents, counts, clause, out,
    )
}

// Lists them for clauses that may be put together: the rows are judged next.
fn changed_sound(
    scheme: Scheme,
    n: u32,
    prefix: &[u32],
    clauses: &[i32],
    classes: &[u32],
    parents: &[u32],
    counts: &[u32],
    clause: &[i32],
    out: &mut [u32],
) -> Result<u32, Refusal>
    requires sound { SoundPrefix n prefix.now × Fit n clauses.now clause.now }
    ensures listed { Listing (behind_added scheme (formula_in n prefix clauses) (rows_in classes parents counts) clause.now
        out.old)
        (Changes scheme (formula_in n prefix clauses) (rows_in classes parents counts) clause.now) out.old out.new result }
{
    tables_verdict(n, prefix, classes, parents, counts)?;
    list_changed(scheme, n, prefix, clauses, classes, parents, clause, out)
}
