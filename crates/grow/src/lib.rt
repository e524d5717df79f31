// Build and add, under a reading rule: the forest of a formula, and of tables with a clause added, each with its counts and the tally beside it, which
// is passed by value; `lent` has add with the tally lent.

#![tactic(auto)]

mod adding;
pub mod building;
pub mod checking;
pub mod lent;

ghost use Rattle.std.specs.Prelude.{◌≡◌, Ok, Err};
ghost use Rattle.formula.specs.Lent.{formula_in};
ghost use Rattle.grow.specs.Grown.{standing_in, standing_out, Builds, Adds};

use adding::add_read;
use building::build_read;
use formula_rules::{take_formula, take_prefix};
use terms::{Level, Refusal, Tallied, Tally};

// Fills the lent rows of 1 to n with the forest of a formula and its counts, and gives n as the count and the tally of its list. The tally before is
// passed in, since a refusal gives it back.
pub fn build(
    rule: u32,
    n: u32,
    prefix: &[u32],
    clauses: &[i32],
    classes: &mut [u32],
    parents: &mut [u32],
    counts: &mut [u32],
    tally: Tally,
) -> Tallied
    ensures built { Builds rule (formula_in n prefix clauses) (standing_in classes parents counts tally)
        (standing_out classes parents counts result.tally) result.answer }
{
    let mut joined = [0u32; Level::JOINED];
    match take_formula(rule, n, prefix, clauses, &mut joined) {
        Err(refusal) => refused(refusal, tally),
        Ok(read) => build_read(n, read, clauses, classes, parents, counts, tally),
    }
}

// Rewrites the lent rows of 1 to n to the forest of the tables' joins with a clause added and to its counts, takes the clause in the tally, and gives n as
// the count. The clause has no closing 0.
pub fn add(
    rule: u32,
    n: u32,
    prefix: &[u32],
    classes: &mut [u32],
    parents: &mut [u32],
    counts: &mut [u32],
    tally: Tally,
    clause: &[i32],
) -> Tallied
    ensures added { Adds rule n prefix.now (standing_in classes parents counts tally) clause.now
        (standing_out classes parents counts result.tally) result.answer }
{
    let mut joined = [0u32; Level::JOINED];
    match take_prefix(rule, n, prefix, clause.len(), &mut joined) {
        Err(refusal) => refused(refusal, tally),
        Ok(read) => add_read(n, read, classes, parents, counts, tally, clause),
    }
}

// A refusal, which leaves the tally.
fn refused(refusal: Refusal, tally: Tally) -> Tallied
    ensures refused { (result.answer ≡ Err refusal) × (result.tally ≡ tally) }
{
    let answer = Err(refusal);
    Tallied { answer, tally }
}

// A count, with the tally that is given.
fn counted(n: u32, tally: Tally) -> Tallied
    ensures counted { (result.answer ≡ Ok n) × (result.tally ≡ tally) }
{
    let answer = Ok(n);
    Tallied { answer, tally }
}
