// Add with the tally lent by `&mut` (rule 18.6), as a caller keeps it beside the forest: its value is passed on, and what comes back is stored.

ghost use Rattle.grow.specs.Grown.{standing_in, standing_out, Adds};

use terms::{Refusal, Tally};

// Rewrites the lent rows of 1 to n to the forest of the tables' joins with a clause added and to its counts, takes the clause in the lent tally, and gives
// n as the count. The clause has no closing 0.
pub fn add(
    rule: u32,
    n: u32,
    prefix: &[u32],
    classes: &mut [u32],
    parents: &mut [u32],
    counts: &mut [u32],
    tally: &mut Tally,
    clause: &[i32],
) -> Result<u32, Refusal>
    ensures added { Adds rule n prefix.now (standing_in classes parents counts tally.old) clause.now
        (standing_out classes parents counts tally.new) result }
{
    let done = crate::add(rule, n, prefix, classes, parents, counts, *tally, clause);
    *tally = done.tally;
    done.answer
}
