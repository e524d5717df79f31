// A formula that was read, loaded or expanded: its variable count, and the counts of the entries of its tables.

ghost use Rattle.std.specs.Prelude.{◌≡◌};
ghost use Rattle.c_answers.specs.Codes.{tells_sets};
ghost use Rattle.c_answers.specs.InnerCells.{Fits, ThreeLaid, FourLaid};
ghost use Rattle.c_answers.specs.InnerFormulas.{TwoInCells, ThreeInCells, LoadedInCells};
ghost use Rattle.c_answers.specs.InnerFormulas.{counts_said, listed_said, loaded_cells};

use crate::lay_refusal;
use terms::{Counts, ListedCounts, Loaded, Refusal};

// What was read from a text, or what expanding gave.
pub fn lay_counts(
    answer: Result<Counts, Refusal>,
    n: &mut u32,
    prefix_count: &mut u32,
    clauses_count: &mut u32,
    place: &mut u32,
) -> u32
    requires fits { Fits TwoInCells (counts_said answer) }
    ensures laid { ThreeLaid (counts_said answer) n prefix_count clauses_count place result }
{
    match answer {
        Ok(formula) => {
            *n = formula.n;
            *prefix_count = formula.prefix as u32;
            *clauses_count = formula.clauses as u32;
            0
        }
        Err(refusal) => lay_refusal(refusal, place),
    }
}

// What was read from a text with dependency lists.
pub fn lay_listed(
    answer: Result<ListedCounts, Refusal>,
    n: &mut u32,
    prefix_count: &mut u32,
    clauses_count: &mut u32,
    lists_count: &mut u32,
    place: &mut u32,
) -> u32
    requires fits { Fits ThreeInCells (listed_said answer) }
    ensures laid { FourLaid (listed_said answer) n prefix_count clauses_count lists_count place result }
{
    match answer {
        Ok(counts) => {
            *n = counts.n;
            *prefix_count = counts.prefix as u32;
            *clauses_count = counts.clauses as u32;
            *lists_count = counts.lists as u32;
            0
        }
        Err(refusal) => lay_refusal(refusal, place),
    }
}

// The number that tells whether sets are there.
fn sets_told(there: bool) -> u32
    ensures told { result ≡ tells_sets there }
{
    if there { 1 } else { 0 }
}

// What was loaded from a file, and whether the file has sets.
pub fn lay_loaded(
    answer: Result<Loaded, Refusal>,
    n: &mut u32,
    prefix_count: &mut u32,
    clauses_count: &mut u32,
    with_sets: &mut u32,
    place: &mut u32,
) -> u32
    requires fits { Fits LoadedInCells (loaded_cells answer) }
    ensures laid { FourLaid (loaded_cells answer) n prefix_count clauses_count with_sets place result }
{
    match answer {
        Ok(held) => {
            *n = held.n;
            *prefix_count = held.prefix as u32;
            *clauses_count = held.clauses as u32;
            *with_sets = sets_told(held.sets);
            0
        }
        Err(refusal) => lay_refusal(refusal, place),
    }
}
