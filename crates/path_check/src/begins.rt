// Where each clause begins, so that a path finds its clauses by their numbers.

ghost use Rattle.std.specs.Prelude.{◌+◌, ◌<◌, ◌≡◌, length};
ghost use Rattle.terms.specs.Limits.{clause_entries};
ghost use Rattle.formula.specs.InnerLookup.{NextZero, SoundClauses, Stamps};
ghost use Rattle.formula.specs.Meaning.{clauses as Meaning·clauses};
ghost use Rattle.forest_tables.specs.InnerRows.{Tells};
ghost use Rattle.path_check.specs.Causes.{NumberOver};
ghost use Rattle.path_check.specs.InnerWalk.{Rows, RowOf};

use formula::clauses::next_zero;
use formula::truth::always_true;
use terms::Literal;

// Fills the row of each clause: 0 where it is always true, and else one more than the entry with which it begins. Gives the count of the clauses.
pub fn fill_begins(clauses: &[i32], begins: &mut [u16]) -> usize
    requires room { SoundClauses clauses.now × (length begins.old ≡ clause_entries) }
    ensures filled { (result ≡ length (Meaning·clauses clauses.now)) × Rows clauses.now begins.new result }
{
    let mut seen = [0u16; Literal::ROWS];
    let mut count = 0;
    let mut start = 0;
    // The next clause begins behind the 0 that closes this one.
    while start < clauses.len() {
        let end = next_zero(clauses, start);
        if clauses.len() <= end {
            return count;
        }
        begins[count] = row_of(clauses, start, end, &mut seen);
        count += 1;
        start = end + 1;
    }
    count
}

// The row of the clause from start up to end. `seen` has a stamp for each literal, by which an always-true clause is told.
fn row_of(clauses: &[i32], start: usize, end: usize, seen: &mut [u16]) -> u16
    requires there { SoundClauses clauses.now × NextZero clauses.now start end × (end < length clauses.now) × Stamps seen.old (start + 1) }
    ensures own { RowOf clauses.now start end result × Stamps seen.new (end + 1 + 1) }
{
    let stamp = (end + 1) as u16;
    if always_true(&clauses[start..end], seen, stamp) {
        return 0;
    }
    (start + 1) as u16
}

// Whether some entry of a path is not below the count of the clauses.
pub fn some_over(path: &[u32], count: usize) -> bool
    ensures told { Tells result (NumberOver count path.now) }
{
    path.iter().any(|&number| count <= number as usize)
}
