// Distances from y, breadth first along the chains. The distance of a clause is how many clauses a way from it to y has, itself among them; that of a
// variable is one more than the least of its clauses, and that of y is 1. 0 stands for none.

ghost use Rattle.std.specs.Prelude.{ℕ, suc, ◌≤◌, ◌<◌, ◌≡◌, true, ◌≢◌, length};
ghost use Rattle.terms.specs.Limits.{clause_entries};
ghost use Rattle.terms.specs.InnerLimits.{variable_rows};
ghost use Rattle.formula.specs.InnerLookup.{NextZero, SoundClauses};
ghost use Rattle.formula.specs.Meaning.{clauses as Meaning·clauses};
ghost use Rattle.formula.specs.Tables.{at};
ghost use Rattle.forest_entries.specs.InnerFlags.{Has};
ghost use Rattle.forest_tables.specs.InnerRows.{Tells};
ghost use Rattle.sets_occurrences.specs.InnerThreads.{On};
ghost use Rattle.path_explain.specs.InnerTies.{Chain, Cleared, Heading, Holds, Laid, Plain, Tied, owner_at};
ghost use Rattle.path_explain.specs.InnerSearch.{Flag, Kept, Measured, Pushed, Room, Searching, Small, zeros};

use formula::clauses::variable_at;
use terms::Variable;
use terms::pairs::unpack;

// Fills the distances of the clauses and of the variables. Variables wait in a queue, the nearest in front.
pub fn search(
    clauses: &[i32],
    begins: &[u16],
    first: &[u32],
    next: &[u32],
    flags: &[bool],
    y: Variable,
    dists: &mut [u16],
    rows: &mut [u16],
)
    requires tied { Laid clauses.now begins.now × Tied clauses.now first.now next.now }
    requires flagged { (length flags.now ≡ variable_rows) × Flag flags.now y.0 }
    requires cleared { Cleared dists.old clause_entries × Cleared rows.old variable_rows × (zeros rows.old ≡ variable_rows) }
    ensures measured { Measured (Holds clauses.now) (Flag flags.now) y.0 dists.new rows.new
        × Small dists.new }
{
    let mut queue = [0u16; Variable::ROWS];
    rows[y.0 as usize] = 1;
    queue[0] = y.0 as u16;
    let mut tail: usize = 1;
    let mut head: usize = 0;
    // A queue: what is found is put behind it, so that its end moves.
    while head < tail {
        let variable = queue[head] as usize;
        tail = follow(
            clauses,
            begins,
            next,
            flags,
            first[variable],
            rows[variable],
            dists,
            rows,
            &mut queue,
            tail,
        );
        head += 1;
    }
}

// Enters every clause on a chain, that of a variable with the distance `row`. Gives the end of the queue.
fn follow(
    clauses: &[i32],
    begins: &[u16],
    next: &[u32],
    flags: &[bool],
    head: u32,
    row: u16,
    dists: &mut [u16],
    rows: &mut [u16],
    queue: &mut [u16],
    tail: usize,
) -> usize
    requires tied { Laid clauses.now begins.now × Chain clauses.now next.now head × (length flags.now ≡ variable_rows) }
    requires room { Room rows.old queue.old tail × (length dists.old ≡ clause_entries) × (row ≢ 0) × (row ≤ variable_rows) }
    ensures room { Room rows.new queue.new result × Kept dists.old rows.old queue.old tail
        dists.new rows.new queue.new result }
    ensures entered { (p k : ℕ) → On next.now p head → owner_at next.now p ≡ suc k → at dists.new k ≢ 0 }
    ensures searched { (y begin : ℕ) → Searching (Holds clauses.now) (Flag flags.now) y begin row
        dists.old rows.old queue.old tail
        → begin < tail → at rows.old (at queue.old begin) ≡ row
        → Heading clauses.now next.now head (at queue.old begin)
        → Searching (Holds clauses.now) (Flag flags.now) y begin row dists.new rows.new queue.new result }
{
    let mut end = tail;
    let mut at = head;
    // A walk along the chain: the next entry is the one that the row names.
    while at != 0 {
        let pair = unpack(next[(at - 1) as usize]);
        end = enter(
            clauses, begins, flags, pair.high, row, dists, rows, queue, end,
        );
        at = pair.low;
    }
    end
}

// Enters the clause of an owner, if it has no distance yet: it gets one, and its variables are queued. Gives the end of the queue.
fn enter(
    clauses: &[i32],
    begins: &[u16],
    flags: &[bool],
    owner: u32,
    row: u16,
    dists: &mut [u16],
    rows: &mut [u16],
    queue: &mut [u16],
    tail: usize,
) -> usize
    requires laid { Laid clauses.now begins.now × (length flags.now ≡ variable_rows) }
    requires owner { (k : ℕ) × (owner ≡ suc k) × Plain clauses.now k × (k < length (Meaning·clauses clauses.now)) }
    requires room { Room rows.old queue.old tail × (length dists.old ≡ clause_entries) × (row ≢ 0) × (row ≤ variable_rows) }
    ensures room { Room rows.new queue.new result × Kept dists.old rows.old queue.old tail
        dists.new rows.new queue.new result }
    ensures entered { (k : ℕ) → owner ≡ suc k → at dists.new k ≢ 0 }
    ensures searched { (y head k : ℕ) → Searching (Holds clauses.now) (Flag flags.now) y head row
        dists.old rows.old queue.old tail
        → owner ≡ suc k → head < tail → at rows.old (at queue.old head) ≡ row
        → Holds clauses.now k (at queue.old head)
        → Searching (Holds clauses.now) (Flag flags.now) y head row dists.new rows.new queue.new result }
{
    let number = (owner - 1) as usize;
    if dists[number] != 0 {
        return tail;
    }
    dists[number] = row;
    let start = (begins[number] - 1) as usize;
    push(clauses, start, flags, row + 1, rows, queue, tail)
}

// Queues the flagged variables of the clause from `start` on that have no distance yet, and gives them one. Gives the end of the queue.
fn push(
    clauses: &[i32],
    start: usize,
    flags: &[bool],
    row: u16,
    rows: &mut [u16],
    queue: &mut [u16],
    tail: usize,
) -> usize
    requires room { SoundClauses clauses.now × (length flags.now ≡ variable_rows) × Room rows.old queue.old tail × (row ≢ 0) }
    ensures room { Room rows.new queue.new result }
    ensures pushed { (end : ℕ) → NextZero clauses.now start end
        → Pushed (λ v. Has clauses.now start end v × Flag flags.now v) row
        rows.old queue.old tail rows.new queue.new result }
{
    let mut end = tail;
    for i in start..clauses.len() {
        let variable = variable_at(clauses, i);
        if variable.0 == 0 {
            return end;
        }
        let at = variable.0 as usize;
        if is_new(flags[at], rows[at]) {
            rows[at] = row;
            queue[end] = at as u16;
            end += 1;
        }
    }
    end
}

// Whether a variable is flagged and has no distance.
fn is_new(flag: bool, row: u16) -> bool
    ensures told { Tells result ((flag ≡ true) × (row ≡ 0)) }
{
    flag && row == 0
}
