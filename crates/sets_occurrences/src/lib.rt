// Occurrence lists, here called chains: for each universal the clauses that have it, so that its entry points are found without a scan of all
// clauses. A chain holds one entry of each such clause, the last clause first; k + 1 stands for entry k, and 0 ends it. Row x of `first` is the head
// of the chain of x. The row of an entry in `next` packs two numbers: what comes after it on the chain, and the entry that its clause begins with.

#![tactic(auto)]

pub mod soles;

ghost use Rattle.std.specs.Prelude.{ℕ, ◌+◌, ◌≤◌, ◌<◌, ◌≡◌, Bool, false, cond, ◌&&◌, List, eqb, length, get_or};
ghost use Rattle.terms.specs.Literals.{variable_of};
ghost use Rattle.terms.specs.Limits.{clause_entries};
ghost use Rattle.formula.specs.Tables.{literal_at};
ghost use Rattle.formula.specs.InnerLookup.{SoundClauses};
ghost use Rattle.terms.specs.declared.Scheme.TheVariants.{Strict};
ghost use Rattle.forest_entries.specs.InnerFlags.{By, Flagged, Via, Blank};
ghost use Rattle.sets_occurrences.specs.InnerThreads.{Inside, Connecting, Skipping, Recalled, Covered, marked, Gathered, Together, EnteredBy, Common, Threaded, Tied};

use forest_entries::{Signs, flag_after, has_sign, side_of};
use formula::clauses::{literal_at, next_zero, variable_at};
use formula::truth::always_true;
use terms::pairs::{pack, unpack};
use terms::{Literal, Scheme, Variable};

// Builds the chains of all universals, clauses that are always true left out. A small clause table takes short tables, which are cleared sooner.
pub fn thread(clauses: &[i32], universals: &[bool], first: &mut [u32], next: &mut [u32])
    requires sound { SoundClauses clauses.now × (length universals.now ≤ length first.old) × (length clauses.now ≤ length next.old)
        × ((x : ℕ) → get_or first.old x 0 ≡ 0) × Covered clauses.now universals.now }
    ensures threaded { Threaded clauses.now universals.now first.new next.new
        (length clauses.now) }
{
    if clauses.len() <= 2048 {
        let mut places = [0u16; 2048];
        let mut starts = [0u16; 2048];
        thread_by(clauses, universals, &mut places, &mut starts, first, next);
        return;
    }
    let mut places = [0u16; Literal::ENTRIES];
    let mut starts = [0u16; Literal::ENTRIES];
    thread_by(clauses, universals, &mut places, &mut starts, first, next);
}

// Builds them by way of two tables with a row for each entry: the entries of universals are gathered in one pass and put on their chains in another.
fn thread_by(
    clauses: &[i32],
    universals: &[bool],
    places: &mut [u16],
    starts: &mut [u16],
    first: &mut [u32],
    next: &mut [u32],
)
    requires sound { SoundClauses clauses.now × (length universals.now ≤ length first.old) × (length clauses.now ≤ length next.old)
        × ((x : ℕ) → get_or first.old x 0 ≡ 0) × (length clauses.now ≤ length places.old) × (length clauses.now ≤ length starts.old)
        × Covered clauses.now universals.now }
    ensures threaded { Threaded clauses.now universals.now first.new next.new
        (length clauses.now) }
{
    let count = gather(clauses, universals, places, starts);
    tie_places(clauses, places, starts, count, first, next);
}

// Writes the entries of all universals, ascending, and beside each the entry that its clause begins with; gives their count. The loop is branch-free,
// since a processor cannot predict which entries are universals: every entry is stored, and only that of a universal is counted.
fn gather(clauses: &[i32], universals: &[bool], places: &mut [u16], starts: &mut [u16]) -> usize
    requires sound { SoundClauses clauses.now × (length clauses.now ≤ length places.old) × (length clauses.now ≤ length starts.old)
        × Covered clauses.now universals.now }
    ensures gathered { Gathered clauses.now universals.now places.new starts.new result
        (length clauses.now) }
{
    let mut count: usize = 0;
    let mut start: usize = 0;
    for i in 0..clauses.len() {
        places[count] = i as u16;
        starts[count] = start as u16;
        let variable = variable_at(clauses, i);
        count += counted(universals, variable);
        start = begun(variable, start, i + 1);
    }
    count
}

// What the entry of a variable counts: 1 if that is a universal, else 0; the 0 of a clause has no flag.
fn counted(universals: &[bool], variable: Variable) -> usize
    requires covered { (variable.0 < length universals.now) × (get_or universals.now 0 false ≡ false) }
    ensures counted { result ≡ cond (marked universals.now variable.0) 1 0 }
{
    usize::from(universals[variable.0 as usize])
}

// Where the clause of the next entry begins: with that entry behind a 0, else where the clause of this entry does.
fn begun(variable: Variable, start: usize, next: usize) -> usize
    ensures begun { result ≡ cond (eqb variable.0 0) next start }
{
    if variable.0 == 0 { next } else { start }
}

// Puts the gathered entries in turn in front of the chains of their variables. Whether a clause is always true is told at its first such entry.
fn tie_places(
    clauses: &[i32],
    places: &[u16],
    starts: &[u16],
    count: usize,
    first: &mut [u32],
    next: &mut [u32],
)
    requires sound { SoundClauses clauses.now × (length clauses.now ≤ length next.old) × ((x : ℕ) → get_or first.old x 0 ≡ 0) }
    requires gathered { (count ≤ length places.now) × (count ≤ length starts.now)
        × ((universals : List Bool) × (length universals ≤ length first.old)
        × Gathered clauses.now universals places.now starts.now count (length clauses.now)) }
    ensures threaded { (universals : List Bool)
        → Gathered clauses.now universals places.now starts.now count (length clauses.now)
        → Threaded clauses.now universals first.new next.new (length clauses.now) }
{
    let mut seen = [0u16; Literal::ROWS];
    let mut skip = false;
    let mut judged = clauses.len();
    for j in 0..count {
        let start = starts[j] as usize;
        skip = is_true(clauses, start, judged, skip, &mut seen);
        judged = start;
        if !skip {
            note(clauses, start, places[j] as usize, first, next);
        }
    }
}

// Whether the clause from `start` on is always true. `judged` is where the clause judged last begins, and `skip` is what was told of it.
fn is_true(clauses: &[i32], start: usize, judged: usize, skip: bool, seen: &mut [u16]) -> bool
    requires recalled { SoundClauses clauses.now × (start ≤ length clauses.now) × Recalled clauses.now start judged skip seen.old }
    ensures told { Skipping clauses.now start result seen.new }
{
    if start == judged {
        return skip;
    }
    let end = next_zero(clauses, start);
    let stamp = (end + 1) as u16;
    always_true(&clauses[start..end], seen, stamp)
}

// Puts entry i, of the clause that begins with `start`, in front of the chain of its variable, if that has no entry of this clause yet.
fn note(clauses: &[i32], start: usize, i: usize, first: &mut [u32], next: &mut [u32])
    requires inside { (i < clause_entries) × (variable_of (literal_at clauses.now i) < length first.old) × (i < length next.old)
        × Inside clauses.now start i × Connecting clauses.now start }
    ensures threaded { (universals : List Bool) → Threaded clauses.now universals first.old next.old i
        → Threaded clauses.now universals first.new next.new (i + 1) }
{
    let variable = variable_at(clauses, i);
    let at = variable.0 as usize;
    let last = first[at];
    if start < last as usize {
        return;
    }
    next[i] = pack(last, start as u32);
    first[at] = (i + 1) as u32;
}

// Flags the entry points of the universal x by a scheme, found along its chain, in a table with no flag set: the tops that it takes of the
// variables that share a clause with x.
pub fn flag_points(
    scheme: Scheme,
    n: u32,
    clauses: &[i32],
    first: &[u32],
    next: &[u32],
    x: Variable,
    tops: &[u32],
    flags: &mut [bool],
)
    requires tied { Tied clauses.now first.now next.now x.0 × Blank flags.old }
    ensures entered { EnteredBy scheme n tops.now clauses.now x.0 flags.new }
{
    match scheme {
        Scheme::Standard => flag_along(Signs::Either, n, clauses, first, next, x, tops, flags),
        Scheme::Strict => flag_both(n, clauses, first, next, x, tops, flags),
    }
}

// Flags the tops that both signs of x have. The rows of `tops` stay, since the universals of a block share them; so each sign has flags of its own.
fn flag_both(
    n: u32,
    clauses: &[i32],
    first: &[u32],
    next: &[u32],
    x: Variable,
    tops: &[u32],
    flags: &mut [bool],
)
    requires tied { Tied clauses.now first.now next.now x.0 × Blank flags.old }
    ensures entered { EnteredBy Strict n tops.now clauses.now x.0 flags.new }
{
    let mut positive = [false; Variable::ROWS];
    flag_along(
        Signs::Positive,
        n,
        clauses,
        first,
        next,
        x,
        tops,
        &mut positive,
    );
    flag_along(Signs::Negative, n, clauses, first, next, x, tops, flags);
    keep_common(&positive, flags);
}

// Clears every flag that the other table does not have. Every row is stored, branch-free, so that several are done at once.
fn keep_common(other: &[bool], flags: &mut [bool])
    requires enough { length flags.old ≤ length other.now }
    ensures common { Common other.now flags.old flags.new }
{
    for (i, flag) in flags.iter_mut().enumerate() {
        *flag &= other[i];
    }
}

// Flags the tops of the variables that share a clause with the universal x, where it has one of the signs, along its chain.
fn flag_along(
    signs: Signs,
    n: u32,
    clauses: &[i32],
    first: &[u32],
    next: &[u32],
    x: Variable,
    tops: &[u32],
    flags: &mut [bool],
)
    requires tied { Tied clauses.now first.now next.now x.0 }
    ensures flagged { Flagged (Via n tops.now (λ y. By signs (λ sign. Together clauses.now sign x.0 y)))
        flags.old flags.new }
{
    let mut at = first[x.0 as usize];
    // A walk along the chain: each row says which entry comes next.
    while at != 0 {
        let entry = (at - 1) as usize;
        let row = unpack(next[entry]);
        at = row.low;
        let side = side_of(literal_at(clauses, entry));
        if has_sign(signs, side) {
            flag_after(n, clauses, row.high as usize, tops, flags);
        }
    }
}
