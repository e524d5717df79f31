// The sole entry point of a universal, found along its chain with the sole top of each clause noted: a long clause is looked through once for each block of
// universals, and not once for each universal that it has. Row s of `notes` is for the clause that begins with entry s: 0 for none noted, 1 for no top,
// t + 1 for the sole top t, and SEVERAL for several tops.

ghost use Rattle.std.specs.Prelude.{ℕ, ◌≤◌, ◌<◌, ◌≡◌, ◌⊎◌, ◌≢◌, length, get_or};
ghost use Rattle.formula.specs.InnerLookup.{NextZero};
ghost use Rattle.forest_entries.specs.InnerFlags.{Has, By, Takes, Via};
ghost use Rattle.sets_occurrences.specs.InnerThreads.{Together, Tied};
ghost use Rattle.sets_occurrences.specs.InnerSoleTops.{Names, SoleOf};
ghost use Rattle.sets_subtrees.specs.InnerRuns.{Within};
ghost use Rattle.sets_sizes.specs.InnerNotes.{SmallSole, NoteOf, NoteIs, Notes, CommonOf};

use forest_entries::{Signs, has_sign, side_of};
use formula::clauses::literal_at;
use sets_occurrences::soles::{Several, join, same, sole_after};
use terms::pairs::unpack;
use terms::{Level, Scheme, Variable};

// The note of a clause with several tops.
const SEVERAL: u16 = 65535;

// The sole entry point of the universal x by a scheme: of the tops of the variables that share a clause with x, the one that the scheme takes.
pub fn sole_point(
    scheme: Scheme,
    n: u32,
    clauses: &[i32],
    first: &[u32],
    next: &[u32],
    x: Variable,
    tops: &[u32],
    notes: &mut [u16],
) -> Result<Option<Variable>, Several>
    requires tied { Tied clauses.now first.now next.now x.0 }
    requires notes { (n ≤ 4096) × Within n tops.now × Notes n tops.now clauses.now notes.old }
    ensures sole { SoleOf result (λ e. Takes scheme (λ sign. Via n tops.now (Together clauses.now sign x.0) e)) }
    ensures noted { Notes n tops.now clauses.now notes.new }
{
    match scheme {
        Scheme::Standard => sole_along(Signs::Either, n, clauses, first, next, x, tops, notes),
        Scheme::Strict => {
            let one = sole_along(Signs::Positive, n, clauses, first, next, x, tops, notes);
            let other = sole_along(Signs::Negative, n, clauses, first, next, x, tops, notes);
            common(one, other)
        }
    }
}

// The sole top of what two have in common. Where one of them has none there is none, whatever the other has.
fn common(
    one: Result<Option<Variable>, Several>,
    other: Result<Option<Variable>, Several>,
) -> Result<Option<Variable>, Several>
    ensures common { CommonOf result one other }
{
    match (one, other) {
        (Ok(None), _) | (_, Ok(None)) => Ok(None),
        (Ok(top), Ok(second)) => Ok(same(top, second)),
        (Err(Several), _) | (_, Err(Several)) => Err(Several),
    }
}

// The sole top of the variables that share a clause with the universal x, where it has one of the signs, along its chain.
fn sole_along(
    signs: Signs,
    n: u32,
    clauses: &[i32],
    first: &[u32],
    next: &[u32],
    x: Variable,
    tops: &[u32],
    notes: &mut [u16],
) -> Result<Option<Variable>, Several>
    requires tied { Tied clauses.now first.now next.now x.0 }
    requires notes { (n ≤ 4096) × Within n tops.now × Notes n tops.now clauses.now notes.old }
    ensures sole { SoleOf result (Via n tops.now (λ y. By signs (λ sign. Together clauses.now sign x.0 y))) }
    ensures noted { Notes n tops.now clauses.now notes.new }
{
    let mut sole = None;
    let mut at = first[x.0 as usize];
    // A walk along the chain: each row says which entry comes next.
    while at != 0 {
        let entry = (at - 1) as usize;
        let row = unpack(next[entry]);
        at = row.low;
        let side = side_of(literal_at(clauses, entry));
        if has_sign(signs, side) {
            sole = clause_top(n, clauses, row.high as usize, tops, sole, notes)?;
        }
    }
    Ok(sole)
}

// The sole top of the clause that begins with `start`, together with `before`.
fn clause_top(
    n: u32,
    clauses: &[i32],
    start: usize,
    tops: &[u32],
    before: Option<Variable>,
    notes: &mut [u16],
) -> Result<Option<Variable>, Several>
    requires notes { (n ≤ 4096) × Within n tops.now × (start < length clauses.now) × Notes n tops.now clauses.now notes.old }
    ensures sole { (z : ℕ) → NextZero clauses.now start z
        → SoleOf result (λ e. Names before e ⊎ Via n tops.now (Has clauses.now start z) e) }
    ensures noted { Notes n tops.now clauses.now notes.new }
{
    let note = noted(n, clauses, start, tops, notes);
    join(before, sole_in(note)?)
}

// The note of the clause that begins with `start`, which is made if there is none yet.
fn noted(n: u32, clauses: &[i32], start: usize, tops: &[u32], notes: &mut [u16]) -> u16
    requires notes { (n ≤ 4096) × Within n tops.now × (start < length clauses.now) × Notes n tops.now clauses.now notes.old }
    ensures note { NoteIs n tops.now clauses.now start result }
    ensures noted { Notes n tops.now clauses.now notes.new }
{
    let old = notes[start];
    if old != 0 {
        return old;
    }
    let note = note_of(sole_after(n, clauses, start, tops, None));
    notes[start] = note;
    note
}

// The note of a sole top, or of several.
fn note_of(sole: Result<Option<Variable>, Several>) -> u16
    requires small { SmallSole sole }
    ensures note { NoteOf result sole × (result ≢ 0) }
{
    match sole {
        Ok(None) => 1,
        Ok(Some(top)) => (top.0 + 1) as u16,
        Err(Several) => SEVERAL,
    }
}

// What a note says.
fn sole_in(note: u16) -> Result<Option<Variable>, Several>
    requires some { note ≢ 0 }
    ensures said { NoteOf note result }
{
    match note {
        SEVERAL => Err(Several),
        1 => Ok(None),
        _ => Ok(Some(Variable::new(note as u32 - 1))),
    }
}

// Forgets the notes of so many entries, if the tops are over another level than that which they were over.
pub fn forget(old: Level, new: Level, count: usize, notes: &mut [u16])
    requires room { count ≤ length notes.old }
    ensures stays { old.0 ≡ new.0 → notes.new ≡ notes.old }
    ensures gone { old.0 ≢ new.0 → (e : ℕ) → e < count → get_or notes.new e 0 ≡ 0 }
{
    if old != new {
        notes[..count].fill(0);
    }
}
