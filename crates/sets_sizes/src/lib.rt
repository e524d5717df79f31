// The sizes of the sets of all universals by a scheme, in one pass and with no list of any set. A universal costs its own clauses: the size of its set is
// the sum of what its entry points have, each counted once.

#![tactic(auto)]

mod noting;

ghost use Rattle.std.specs.Prelude.{ℕ, ◌+◌, ◌≤◌, ◌≡◌, false, length, get_or};
ghost use Rattle.terms.specs.InnerLimits.{variable_rows};
ghost use Rattle.terms.specs.Limits.{clause_entries};
ghost use Rattle.terms.specs.declared.Scheme.{Scheme as SomeScheme};
ghost use Rattle.formula.specs.InnerLevels.{SoundPrefix};
ghost use Rattle.formula.specs.InnerLookup.{NextZero, SoundClauses};
ghost use Rattle.forest_tables.specs.InnerCounting.{FormedBy};
ghost use Rattle.forest_entries.specs.InnerFlags.{Has, Via};
ghost use Rattle.sets_occurrences.specs.InnerThreads.{Closed, EnteredBy, Tied};
ghost use Rattle.sets_subtrees.specs.InnerRuns.{Within};
ghost use Rattle.sets.specs.InnerPassed.{Ready};
ghost use Rattle.sets_sizes.specs.InnerNotes.{Notes};
ghost use Rattle.sets_sizes.specs.InnerSizes.{under, Weighed, Drained, DrainedOne, TellsSize, Sizes};

use forest_climb::Floor;
use forest_tables::rows::{flag_at, row_of, universal_at};
use formula::clauses::variable_at;
use formula_levels::fill_levels;
use noting::{forget, sole_point};
use sets_occurrences::soles::Several;
use sets_occurrences::{flag_points, thread};
use sets_subtrees::{refloor, row_at};
use terms::pairs::unpack;
use terms::{Level, Literal, Scheme, Variable};

// A pass over all universals among n variables, by a scheme.
#[derive(Clone, Copy)]
struct Pass {
    scheme: Scheme,
    n: u32,
}

// Writes the size of the set of each universal x into row x of a table that holds 0 in every row. The formula is accepted, and the rows are well formed.
// A small clause table takes a short table of links, which is cleared sooner.
pub fn fill_sizes(
    scheme: Scheme,
    n: u32,
    prefix: &[u32],
    clauses: &[i32],
    classes: &[u32],
    parents: &[u32],
    sizes: &mut [u16],
)
    requires sound { SoundPrefix n prefix.now × SoundClauses clauses.now × Closed clauses.now }
    requires formed { FormedBy n prefix.now classes.now parents.now }
    requires zero { (length sizes.old ≡ variable_rows) × ((v : ℕ) → get_or sizes.old v 0 ≡ 0) }
    ensures sized { Sizes scheme n prefix.now clauses.now classes.now parents.now sizes.new n }
{
    let pass = Pass { scheme, n };
    let mut levels = [0u32; Variable::ROWS];
    let mut universals = [false; Variable::ROWS];
    fill_levels(prefix, &mut levels, &mut universals);
    let mut first = [0u32; Variable::ROWS];
    if clauses.len() <= 2048 {
        let mut next = [0u32; 2048];
        thread(clauses, &universals, &mut first, &mut next);
        pass_sizes(
            pass,
            prefix,
            &levels,
            &universals,
            clauses,
            classes,
            parents,
            &first,
            &next,
            sizes,
        );
        return;
    }
    let mut next = [0u32; Literal::ENTRIES];
    thread(clauses, &universals, &mut first, &mut next);
    pass_sizes(
        pass,
        prefix,
        &levels,
        &universals,
        clauses,
        classes,
        parents,
        &first,
        &next,
        sizes,
    );
}

// Passes over all universals, which are tied to their clauses, and writes the size of the set of each. The tops and how many variables have each depend
// only on the block of the universal, and stay while it does.
fn pass_sizes(
    pass: Pass,
    prefix: &[u32],
    levels: &[u32],
    universals: &[bool],
    clauses: &[i32],
    classes: &[u32],
    parents: &[u32],
    first: &[u32],
    next: &[u32],
    sizes: &mut [u16],
)
    requires ready { Ready pass.n prefix.now levels.now universals.now clauses.now classes.now parents.now first.now next.now }
    requires zero { (length sizes.old ≡ variable_rows) × ((v : ℕ) → get_or sizes.old v 0 ≡ 0) × (length clauses.now ≤ clause_entries) }
    ensures sized { Sizes pass.scheme pass.n prefix.now clauses.now classes.now parents.now
        sizes.new pass.n }
{
    let mut tops = [0u32; Variable::MOST as usize];
    let mut lead = [0u32; Variable::ROWS];
    let mut after = [0u32; Variable::ROWS];
    let mut notes = [0u16; Literal::ENTRIES];
    let mut floor = Floor {
        level: Level::new(Level::NONE_DEEPER),
        place: 0,
        from: 0,
    };
    for number in 1..=pass.n {
        let x = Variable::new(number);
        if universal_at(pass.n, universals, x) {
            let old = floor.level;
            floor = refloor(
                pass.n, prefix, levels, classes, parents, floor, x, &mut tops, &mut lead,
                &mut after,
            );
            let level = floor.level;
            forget(old, level, clauses.len(), &mut notes);
            let scheme = pass.scheme;
            let size = size_of(
                scheme, pass.n, clauses, first, next, x, &tops, &lead, &mut notes,
            );
            sizes[number as usize] = size as u16;
        }
    }
}

// The size of the set of the universal x. Most universals have at most one entry point, whose row of `lead` has the size; the sole tops of their clauses
// are noted, and stay while the tops do.
fn size_of(
    scheme: Scheme,
    n: u32,
    clauses: &[i32],
    first: &[u32],
    next: &[u32],
    x: Variable,
    tops: &[u32],
    lead: &[u32],
    notes: &mut [u16],
) -> u32
    requires tied { Tied clauses.now first.now next.now x.0 }
    requires weighed { (n ≤ 4096) × Within n tops.now × Weighed n tops.now lead.now }
    requires notes { Notes n tops.now clauses.now notes.old }
    ensures told { TellsSize scheme n tops.now clauses.now x.0 result }
    ensures noted { Notes n tops.now clauses.now notes.new }
{
    match sole_point(scheme, n, clauses, first, next, x, tops, notes) {
        Ok(None) => 0,
        Ok(Some(top)) => unpack(row_at(lead, top)).high,
        Err(Several) => size_flagged(scheme, n, clauses, first, next, x, tops, lead),
    }
}

// The size of the set of the universal x, whose entry points are flagged first: how many they are does not matter.
fn size_flagged(
    scheme: Scheme,
    n: u32,
    clauses: &[i32],
    first: &[u32],
    next: &[u32],
    x: Variable,
    tops: &[u32],
    lead: &[u32],
) -> u32
    requires tied { Tied clauses.now first.now next.now x.0 }
    requires weighed { (n ≤ 4096) × Within n tops.now × Weighed n tops.now lead.now }
    ensures told { TellsSize scheme n tops.now clauses.now x.0 result }
{
    let mut entered = [false; Variable::ROWS];
    flag_points(scheme, n, clauses, first, next, x, tops, &mut entered);
    drain_along(n, clauses, first, next, x, tops, lead, &mut entered)
}

// Walks along the chain of the universal x, whose entry points are flagged, and sums up what each has; its flag is cleared, so that it counts once.
fn drain_along(
    n: u32,
    clauses: &[i32],
    first: &[u32],
    next: &[u32],
    x: Variable,
    tops: &[u32],
    lead: &[u32],
    flags: &mut [bool],
) -> u32
    requires tied { Tied clauses.now first.now next.now x.0 }
    requires weighed { (n ≤ 4096) × Within n tops.now × Weighed n tops.now lead.now }
    requires entered { (length flags.old ≡ variable_rows) × ((scheme : SomeScheme) × EnteredBy scheme n tops.now clauses.now x.0 flags.old) }
    ensures summed { result ≡ under n tops.now flags.old }
{
    let mut total: u32 = 0;
    let mut at = first[x.0 as usize];
    // A walk along the chain: each row says which entry comes next.
    while at != 0 {
        let row = unpack(next[(at - 1) as usize]);
        at = row.low;
        total += drain_after(n, clauses, row.high as usize, tops, lead, flags);
    }
    total
}

// Sums up what the flagged tops have of the variables of the entries from `start` up to the next 0, and clears their flags.
fn drain_after(
    n: u32,
    clauses: &[i32],
    start: usize,
    tops: &[u32],
    lead: &[u32],
    flags: &mut [bool],
) -> u32
    requires weighed { (n ≤ 4096) × Within n tops.now × Weighed n tops.now lead.now × (get_or flags.old 0 false ≡ false) }
    ensures drained { (z : ℕ) × NextZero clauses.now start z
        × Drained (Via n tops.now (Has clauses.now start z)) flags.old flags.new }
    ensures summed { result + under n tops.now flags.new ≡ under n tops.now flags.old }
{
    let mut total: u32 = 0;
    for i in start..clauses.len() {
        let variable = variable_at(clauses, i);
        if variable.0 == 0 {
            return total;
        }
        let top = row_of(n, tops, variable);
        total += drain(lead, top, flags);
    }
    total
}

// How many variables have the top, if it is flagged, and the flag is cleared; else 0.
fn drain(lead: &[u32], top: Variable, flags: &mut [bool]) -> u32
    ensures drained { DrainedOne lead.now top.0 flags.old flags.new result }
{
    if flag_at(flags, top) {
        flags[top.0 as usize] = false;
        return unpack(row_at(lead, top)).high;
    }
    0
}
