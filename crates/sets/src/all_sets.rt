// The sets of all universals by a scheme, one after the other, each with its number and its count in front. The tables are judged once, and a
// universal costs its own clauses and its own set, and one pass over the rows if it has more than one entry point.

ghost use Rattle.std.specs.Prelude.{ℕ, ◌≤◌, ◌≡◌, Bool, true, List, length};
ghost use Rattle.formula.specs.Meaning.{level};
ghost use Rattle.formula.specs.InnerLevels.{SoundPrefix, Levelled};
ghost use Rattle.formula.specs.InnerLookup.{SoundClauses};
ghost use Rattle.forest_tables.specs.InnerCounting.{FormedBy};
ghost use Rattle.sets_subtrees.specs.InnerRuns.{Floored};
ghost use Rattle.sets_record.specs.InnerPlaces.{Placed};
ghost use Rattle.sets_occurrences.specs.InnerThreads.{Closed};
ghost use Rattle.sets.specs.InnerPassed.{SetsUpto, Ready, RoomUpto, TellsRoom, PutAll, Fills};

use forest_climb::{Floor, clear_rows};
use forest_tables::rows::universal_at;
use sets_occurrences::thread;
use sets_record::{Draft, put_set};
use terms::{Fault, Level, Literal, Refusal, Scheme, Variable};

// A pass over all universals among n variables: by which scheme, and whether it writes their sets or only counts.
#[derive(Clone, Copy)]
struct Pass {
    scheme: Scheme,
    n: u32,
    writing: bool,
}

// A universal x among n variables that a pass comes to, with the floor that the tops were over until then.
#[derive(Clone, Copy)]
struct Visit {
    n: u32,
    x: Variable,
    was: Floor,
}

// Writes the sets of all universals into the front of `out`, if there is room for all of them. A small clause table takes a short table of links,
// which is cleared sooner.
pub fn list_sets(
    scheme: Scheme,
    n: u32,
    prefix: &[u32],
    levels: &[u32],
    universals: &[bool],
    clauses: &[i32],
    classes: &[u32],
    parents: &[u32],
    out: &mut [u32],
) -> Result<u32, Refusal>
    requires sound { SoundPrefix n prefix.now × Levelled prefix.now levels.now universals.now × SoundClauses clauses.now
        × Closed clauses.now × FormedBy n prefix.now classes.now parents.now }
    ensures listed { Fills (SetsUpto scheme n prefix.now clauses.now classes.now parents.now n)
        out.old out.new result }
{
    let pass = Pass {
        scheme,
        n,
        writing: true,
    };
    let mut first = [0u32; Variable::ROWS];
    if clauses.len() <= 2048 {
        let mut next = [0u32; 2048];
        thread(clauses, universals, &mut first, &mut next);
        return write_fitting(
            pass, prefix, levels, universals, clauses, classes, parents, &first, &next, out,
        );
    }
    let mut next = [0u32; Literal::ENTRIES];
    thread(clauses, universals, &mut first, &mut next);
    write_fitting(
        pass, prefix, levels, universals, clauses, classes, parents, &first, &next, out,
    )
}

// Writes the sets of all universals, which are tied to their clauses, if there is room for all of them.
fn write_fitting(
    pass: Pass,
    prefix: &[u32],
    levels: &[u32],
    universals: &[bool],
    clauses: &[i32],
    classes: &[u32],
    parents: &[u32],
    first: &[u32],
    next: &[u32],
    out: &mut [u32],
) -> Result<u32, Refusal>
    requires ready { Ready pass.n prefix.now levels.now universals.now clauses.now classes.now parents.now first.now next.now }
    requires writing { pass.writing ≡ true }
    ensures listed { Fills (SetsUpto pass.scheme pass.n prefix.now clauses.now classes.now
        parents.now pass.n) out.old out.new result }
{
    if !sets_fit(
        pass, prefix, levels, universals, clauses, classes, parents, first, next, out,
    ) {
        return Err(Refusal(Fault::TooLittleRoom, 0));
    }
    let end = pass_sets(
        pass, prefix, levels, universals, clauses, classes, parents, first, next, out,
    );
    Ok(end as u32)
}

// Whether there is room for all sets that a pass writes. They are counted only where there is room for less than n records of n members each.
fn sets_fit(
    pass: Pass,
    prefix: &[u32],
    levels: &[u32],
    universals: &[bool],
    clauses: &[i32],
    classes: &[u32],
    parents: &[u32],
    first: &[u32],
    next: &[u32],
    out: &mut [u32],
) -> bool
    requires ready { Ready pass.n prefix.now levels.now universals.now clauses.now classes.now parents.now first.now next.now }
    ensures told { TellsRoom result (SetsUpto pass.scheme pass.n prefix.now clauses.now classes.now
        parents.now) pass.n (length out.old) }
    ensures kept { out.new ≡ out.old }
{
    let count = pass.n as usize;
    if count * (count + 2) <= out.len() {
        return true;
    }
    let scheme = pass.scheme;
    let counting = Pass {
        scheme,
        n: pass.n,
        writing: false,
    };
    let needed = pass_sets(
        counting, prefix, levels, universals, clauses, classes, parents, first, next, out,
    );
    needed <= out.len()
}

// Passes over all universals in ascending order and writes their sets, or only counts; gives the count of all entries. The tops, their runs and the
// places of their sets depend only on the block of the universal, and stay while it does. At first the floor is a level that nothing is deeper than,
// so that there are no tops.
fn pass_sets(
    pass: Pass,
    prefix: &[u32],
    levels: &[u32],
    universals: &[bool],
    clauses: &[i32],
    classes: &[u32],
    parents: &[u32],
    first: &[u32],
    next: &[u32],
    out: &mut [u32],
) -> usize
    requires ready { Ready pass.n prefix.now levels.now universals.now clauses.now classes.now parents.now first.now next.now }
    requires room { pass.writing ≡ true → RoomUpto (SetsUpto pass.scheme pass.n prefix.now clauses.now classes.now parents.now)
        pass.n (length out.old) }
    ensures put { PutAll (SetsUpto pass.scheme pass.n prefix.now clauses.now classes.now
        parents.now pass.n) pass.writing out.old out.new result }
{
    let mut tops = [0u32; Variable::MOST as usize];
    let mut lead = [0u32; Variable::ROWS];
    let mut after = [0u32; Variable::ROWS];
    let mut places = [0u32; Variable::ROWS];
    let mut floor = Floor {
        level: Level::new(Level::NONE_DEEPER),
        place: 0,
        from: 0,
    };
    let mut end: usize = 0;
    for number in 1..=pass.n {
        let x = Variable::new(number);
        if universal_at(pass.n, universals, x) {
            let visit = Visit {
                n: pass.n,
                x,
                was: floor,
            };
            floor = refloor(
                visit,
                prefix,
                levels,
                classes,
                parents,
                &mut tops,
                &mut lead,
                &mut after,
                &mut places,
            );
            let scheme = pass.scheme;
            let draft = Draft {
                scheme,
                n: pass.n,
                x,
                from: floor.from,
                at: end,
                writing: pass.writing,
            };
            end = put_set(
                draft,
                clauses,
                first,
                next,
                &tops,
                &lead,
                &after,
                &mut places,
                out,
            );
        }
    }
    end
}

// Refills the tops, links their runs anew and clears the places of their sets, if the level of x is another than that which they are over; gives the
// floor that they are over now.
fn refloor(
    visit: Visit,
    prefix: &[u32],
    levels: &[u32],
    classes: &[u32],
    parents: &[u32],
    tops: &mut [u32],
    lead: &mut [u32],
    after: &mut [u32],
    places: &mut [u32],
) -> Floor
    requires sound { SoundPrefix visit.n prefix.now × FormedBy visit.n prefix.now classes.now parents.now × (visit.x.0 ≤ 4096)
        × ((universals : List Bool) × Levelled prefix.now levels.now universals) }
    requires floored { Floored visit.n prefix.now classes.now parents.now visit.was.level.0 visit.was.place visit.was.from
        tops.old lead.old after.old × (length places.old ≡ 4097) }
    ensures floored { Floored visit.n prefix.now classes.now parents.now result.level.0 result.place result.from
        tops.new lead.new after.new }
    ensures own { result.level.0 ≡ level prefix.now visit.x.0 }
    ensures placed { (out : List ℕ) (end : ℕ) → Placed visit.n tops.old places.old out end
        → Placed visit.n tops.new places.new out end }
{
    let x = visit.x;
    let was = visit.was;
    let floor = sets_subtrees::refloor(
        visit.n, prefix, levels, classes, parents, was, x, tops, lead, after,
    );
    if was.level != floor.level {
        clear_rows(visit.n + 1, places);
    }
    floor
}
