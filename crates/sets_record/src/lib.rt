// The record of one universal: its number, the count of its set, and its set, written or only counted. Row t of `places` is the entry of `out` where
// the set of the top t stands already, 0 for nowhere: a copy takes less time than a walk along the run.

#![tactic(auto)]

ghost use Rattle.std.specs.Prelude.{ℕ, ◌+◌, ◌-◌, ◌≤◌, ◌<◌, ◌≡◌, true, false, List, [], ◌≢◌, length, get_or, set};
ghost use Rattle.std.proofs.lemmas.List.Edits.{sets};
ghost use Rattle.forest_members.specs.declared.Asked.TheVariants.{Set};
ghost use Rattle.forest_members.specs.InnerPicked.{pick, picked, NoneUpto};
ghost use Rattle.forest_climb.specs.InnerSearch.{Topless};
ghost use Rattle.sets_occurrences.specs.InnerThreads.{Tied};
ghost use Rattle.sets_subtrees.specs.InnerRuns.{Within, Leads, Led};
ghost use Rattle.sets_record.specs.InnerPlaces.{Standing, Placed, Noting};
ghost use Rattle.sets_record.specs.InnerPut.{PutList, Put, PutDraft, RoomForDraft};

use forest_members::{Asked, count_picked, write_picked};
use sets_occurrences::flag_points;
use sets_occurrences::soles::{Several, sole_point};
use sets_subtrees::{row_at, write_run};
use terms::pairs::unpack;
use terms::{Scheme, Variable};

// A record that is to be put: that of the universal x by a scheme, among n variables of which none up to `from` has a top, from the entry `at` on,
// written or only counted.
#[derive(Clone, Copy)]
pub struct Draft {
    pub scheme: Scheme,
    pub n: u32,
    pub x: Variable,
    pub from: u32,
    pub at: usize,
    pub writing: bool,
}

// Puts a record; gives the entry behind it. Where x has no entry point, its set is empty; where it has one, its set is the run of that; and only where it
// has several do the flags of all variables tell it.
pub fn put_set(
    draft: Draft,
    clauses: &[i32],
    first: &[u32],
    next: &[u32],
    tops: &[u32],
    lead: &[u32],
    after: &[u32],
    places: &mut [u32],
    out: &mut [u32],
) -> usize
    requires tied { (draft.n ≤ 4096) × (draft.at + 2 < 4294967296) × Tied clauses.now first.now next.now draft.x.0 }
    requires led { (draft.from ≤ draft.n) × Topless draft.n tops.now draft.from × Within draft.n tops.now
        × Led draft.n tops.now lead.now after.now × Placed draft.n tops.now places.old out.old draft.at }
    requires room { RoomForDraft draft tops.now clauses.now out.old }
    ensures put { PutDraft draft tops.now clauses.now out.old out.new result }
    ensures placed { Placed draft.n tops.now places.new out.new result }
{
    let scheme = draft.scheme;
    let x = draft.x;
    match sole_point(scheme, draft.n, clauses, first, next, x, tops) {
        Ok(None) => put_empty(draft, out),
        Ok(Some(top)) => put_run(draft, row_at(lead, top), after, places, top, out),
        Err(Several) => put_flagged(draft, clauses, first, next, tops, out),
    }
}

// Puts a record of which the set is empty.
fn put_empty(draft: Draft, out: &mut [u32]) -> usize
    requires room { (draft.at + 2 < 4294967296) × (draft.writing ≡ true → draft.at + 2 ≤ length out.old) }
    ensures put { PutList [] draft.x.0 draft.at draft.writing out.old out.new result }
{
    let end = draft.at + 2;
    if !draft.writing {
        return end;
    }
    let x = draft.x;
    write_front(x, draft.at, end, out);
    end
}

// Puts a record by the flags of the entry points, whose number does not matter.
fn put_flagged(
    draft: Draft,
    clauses: &[i32],
    first: &[u32],
    next: &[u32],
    tops: &[u32],
    out: &mut [u32],
) -> usize
    requires tied { (draft.n ≤ 4096) × (draft.at < 4294967296) × Tied clauses.now first.now next.now draft.x.0 }
    requires topless { (draft.from ≤ draft.n) × Topless draft.n tops.now draft.from }
    requires room { RoomForDraft draft tops.now clauses.now out.old }
    ensures put { PutDraft draft tops.now clauses.now out.old out.new result }
{
    let scheme = draft.scheme;
    let x = draft.x;
    let mut entered = [false; Variable::ROWS];
    flag_points(scheme, draft.n, clauses, first, next, x, tops, &mut entered);
    if !draft.writing {
        let count = count_picked(draft.n, Asked::Set, &entered, tops, draft.from);
        return draft.at + 2 + count as usize;
    }
    write_record(draft, &entered, tops, out)
}

// Writes a record of which the set is what its flags pick.
fn write_record(draft: Draft, entered: &[bool], tops: &[u32], out: &mut [u32]) -> usize
    requires skipped { (draft.from ≤ draft.n) × NoneUpto (pick Set draft.n entered.now tops.now) draft.from }
    requires room { (draft.at < 4294967296)
        × (draft.at + 2 + length (picked (pick Set draft.n entered.now tops.now) draft.n) ≤ length out.old) }
    ensures put { Put draft.n tops.now entered.now draft.x.0 draft.at true out.old out.new result }
{
    let end = write_picked(
        draft.n,
        Asked::Set,
        entered,
        tops,
        draft.from,
        draft.at + 2,
        out,
    );
    let x = draft.x;
    write_front(x, draft.at, end, out);
    end
}

// Puts a record of which the set is that of a top, to which a row of `lead` leads.
fn put_run(
    draft: Draft,
    row: u32,
    after: &[u32],
    places: &mut [u32],
    top: Variable,
    out: &mut [u32],
) -> usize
    requires led { (draft.at + 2 < 4294967296) × ((list : List ℕ) × Leads after.now row list
        × (get_or places.old top.0 0 ≢ 0 → Standing out.old (get_or places.old top.0 0) list draft.at)
        × (draft.writing ≡ true → draft.at + 2 + length list ≤ length out.old)) }
    ensures put { (list : List ℕ) × Leads after.now row list
        × PutList list draft.x.0 draft.at draft.writing out.old out.new result }
    ensures noted { (draft.writing ≡ false → places.new ≡ places.old)
        × Noting places.old top.0 (draft.at + 2) places.new }
{
    let run = unpack(row);
    let end = draft.at + 2 + run.high as usize;
    if !draft.writing {
        return end;
    }
    write_top(row, after, places, top, draft.at + 2, out);
    let x = draft.x;
    write_front(x, draft.at, end, out);
    end
}

// Writes the set of a top from the entry `start` on: a copy, where it stands in `out` already, and else its run, and notes where that stands.
fn write_top(
    row: u32,
    after: &[u32],
    places: &mut [u32],
    top: Variable,
    start: usize,
    out: &mut [u32],
)
    requires led { (start < 4294967296) × ((list : List ℕ) × Leads after.now row list
        × (get_or places.old top.0 0 ≢ 0 → Standing out.old (get_or places.old top.0 0) list start)
        × (start + length list ≤ length out.old)) }
    ensures written { (list : List ℕ) × Leads after.now row list × (out.new ≡ sets out.old start list) }
    ensures noted { Noting places.old top.0 start places.new }
{
    let run = unpack(row);
    let place = row_at(places, top);
    if place != 0 {
        let from = place as usize;
        out.copy_within(from..from + run.high as usize, start);
        return;
    }
    note_place(places, top, start as u32);
    write_run(after, run.low, start, out);
}

// Stores where the set of a top stands; a top past the end of the table is passed over.
fn note_place(places: &mut [u32], top: Variable, start: u32)
    ensures noted { places.new ≡ set places.old top.0 start }
{
    let at = top.0 as usize;
    if at < places.len() {
        places[at] = start;
    }
}

// Writes the front of a record once its set is written, which ends before `end`: the number of x, and the count.
fn write_front(x: Variable, at: usize, end: usize, out: &mut [u32])
    requires room { (at + 2 ≤ end) × (end ≤ length out.old) × (end - (at + 2) < 4294967296) }
    ensures written { out.new ≡ set (set out.old at x.0) (at + 1) (end - (at + 2)) }
{
    out[at] = x.0;
    out[at + 1] = (end - (at + 2)) as u32;
}
