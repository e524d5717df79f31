// For each top a run, a linked list of the variables that have it, ascending: the set of a universal with one entry point is the run of that top, and
// is found without a pass over all rows. The row of a top in `lead` packs two numbers: its lowest variable, and how many it has. The row of a
// variable in `after` is the next higher variable of the same top. 0 stands for none.

#![tactic(auto)]

ghost use Rattle.std.specs.Prelude.{ℕ, ◌+◌, ◌≤◌, ◌<◌, ◌≡◌, Bool, List, length, get_or};
ghost use Rattle.std.proofs.lemmas.List.Edits.{sets};
ghost use Rattle.formula.specs.Meaning.{level};
ghost use Rattle.formula.specs.InnerLevels.{SoundPrefix, Levelled};
ghost use Rattle.forest_tables.specs.InnerCounting.{FormedBy};
ghost use Rattle.forest_climb.specs.InnerSearch.{Topless};
ghost use Rattle.sets_subtrees.specs.InnerRuns.{Run, Within, Led, Floored};

use forest_climb::{Floor, clear_rows, retop};
use forest_tables::rows::{level_at, row_of};
use terms::Variable;
use terms::pairs::{pack, unpack};

// Refills the tops and links their runs anew, if the level of x is another than that which they are over; gives the floor that they are over now.
pub fn refloor(
    n: u32,
    prefix: &[u32],
    levels: &[u32],
    classes: &[u32],
    parents: &[u32],
    was: Floor,
    x: Variable,
    tops: &mut [u32],
    lead: &mut [u32],
    after: &mut [u32],
) -> Floor
    requires sound { SoundPrefix n prefix.now × FormedBy n prefix.now classes.now parents.now × (x.0 ≤ 4096)
        × ((universals : List Bool) × Levelled prefix.now levels.now universals) }
    requires floored { Floored n prefix.now classes.now parents.now was.level.0 was.place was.from tops.old lead.old after.old }
    ensures floored { Floored n prefix.now classes.now parents.now result.level.0 result.place result.from
        tops.new lead.new after.new }
    ensures own { (result.level.0 ≡ level prefix.now x.0) × (was.level.0 ≡ result.level.0 → tops.new ≡ tops.old) }
{
    let level = level_at(levels, x);
    if was.level == level {
        return was;
    }
    let floor = retop(n, prefix, levels, classes, parents, was, x, tops);
    link_runs(n, tops, floor.from, lead, after);
    floor
}

// Links the variables of each top, where none up to `from` has one. They are passed downwards, so that each comes in front of its run. Variables
// without a top go on the run of 0, which spares a test; that run is dropped at the end.
fn link_runs(n: u32, tops: &[u32], from: u32, lead: &mut [u32], after: &mut [u32])
    requires within { (n ≤ 4096) × (from ≤ n) × Topless n tops.now from × Within n tops.now × (n < length lead.old) × (n < length after.old) }
    ensures led { Led n tops.now lead.new after.new }
{
    clear_rows(n + 1, lead);
    for v in (from + 1..n + 1).rev() {
        let top = row_of(n, tops, Variable::new(v));
        let at = top.0 as usize;
        let row = unpack(lead[at]);
        after[v as usize] = row.low;
        lead[at] = pack(v, row.high + 1);
    }
    lead[0] = 0;
}

// The row of a top in a table with a row for each number from 0 on; 0 past its end.
pub fn row_at(rows: &[u32], top: Variable) -> u32
    ensures read { result ≡ get_or rows.now top.0 0 }
{
    rows.get(top.0 as usize).copied().unwrap_or(0)
}

// Writes the variables of the run from `head` on, from the entry `at` on.
pub fn write_run(after: &[u32], head: u32, at: usize, out: &mut [u32])
    requires room { (list : List ℕ) × Run after.now head list × (at + length list ≤ length out.old) }
    ensures written { (list : List ℕ) × Run after.now head list × (out.new ≡ sets out.old at list) }
{
    let mut end = at;
    let mut v = head;
    // A walk along the run: the row of each variable says which comes next.
    while v != 0 {
        out[end] = v;
        end += 1;
        v = after[v as usize];
    }
}
