// The climb for entry points (rule 2.6, rule 18.2): from the class of y from parent to parent, while the next class is still deeper than x. The class
// where it ends, over a level, is the top of y over that level. The tops of all variables over a level are filled in one pass.

#![tactic(auto)]

ghost use Rattle.std.specs.Prelude.{ℕ, ◌+◌, ◌≤◌, ◌<◌, ◌≡◌, Bool, true, List, length, get_or};
ghost use Rattle.formula.specs.Tables.{opens, marks_before};
ghost use Rattle.formula.specs.Meaning.{level};
ghost use Rattle.formula.specs.InnerLevels.{SoundPrefix, Levelled};
ghost use Rattle.forest_theory.specs.Tables.{row, WellFormed};
ghost use Rattle.forest_tables.specs.InnerTabled.{tabled};
ghost use Rattle.forest_tables.specs.InnerCounting.{FormedBy};
ghost use Rattle.forest_tables.specs.InnerRows.{rows_of};
ghost use Rattle.forest_climb.specs.InnerSearch.{Falling, Climbs, Finds, top_by, ToppedFrom, Topless, Behind, Known, Topped};

use forest_tables::rows::{existential_at, level_at, row_of};
use terms::{Level, Point, Variable};

// What a table of tops is filled for: the level that the tops are over, the place in the prefix where the blocks deeper than it begin, and a number
// `from` up to which no variable has a top.
#[derive(Clone, Copy)]
pub struct Floor {
    pub level: Level,
    pub place: usize,
    pub from: u32,
}

// The climb from a class, with some rises behind it: on to the parent, while that is deeper than the floor. The block number falls at each call.
fn climb(
    n: u32,
    levels: &[u32],
    parents: &[u32],
    floor: Level,
    class: Variable,
    rises: u32,
) -> Point
    requires falling { Falling n levels.now parents.now × (floor.0 < get_or levels.now class.0 0)
        × (rises + get_or levels.now class.0 0 < 4294967296) }
    ensures climbed { Climbs n levels.now parents.now floor.0 class.0 rises result.class.0 result.rises }
{
    let parent = row_of(n, parents, class);
    if parent.0 == 0 {
        return Point { class, rises };
    }
    let next = level_at(levels, parent);
    if next.0 <= floor.0 {
        return Point { class, rises };
    }
    climb(n, levels, parents, floor, parent, rises + 1)
}

// The entry point of x for y, if y is existential and deeper than x.
pub fn find_entry(
    n: u32,
    levels: &[u32],
    universals: &[bool],
    classes: &[u32],
    parents: &[u32],
    x: Variable,
    y: Variable,
) -> Option<Point>
    requires formed { WellFormed (tabled n levels.now universals.now) (rows_of n classes.now parents.now) }
    ensures found { Finds (tabled n levels.now universals.now) (rows_of n classes.now parents.now)
        x.0 y.0 result }
{
    let floor = level_at(levels, x);
    let deep = level_at(levels, y);
    if !existential_at(n, universals, y) {
        return None;
    }
    if deep.0 <= floor.0 {
        return None;
    }
    let own = row_of(n, classes, y);
    Some(climb(n, levels, parents, floor, own, 0))
}

// Fills the row of each variable with its top over a level: the class name where the climb from its class ends, 0 for a variable that is not
// existential and deeper. `place` is where in the prefix the blocks deeper than the level begin. The prefix names a class behind the classes above
// it, so that one pass along it needs no climb.
pub fn fill_tops(
    n: u32,
    prefix: &[u32],
    place: usize,
    classes: &[u32],
    parents: &[u32],
    tops: &mut [u32],
)
    requires sound { SoundPrefix n prefix.now × FormedBy n prefix.now classes.now parents.now × (n ≤ length tops.old)
        × ((x : ℕ) × (x ≤ 4096) × Behind prefix.now (level prefix.now x) place) }
    ensures topped { ToppedFrom n prefix.now place classes.now parents.now tops.new }
{
    clear_rows(n, tops);
    top_blocks(n, prefix, place, classes, parents, tops);
}

// Makes the first n rows 0: no other is read.
pub fn clear_rows(n: u32, rows: &mut [u32])
    requires enough { n ≤ length rows.old }
    ensures cleared { (v : ℕ) → v < n → get_or rows.new v 0 ≡ 0 }
{
    rows[..n as usize].fill(0);
}

// Fills the row of each variable that the blocks from `place` on name with its top, in the order of the prefix; the first n rows are 0 before.
fn top_blocks(
    n: u32,
    prefix: &[u32],
    place: usize,
    classes: &[u32],
    parents: &[u32],
    tops: &mut [u32],
)
    requires sound { SoundPrefix n prefix.now × FormedBy n prefix.now classes.now parents.now × (n ≤ length tops.old)
        × ((x : ℕ) × (x ≤ 4096) × Behind prefix.now (level prefix.now x) place) × ((v : ℕ) → v < n → get_or tops.old v 0 ≡ 0) }
    ensures topped { ToppedFrom n prefix.now place classes.now parents.now tops.new }
{
    let mut opens = true;
    for &entry in &prefix[place..] {
        if opens {
            opens = false;
        } else if entry == 0 {
            opens = true;
        } else {
            let top = top_of(n, classes, parents, tops, Variable::new(entry));
            tops[(entry - 1) as usize] = top.0;
        }
    }
}

// The top of v, of a block deeper than the floor, once the parent of its class has its own: none for a universal, else the top of that parent, and
// the class itself if the parent has none.
fn top_of(n: u32, classes: &[u32], parents: &[u32], tops: &[u32], v: Variable) -> Variable
    ensures own { result.0
        ≡ top_by (row n classes.now v.0) (row n tops.now (row n parents.now (row n classes.now v.0))) }
{
    let class = row_of(n, classes, v);
    if class.0 == 0 {
        return class;
    }
    let above = row_of(n, tops, row_of(n, parents, class));
    if above.0 == 0 { class } else { above }
}

// The place in the prefix where the blocks deeper than a level begin: sought from the known place, if that is over a lesser level, else from 0.
fn deeper_place(prefix: &[u32], known: Floor, floor: Level) -> usize
    requires known { ((n : ℕ) × SoundPrefix n prefix.now) × ((x : ℕ) × (x ≤ 4096) × (floor.0 ≡ level prefix.now x))
        × Known prefix.now known.level.0 known.place }
    ensures behind { Behind prefix.now floor.0 result }
{
    let lesser = known.level;
    if lesser.0 < floor.0 {
        return place_behind(prefix, known.place, floor.0 - lesser.0);
    }
    place_behind(prefix, 0, floor.0)
}

// The place so many blocks further on from a place where a block opens.
pub fn place_behind(prefix: &[u32], place: usize, blocks: u32) -> usize
    requires opening { ((n : ℕ) × SoundPrefix n prefix.now) × (opens prefix.now place ≡ true)
        × ((x : ℕ) × (x ≤ 4096) × (marks_before prefix.now place + blocks ≡ level prefix.now x)) }
    ensures behind { Behind prefix.now (marks_before prefix.now place + blocks) result }
{
    let mut left = blocks;
    for i in place..prefix.len() {
        if left == 0 {
            return i;
        }
        if prefix[i] == 0 {
            left -= 1;
        }
    }
    prefix.len()
}

// Refills the rows, which are tops over one floor, with those over the level of x, if that is another; gives the floor that they are over now.
pub fn retop(
    n: u32,
    prefix: &[u32],
    levels: &[u32],
    classes: &[u32],
    parents: &[u32],
    was: Floor,
    x: Variable,
    tops: &mut [u32],
) -> Floor
    requires sound { SoundPrefix n prefix.now × FormedBy n prefix.now classes.now parents.now × (n ≤ length tops.old) }
    requires levelled { (x.0 ≤ 4096) × ((universals : List Bool) × Levelled prefix.now levels.now universals) }
    requires topped { Topped n prefix.now classes.now parents.now was.level.0 was.place was.from tops.old }
    ensures topped { Topped n prefix.now classes.now parents.now result.level.0 result.place result.from
        tops.new }
    ensures own { result.level.0 ≡ level prefix.now x.0 }
{
    let level = level_at(levels, x);
    let old = was.level;
    if old.0 == level.0 {
        return was;
    }
    let place = deeper_place(prefix, was, level);
    fill_tops(n, prefix, place, classes, parents, tops);
    let from = topless(n, tops);
    Floor { level, place, from }
}

// The greatest number up to which no variable has a top.
fn topless(n: u32, tops: &[u32]) -> u32
    ensures none { (result ≤ n) × Topless n tops.now result }
{
    for v in 1..=n {
        if row_of(n, tops, Variable::new(v)).0 != 0 {
            return v - 1;
        }
    }
    n
}
