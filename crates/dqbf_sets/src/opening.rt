// What may be stepped on from x: rows with 1 for each existential whose list has x, and 0 for every other variable.

ghost use Rattle.std.specs.Prelude.{◌≤◌, ◌≡◌, true, ◌≢◌, length};
ghost use Rattle.terms.specs.Limits.{most_variables};
ghost use Rattle.terms.specs.InnerLimits.{variable_rows};
ghost use Rattle.terms.specs.Refusals.{None, Judged};
ghost use Rattle.formula.specs.InnerLevels.{SoundPrefix, Levelled};
ghost use Rattle.forest_tables.specs.Formula.{universal};
ghost use Rattle.dqbf_lists.specs.Lists.{list_entries, ListHas};
ghost use Rattle.dqbf_lists.specs.Causes.{ListCause};
ghost use Rattle.dqbf_sets.specs.Inner.{behind_formula, Told, ToldRows, Over, WithGiven, OpensRows};

use dqbf_lists::checking::check_lists;
use forest_tables::rows::{existential_at, level_at, universal_at};
use formula_levels::fill_levels;
use terms::{Fault, Level, Refusal, Variable};

// Judges the lists, and then x (13), by an accepted prefix. Where nothing is refused, the rows are filled.
pub fn open_rows(
    n: u32,
    prefix: &[u32],
    lists: &[u32],
    x: Variable,
    rows: &mut [u32],
) -> Result<(), Refusal>
    requires sound { SoundPrefix n prefix.now }
    requires short { length lists.now ≤ list_entries }
    requires rows { length rows.old ≡ variable_rows }
    ensures judged { Judged (behind_formula n prefix.now lists.now x.0) result }
    ensures opens { OpensRows n prefix.now lists.now x.0 rows.new result }
{
    let mut levels = [0u32; Variable::ROWS];
    let mut universals = [false; Variable::ROWS];
    fill_levels(prefix, &mut levels, &mut universals);
    check_lists(n, prefix, &universals, lists)?;
    if !universal_at(n, &universals, x) {
        return Err(Refusal(Fault::NotAskable, 0));
    }
    open_for(n, prefix, &levels, &universals, lists, x, rows);
    Ok(())
}

// Fills the rows for a universal, by accepted lists: first by the blocks, then by the lists.
fn open_for(
    n: u32,
    prefix: &[u32],
    levels: &[u32],
    universals: &[bool],
    lists: &[u32],
    x: Variable,
    rows: &mut [u32],
)
    requires sound { SoundPrefix n prefix.now × Levelled prefix.now levels.now universals.now }
    requires listed { None (ListCause n prefix.now lists.now) }
    requires universal { universal n prefix.now x.0 ≡ true }
    requires rows { length rows.old ≡ variable_rows }
    ensures told { ToldRows (ListHas n prefix.now lists.now x.0) n rows.new }
{
    let floor = level_at(levels, x);
    open_blocks(n, levels, universals, floor, rows);
    open_lists(n, prefix, lists, x, rows);
}

// Opens the existentials of blocks deeper than the level of x.
fn open_blocks(n: u32, levels: &[u32], universals: &[bool], floor: Level, rows: &mut [u32])
    requires room { n ≤ length rows.old }
    ensures told { ToldRows (Over n levels.now universals.now floor.0) n rows.new }
{
    for passed in 0..n {
        let v = Variable::new(passed + 1);
        rows[passed as usize] = block_row(n, levels, universals, floor, v);
    }
}

// The row of v by the blocks: 1 for an existential deeper than the level `floor`.
fn block_row(n: u32, levels: &[u32], universals: &[bool], floor: Level, v: Variable) -> u32
    ensures told { Told (Over n levels.now universals.now floor.0) v.0 result }
{
    u32::from(existential_at(n, universals, v) && floor < level_at(levels, v))
}

// Opens the existentials whose own lists have x.
fn open_lists(n: u32, prefix: &[u32], lists: &[u32], x: Variable, rows: &mut [u32])
    requires listed { None (ListCause n prefix.now lists.now) }
    requires some { x.0 ≢ 0 }
    requires room { (n ≤ most_variables) × (n ≤ length rows.old) }
    ensures opened { WithGiven lists.now x.0 n rows.old rows.new }
{
    // the existential of the list that is open, where one is
    let mut open = None;
    for &entry in lists {
        let Some(y) = open else {
            open = Some(entry);
            continue;
        };
        if entry == x.0 {
            rows[y as usize - 1] = 1;
        } else if entry == 0 {
            open = None;
        }
    }
}
