// What the calls for entry points, sets and sizes share behind check: refusals 12 and 13, and then the entry of each variable and the entry points of x.

ghost use Rattle.std.specs.Prelude.{◌≤◌, ◌≡◌, [], length};
ghost use Rattle.terms.specs.Limits.{most_variables};
ghost use Rattle.terms.specs.InnerLimits.{variable_rows};
ghost use Rattle.terms.specs.Says.{accepted};
ghost use Rattle.terms.specs.Refusals.{Judged};
ghost use Rattle.formula.specs.Meaning.{level};
ghost use Rattle.formula.specs.InnerLevels.{SoundPrefix};
ghost use Rattle.formula.specs.InnerLookup.{SoundClauses};
ghost use Rattle.formula.specs.Lent.{formula_in};
ghost use Rattle.forest_tables.specs.InnerCounting.{FormedBy};
ghost use Rattle.forest_tables.specs.Lent.{rows, rows_in};
ghost use Rattle.forest.specs.InnerOrders.{behind_check};
ghost use Rattle.forest.specs.InnerWanted.{Enters};

use forest_climb::{fill_tops, place_behind};
use forest_entries::flag_entries;
use forest_tables::checking::check_forest;
use forest_tables::rows::{level_at, universal_at};
use formula_levels::fill_levels;
use terms::{Fault, Level, Refusal, Scheme, Variable};

// Refusals 12 and 13 of an accepted formula; where there is none, the flags of all entry points of x by the scheme, and in `tops` for each variable
// the number by whose flag it is a member. Before that the two tables hold the levels and the universals, so that no others are needed (rule 7.7).
pub fn enter(
    scheme: Scheme,
    n: u32,
    prefix: &[u32],
    clauses: &[i32],
    classes: &[u32],
    parents: &[u32],
    counts: &[u32],
    x: Variable,
    tops: &mut [u32],
    entered: &mut [bool],
) -> Result<(), Refusal>
    requires sound { SoundPrefix n prefix.now × SoundClauses clauses.now }
    requires sizes { (length tops.old ≡ variable_rows) × (length entered.old ≡ variable_rows) }
    ensures judged { Judged (behind_check n prefix.now (rows_in classes parents counts) x.0) result }
    ensures enters { Enters scheme (formula_in n prefix clauses) (rows_in classes parents counts) x.0 tops.new entered.new result }
{
    fill_levels(prefix, tops, entered);
    check_forest(n, prefix, tops, entered, classes, parents, counts)?;
    if !universal_at(n, entered, x) {
        return Err(Refusal(Fault::NotAskable, 0));
    }
    let floor = level_at(tops, x);
    enter_over(
        scheme, n, prefix, clauses, classes, parents, x, floor, tops, entered,
    );
    Ok(())
}

// Puts the tops over the level of x in place of the levels, and then the flags of its entry points in place of the universals. Nothing is judged.
pub fn enter_over(
    scheme: Scheme,
    n: u32,
    prefix: &[u32],
    clauses: &[i32],
    classes: &[u32],
    parents: &[u32],
    x: Variable,
    floor: Level,
    tops: &mut [u32],
    entered: &mut [bool],
)
    requires sound { SoundPrefix n prefix.now × SoundClauses clauses.now }
    requires formed { FormedBy n prefix.now classes.now parents.now }
    requires sizes { (length tops.old ≡ variable_rows) × (length entered.old ≡ variable_rows) }
    requires place { (x.0 ≤ most_variables) × (floor.0 ≡ level prefix.now x.0) }
    ensures enters { Enters scheme (formula_in n prefix clauses) (rows classes.now parents.now []) x.0
        tops.new entered.new accepted }
{
    let place = place_behind(prefix, 0, floor.0);
    fill_tops(n, prefix, place, classes, parents, tops);
    flag_entries(scheme, n, clauses, x, tops, entered);
}
