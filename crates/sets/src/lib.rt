// The sets of all universals in one call, under a reading rule.

#![tactic(auto)]

mod all_sets;

ghost use Rattle.std.specs.Prelude.{[]};
ghost use Rattle.terms.specs.Answers.{Filling};
ghost use Rattle.formula.specs.Lent.{formula_in};
ghost use Rattle.formula.specs.InnerLevels.{SoundPrefix};
ghost use Rattle.formula.specs.InnerLookup.{SoundClauses};
ghost use Rattle.forest_tables.specs.InnerCounting.{FormedBy};
ghost use Rattle.forest_tables.specs.Lent.{rows, rows_in};
ghost use Rattle.sets.specs.InnerPassed.{Fills};
ghost use Rattle.sets.specs.Sets.{AllSetsBy, SetsListed};
ghost use Rattle.sets.specs.InnerOrders.{behind_sets};
ghost use Rattle.sets_occurrences.specs.InnerThreads.{Closed};

use all_sets::list_sets;
use forest_tables::checking::check_forest;
use formula_levels::fill_levels;
use formula_rules::take_formula;
use terms::{Level, Refusal, Scheme, Variable};

// The sets of all universals by a scheme, written into `out`: for each universal ascending its number, the count of its set and its set
// ascending; with the count of all entries.
pub fn sets(
    rule: u32,
    scheme: Scheme,
    n: u32,
    prefix: &[u32],
    clauses: &[i32],
    classes: &[u32],
    parents: &[u32],
    counts: &[u32],
    out: &mut [u32],
) -> Result<u32, Refusal>
    ensures listed { SetsListed rule scheme (formula_in n prefix clauses) (rows_in classes parents counts) out.old out.new result }
{
    let mut joined = [0u32; Level::JOINED];
    let read = take_formula(rule, n, prefix, clauses, &mut joined)?;
    sound_sets(scheme, n, read, clauses, classes, parents, counts, out)
}

// The sets of all universals of an accepted formula: the rows are judged, and then all sets are listed.
fn sound_sets(
    scheme: Scheme,
    n: u32,
    prefix: &[u32],
    clauses: &[i32],
    classes: &[u32],
    parents: &[u32],
    counts: &[u32],
    out: &mut [u32],
) -> Result<u32, Refusal>
    requires sound { SoundPrefix n prefix.now × SoundClauses clauses.now × Closed clauses.now }
    ensures listed { Filling (behind_sets scheme (formula_in n prefix clauses) (rows_in classes parents counts) out.old)
        (AllSetsBy scheme (formula_in n prefix clauses) (rows_in classes parents counts)) out.old out.new result }
{
    let mut levels = [0u32; Variable::ROWS];
    let mut universals = [false; Variable::ROWS];
    fill_levels(prefix, &mut levels, &mut universals);
    check_forest(n, prefix, &levels, &universals, classes, parents, counts)?;
    list_sets(
        scheme,
        n,
        prefix,
        &levels,
        &universals,
        clauses,
        classes,
        parents,
        out,
    )
}

// The sets of all universals of an accepted formula by rows that are well formed, as those of its own forest are: nothing is judged, and all that is
// left to refuse is a table that is too short.
pub fn formed_sets(
    scheme: Scheme,
    n: u32,
    prefix: &[u32],
    clauses: &[i32],
    classes: &[u32],
    parents: &[u32],
    out: &mut [u32],
) -> Result<u32, Refusal>
    requires sound { SoundPrefix n prefix.now × SoundClauses clauses.now × Closed clauses.now }
    requires formed { FormedBy n prefix.now classes.now parents.now }
    ensures listed { Fills (AllSetsBy scheme (formula_in n prefix clauses) (rows classes.now parents.now []))
        out.old out.new result }
{
    let mut levels = [0u32; Variable::ROWS];
    let mut universals = [false; Variable::ROWS];
    fill_levels(prefix, &mut levels, &mut universals);
    list_sets(
        scheme,
        n,
        prefix,
        &levels,
        &universals,
        clauses,
        classes,
        parents,
        out,
    )
}
