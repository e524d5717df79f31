// Why an existential is in the set of a universal: of all paths that the path check accepts for the two, the shortest, and of these the first.

#![tactic(auto)]

mod search;
mod ties;
mod ways;

ghost use Rattle.std.specs.Prelude.{ℕ, ◌≤◌, ◌≡◌, List, ◌≢◌, length};
ghost use Rattle.terms.specs.Limits.{most_variables};
ghost use Rattle.terms.specs.InnerLimits.{variable_rows};
ghost use Rattle.formula.specs.Lent.{formula_of, formula_in};
ghost use Rattle.formula.specs.InnerLevels.{SoundPrefix, Levelled};
ghost use Rattle.formula.specs.InnerLookup.{SoundClauses};
ghost use Rattle.forest_theory.specs.Reach.{Variables};
ghost use Rattle.sets_occurrences.specs.InnerThreads.{Closed};
ghost use Rattle.path_explain.specs.Causes.{Explained};
ghost use Rattle.path_explain.specs.InnerTies.{FlagsDeeper, Laid, Tied};
ghost use Rattle.path_explain.specs.InnerSearch.{Flag};
ghost use Rattle.path_explain.specs.InnerOrders.{SoundExplained, WayListed};

use forest_entries::Signs;
use forest_tables::rows::{is_deeper, universal_at};
use formula_levels::fill_levels;
use formula_rules::take_formula;
use path_check::begins::fill_begins;
use search::search;
use terms::{Fault, Level, Literal, Refusal, Variable};
use ties::{flag_deeper, tie};
use ways::{fill_nearest, first_clause, write_way};

// The shortest path for (x, y) that the path check accepts and whose first clause has x by one of the signs, written into `out`, with the count of its
// clauses, 0 where there is none. Of all shortest paths it is the first, compared number by number.
pub fn explain(
    rule: u32,
    n: u32,
    prefix: &[u32],
    clauses: &[i32],
    x: Variable,
    y: Variable,
    signs: Signs,
    out: &mut [u32],
) -> Result<u32, Refusal>
    ensures explained { Explained rule (formula_in n prefix clauses) signs x.0 y.0 out.old out.new result }
{
    let mut joined = [0u32; Level::JOINED];
    let read = take_formula(rule, n, prefix, clauses, &mut joined)?;
    sound_explain(n, read, clauses, x, y, signs, out)
}

// The path of an accepted formula, by the level table of its prefix.
fn sound_explain(
    n: u32,
    prefix: &[u32],
    clauses: &[i32],
    x: Variable,
    y: Variable,
    signs: Signs,
    out: &mut [u32],
) -> Result<u32, Refusal>
    requires sound { SoundPrefix n prefix.now × SoundClauses clauses.now × Closed clauses.now }
    ensures explained { SoundExplained (formula_in n prefix clauses) signs x.0 y.0 out.old out.new result }
{
    let mut levels = [0u32; Variable::ROWS];
    let mut universals = [false; Variable::ROWS];
    fill_levels(prefix, &mut levels, &mut universals);
    explain_by_levels(n, clauses, &levels, &universals, x, y, signs, out)
}

// The path by a level table, whichever prefix that is of: 13 for x and y first. A path may pass the existentials deeper than x, which are flagged.
fn explain_by_levels(
    n: u32,
    clauses: &[i32],
    levels: &[u32],
    universals: &[bool],
    x: Variable,
    y: Variable,
    signs: Signs,
    out: &mut [u32],
) -> Result<u32, Refusal>
    requires sound { SoundClauses clauses.now × Closed clauses.now × (n ≤ most_variables) }
    ensures explained { (es : List ℕ) → SoundPrefix n es → Levelled es levels.now universals.now
        → SoundExplained (formula_of n es clauses.now) signs x.0 y.0 out.old out.new result }
{
    if !universal_at(n, universals, x) {
        return Err(Refusal(Fault::NotAskable, 0));
    }
    if !is_deeper(n, levels, universals, x, y) {
        return Err(Refusal(Fault::NotAskable, 0));
    }
    let mut flags = [false; Variable::ROWS];
    flag_deeper(n, levels, universals, x, &mut flags);
    explain_flagged(clauses, &flags, x, y, signs, out)
}

// The path by flags of the variables that it may pass: where each clause begins, and the chains of the variables.
fn explain_flagged(
    clauses: &[i32],
    flags: &[bool],
    x: Variable,
    y: Variable,
    signs: Signs,
    out: &mut [u32],
) -> Result<u32, Refusal>
    requires sound { SoundClauses clauses.now × Closed clauses.now }
    requires flagged { (length flags.now ≡ variable_rows) × Flag flags.now y.0 × (x.0 ≢ 0) }
    ensures explained { (X : Variables) → FlagsDeeper X x.0 flags.now
        → WayListed X clauses.now signs x.0 y.0 out.old out.new result }
{
    let mut begins = [0u16; Literal::ENTRIES];
    fill_begins(clauses, &mut begins);
    let mut first = [0u32; Variable::ROWS];
    let mut next = [0u32; Literal::ENTRIES];
    tie(clauses, &begins, &mut first, &mut next);
    explain_tied(clauses, &begins, &first, &next, flags, x, y, signs, out)
}

// The path by the chains: distances from y, the clause that it begins with, and then always the first clause that is one nearer.
fn explain_tied(
    clauses: &[i32],
    begins: &[u16],
    first: &[u32],
    next: &[u32],
    flags: &[bool],
    x: Variable,
    y: Variable,
    signs: Signs,
    out: &mut [u32],
) -> Result<u32, Refusal>
    requires tied { Laid clauses.now begins.now × Tied clauses.now first.now next.now }
    requires flagged { (length flags.now ≡ variable_rows) × Flag flags.now y.0 × (x.0 ≢ 0) }
    ensures explained { (X : Variables) → FlagsDeeper X x.0 flags.now
        → WayListed X clauses.now signs x.0 y.0 out.old out.new result }
{
    let mut dists = [0u16; Literal::ENTRIES];
    let mut rows = [0u16; Variable::ROWS];
    search(
        clauses, begins, first, next, flags, y, &mut dists, &mut rows,
    );
    let Some(begin) = first_clause(clauses, next, &dists, x, signs) else {
        return Ok(0);
    };
    let count = dists[begin as usize];
    if out.len() < count as usize {
        return Err(Refusal(Fault::TooLittleRoom, 0));
    }
    let mut nearest = [0u32; Variable::ROWS];
    fill_nearest(clauses, next, &dists, &rows, &mut nearest);
    write_way(clauses, begins, &rows, &nearest, begin, count, out);
    Ok(u32::from(count))
}
