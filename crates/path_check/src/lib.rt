// Checking another tool's dependencies: whether a list of clause numbers is an acceptable path of a pair (x, y).

#![tactic(auto)]

pub mod begins;
mod walk;

ghost use Rattle.std.specs.Prelude.{ℕ, List, [], ◌∷◌, length};
ghost use Rattle.terms.specs.Refusals.{At0, Judged};
ghost use Rattle.formula.specs.Lent.{formula_of, formula_in};
ghost use Rattle.formula.specs.InnerLevels.{SoundPrefix, Levelled};
ghost use Rattle.formula.specs.InnerLookup.{SoundClauses};
ghost use Rattle.formula.specs.Meaning.{clauses as Meaning·clauses};
ghost use Rattle.forest_tables.specs.InnerTabled.{tabled};
ghost use Rattle.path_check.specs.Causes.{NumberOver, PathCause, PathJudged};
ghost use Rattle.path_check.specs.InnerOrders.{pair_order};

use begins::{fill_begins, some_over};
use forest_tables::rows::{is_deeper, universal_at};
use formula_levels::fill_levels;
use formula_rules::take_formula;
use terms::{Fault, Level, Literal, Refusal, Variable};
use walk::follow;

// Whether the path is acceptable for the pair (x, y), with the prefix read by a rule: its first clause has x, its last has y, neighbours share an
// existential deeper than x, and none is always true. Refused with the first cause of 23, 1 to 11, 13 and 24.
pub fn path_verdict(
    rule: u32,
    n: u32,
    prefix: &[u32],
    clauses: &[i32],
    x: Variable,
    y: Variable,
    path: &[u32],
) -> Result<(), Refusal>
    ensures judged { PathJudged rule (formula_in n prefix clauses) x.0 y.0 path.now result }
{
    let mut joined = [0u32; Level::JOINED];
    let read = take_formula(rule, n, prefix, clauses, &mut joined)?;
    sound_path(n, read, clauses, x, y, path)
}

// What a path of an accepted formula is refused for, 13 or 24. Makes the level table of the prefix.
fn sound_path(
    n: u32,
    prefix: &[u32],
    clauses: &[i32],
    x: Variable,
    y: Variable,
    path: &[u32],
) -> Result<(), Refusal>
    requires sound { SoundPrefix n prefix.now × SoundClauses clauses.now }
    ensures judged { Judged (pair_order (formula_in n prefix clauses) x.0 y.0 path.now) result }
{
    let mut levels = [0u32; Variable::ROWS];
    let mut universals = [false; Variable::ROWS];
    fill_levels(prefix, &mut levels, &mut universals);
    path_by_levels(n, &levels, &universals, clauses, x, y, path)
}

// What a path is refused for, by the level table of any sound prefix: 13 for x and y first, then what `known_pair` finds.
fn path_by_levels(
    n: u32,
    levels: &[u32],
    universals: &[bool],
    clauses: &[i32],
    x: Variable,
    y: Variable,
    path: &[u32],
) -> Result<(), Refusal>
    requires sound { SoundClauses clauses.now }
    ensures judged { (es : List ℕ) → SoundPrefix n es → Levelled es levels.now universals.now
        → Judged (pair_order (formula_of n es clauses.now) x.0 y.0 path.now) result }
{
    if !universal_at(n, universals, x) {
        return Err(Refusal(Fault::NotAskable, 0));
    }
    if !is_deeper(n, levels, universals, x, y) {
        return Err(Refusal(Fault::NotAskable, 0));
    }
    known_pair(n, levels, universals, clauses, x, y, path)
}

// What a path is refused for where x is universal, and y existential and deeper: 13 for the clause numbers, then 24.
fn known_pair(
    n: u32,
    levels: &[u32],
    universals: &[bool],
    clauses: &[i32],
    x: Variable,
    y: Variable,
    path: &[u32],
) -> Result<(), Refusal>
    requires sound { SoundClauses clauses.now }
    ensures judged { Judged (At0 13 (NumberOver (length (Meaning·clauses clauses.now)) path.now)
        ∷ PathCause (tabled n levels.now universals.now) clauses.now x.0 y.0 path.now ∷ []) result }
{
    let mut begins = [0u16; Literal::ENTRIES];
    let count = fill_begins(clauses, &mut begins);
    if some_over(path, count) {
        return Err(Refusal(Fault::NotAskable, 0));
    }
    follow(n, levels, universals, clauses, &begins, x, y, path)
}
