// Resolution-path sets: the existentials that resolution paths tie to a universal, from x and from its negation to opposite literals.

#![tactic(auto)]

mod ends;
mod walk;

ghost use Rattle.std.specs.Prelude.{ℕ, List};
ghost use Rattle.formula.specs.Lent.{formula_of, formula_in};
ghost use Rattle.formula.specs.InnerLevels.{SoundPrefix, Levelled};
ghost use Rattle.path_resolution.specs.Paths.{ResolutionListed};
ghost use Rattle.path_resolution.specs.InnerEnds.{ReadClauses, SoundListed};

use ends::flag_dependent;
use forest_members::{Asked, list_picked};
use forest_tables::rows::universal_at;
use formula_levels::fill_levels;
use formula_rules::take_formula;
use terms::{Fault, Level, Refusal, Variable};

// The resolution-path set of x under a reading rule, written ascending into `out`, with the count of its members.
pub fn resolution_set(
    rule: u32,
    n: u32,
    prefix: &[u32],
    clauses: &[i32],
    x: Variable,
    out: &mut [u32],
) -> Result<u32, Refusal>
    ensures listed { ResolutionListed rule (formula_in n prefix clauses) x.0 out.old out.new result }
{
    let mut joined = [0u32; Level::JOINED];
    let read = take_formula(rule, n, prefix, clauses, &mut joined)?;
    sound_set(n, read, clauses, x, out)
}

// The set of an accepted formula, by the level table of its prefix.
fn sound_set(
    n: u32,
    prefix: &[u32],
    clauses: &[i32],
    x: Variable,
    out: &mut [u32],
) -> Result<u32, Refusal>
    requires sound { SoundPrefix n prefix.now × ReadClauses n clauses.now }
    ensures listed { SoundListed (formula_in n prefix clauses) x.0 out.old out.new result }
{
    let mut levels = [0u32; Variable::ROWS];
    let mut universals = [false; Variable::ROWS];
    fill_levels(prefix, &mut levels, &mut universals);
    set_by_levels(n, clauses, &levels, &universals, x, out)
}

// The set by a level table, whichever prefix that is of: 13 and 27, and then what depends on x is flagged and listed.
fn set_by_levels(
    n: u32,
    clauses: &[i32],
    levels: &[u32],
    universals: &[bool],
    x: Variable,
    out: &mut [u32],
) -> Result<u32, Refusal>
    requires sound { ReadClauses n clauses.now }
    ensures listed { (es : List ℕ) → SoundPrefix n es → Levelled es levels.now universals.now
        → SoundListed (formula_of n es clauses.now) x.0 out.old out.new result }
{
    if !universal_at(n, universals, x) {
        return Err(Refusal(Fault::NotAskable, 0));
    }
    if Variable::RESOLUTION_MOST < n {
        return Err(Refusal(Fault::TooManyForPaths, 0));
    }
    let mut flags = [false; Variable::RESOLUTION_ROWS];
    flag_dependent(n, clauses, levels, universals, x, &mut flags);
    list_picked(n, Asked::Points, &flags, &[], out)
}
