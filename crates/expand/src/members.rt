// The standard set of x, found from the clauses.

ghost use Rattle.std.specs.Prelude.{◌≤◌, ◌≡◌, true, length};
ghost use Rattle.terms.specs.declared.Scheme.TheVariants.{Standard};
ghost use Rattle.formula.specs.Lent.{formula_in};
ghost use Rattle.formula.specs.InnerLevels.{SoundPrefix};
ghost use Rattle.formula.specs.InnerLookup.{SoundClauses};
ghost use Rattle.formula.specs.Meaning.{level};
ghost use Rattle.forest_tables.specs.Formula.{universal};
ghost use Rattle.forest.specs.Answers.{DependsBy};
ghost use Rattle.forest.specs.InnerWanted.{Lists};

use forest::sound_members;
use grow_rows::grow;
use terms::{Level, Scheme, Variable};

// Writes the standard set of a universal x, whose level is known, ascending into a table with room for all variables, and gives the count of its
// members. The classes and parents of the formula's forest are made, and the set is listed by them; counts and tally are not needed.
pub fn find(
    n: u32,
    prefix: &[u32],
    clauses: &[i32],
    x: Variable,
    floor: Level,
    members: &mut [u32],
) -> usize
    requires sound { SoundPrefix n prefix.now × SoundClauses clauses.now }
    requires place { (universal n prefix.now x.0 ≡ true) × (floor.0 ≡ level prefix.now x.0) }
    requires room { n ≤ length members.old }
    ensures listed { Lists (DependsBy Standard (formula_in n prefix clauses) x.0) members.old members.new result }
{
    let mut classes = [0u32; Variable::ROWS];
    let mut parents = [0u32; Variable::ROWS];
    grow(n, prefix, clauses, &mut classes, &mut parents);
    sound_members(
        Scheme::Standard,
        n,
        prefix,
        clauses,
        &classes,
        &parents,
        x,
        floor,
        members,
    )
}
