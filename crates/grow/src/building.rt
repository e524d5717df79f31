// The forest of an accepted formula: its rows, their counts, and the tally.

ghost use Rattle.std.specs.Prelude.{[], ◌∷◌};
ghost use Rattle.terms.specs.Refusals.{At0};
ghost use Rattle.formula.specs.InnerLevels.{SoundPrefix};
ghost use Rattle.formula.specs.InnerLookup.{SoundClauses};
ghost use Rattle.forest_tables.specs.Formula.{variables, Shares};
ghost use Rattle.forest_tables.specs.Lent.{rows_out};
ghost use Rattle.forest_tables.specs.InnerRows.{Tells};
ghost use Rattle.grow.specs.Grown.{standing, standing_in, standing_out, TooShort, Tallies, Rewrites};
ghost use Rattle.grow.specs.InnerTallies.{many};
ghost use Rattle.grow.specs.InnerTallies.{SumsUp};
ghost use Rattle.grow_rows.specs.InnerRows.{Rowed, Recounted};
ghost use Rattle.grow.specs.InnerRows.{Room};

use crate::{counted, refused};
use grow_rows::counts::{recount, take_census};
use grow_rows::grow;
use terms::{Fault, Refusal, Tallied, Tally};

// Builds the forest of an accepted formula: all that is left to refuse is a table that is too short.
pub fn build_read(
    n: u32,
    prefix: &[u32],
    clauses: &[i32],
    classes: &mut [u32],
    parents: &mut [u32],
    counts: &mut [u32],
    tally: Tally,
) -> Tallied
    requires sound { SoundPrefix n prefix.now × SoundClauses clauses.now }
    ensures built { Rewrites (At0 14 (TooShort n (standing_in classes parents counts tally)) ∷ []) (variables n prefix.now)
        (Shares clauses.now) (Tallies (variables n prefix.now) clauses.now)
        (standing_in classes parents counts tally) (standing_out classes parents counts result.tally) result.answer }
{
    if !has_room(n, classes, parents, counts) {
        return refused(Refusal(Fault::TooLittleRoom, 0), tally);
    }
    let built = build_sound(n, prefix, clauses, classes, parents, counts);
    counted(n, built)
}

// Whether every lent table has n rows.
fn has_room(n: u32, classes: &[u32], parents: &[u32], counts: &[u32]) -> bool
    ensures told { Tells result (Room n classes.now parents.now counts.now) }
{
    let count = n as usize;
    if classes.len() < count {
        return false;
    }
    if parents.len() < count {
        return false;
    }
    if counts.len() < count {
        return false;
    }
    true
}

// The forest of an accepted formula with its counts, in tables that have room for it, and the tally of the list.
pub fn build_sound(
    n: u32,
    prefix: &[u32],
    clauses: &[i32],
    classes: &mut [u32],
    parents: &mut [u32],
    counts: &mut [u32],
) -> Tally
    requires sound { SoundPrefix n prefix.now × SoundClauses clauses.now × Room n classes.old parents.old counts.old }
    ensures rows { Rowed (variables n prefix.now) (Shares clauses.now) classes.old parents.old
        classes.new parents.new }
    ensures counts { Recounted n prefix.now classes.new parents.new counts.old counts.new }
    ensures tally { SumsUp (variables n prefix.now) (many clauses.now) (standing (rows_out classes parents counts) result) }
{
    let taken = grow(n, prefix, clauses, classes, parents);
    recount(n, prefix, classes, parents, counts);
    let seen = take_census(n, classes);
    Tally {
        clauses: taken,
        merges: seen.existentials - seen.names,
        classes: seen.names,
    }
}
