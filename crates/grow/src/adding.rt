// A clause added to lent tables by an accepted prefix: it, the tables and the tally are judged before the first write, the clause is put in, and the
// counts and the tally follow.

ghost use Rattle.std.specs.Prelude.{◌≡◌, [], ◌∷◌};
ghost use Rattle.formula.specs.InnerLevels.{SoundPrefix};
ghost use Rattle.formula.specs.InnerLookup.{InRows};
ghost use Rattle.forest_theory.specs.Tables.{lent};
ghost use Rattle.forest_theory.specs.Counts.{how_many, names_itself};
ghost use Rattle.forest_tables.specs.Causes.{ForestCause};
ghost use Rattle.forest_tables.specs.InnerCounting.{FormedBy};
ghost use Rattle.forest_tables.specs.Formula.{variables};
ghost use Rattle.forest_tables.specs.Lent.{rows_lent};
ghost use Rattle.grow.specs.Grown.{standing_in, standing_out, TallyCause, Extended, AddsBehind};
ghost use Rattle.grow.specs.InnerOrders.{behind_add};
ghost use Rattle.grow_rows.specs.InnerRows.{Rowed, Recounted};
ghost use Rattle.grow.specs.InnerRows.{Room};

use crate::checking::tables_verdict;
use crate::{counted, refused};
use grow_refusals::clause::check_added;
use grow_refusals::tallying::{disagrees, take};
use grow_rows::counts::{recount, take_census};
use grow_rows::put_in;
use terms::{Fault, Refusal, Tallied, Tally};

// Adds a clause by an accepted prefix: the clause is judged first.
pub fn add_read(
    n: u32,
    prefix: &[u32],
    classes: &mut [u32],
    parents: &mut [u32],
    counts: &mut [u32],
    tally: Tally,
    clause: &[i32],
) -> Tallied
    requires sound { SoundPrefix n prefix.now }
    ensures added { AddsBehind (behind_add n prefix.now (standing_in classes parents counts tally) clause.now)
        (variables n prefix.now) (standing_in classes parents counts tally) clause.now
        (standing_out classes parents counts result.tally) result.answer }
{
    match check_added(n, clause) {
        Err(refusal) => refused(refusal, tally),
        Ok(()) => add_sound(n, prefix, classes, parents, counts, tally, clause),
    }
}

// Adds an accepted clause: the tables are judged next.
fn add_sound(
    n: u32,
    prefix: &[u32],
    classes: &mut [u32],
    parents: &mut [u32],
    counts: &mut [u32],
    tally: Tally,
    clause: &[i32],
) -> Tallied
    requires sound { SoundPrefix n prefix.now × InRows clause.now }
    ensures added { AddsBehind (ForestCause n prefix.now (rows_lent classes parents counts)
        ∷ TallyCause (variables n prefix.now) (standing_in classes parents counts tally) ∷ [])
        (variables n prefix.now) (standing_in classes parents counts tally) clause.now
        (standing_out classes parents counts result.tally) result.answer }
{
    match tables_verdict(n, prefix, classes, parents, counts) {
        Err(refusal) => refused(refusal, tally),
        Ok(()) => add_formed(n, prefix, classes, parents, counts, tally, clause),
    }
}

// Adds a clause to well-formed tables: all that is left to refuse is the tally.
fn add_formed(
    n: u32,
    prefix: &[u32],
    classes: &mut [u32],
    parents: &mut [u32],
    counts: &mut [u32],
    tally: Tally,
    clause: &[i32],
) -> Tallied
    requires sound { SoundPrefix n prefix.now × InRows clause.now }
    requires rows { Room n classes.old parents.old counts.old × FormedBy n prefix.now classes.old parents.old }
    ensures added { AddsBehind (TallyCause (variables n prefix.now) (standing_in classes parents counts tally) ∷ [])
        (variables n prefix.now) (standing_in classes parents counts tally) clause.now
        (standing_out classes parents counts result.tally) result.answer }
{
    let seen = take_census(n, classes);
    if disagrees(tally, seen.names, seen.existentials) {
        return refused(Refusal(Fault::WrongTally, 0), tally);
    }
    let left = extend(n, prefix, classes, parents, counts, clause);
    let taken = take(tally, left);
    counted(n, taken)
}

// Puts the clause into well-formed tables, and the counts after it; gives how many class names are left.
fn extend(
    n: u32,
    prefix: &[u32],
    classes: &mut [u32],
    parents: &mut [u32],
    counts: &mut [u32],
    clause: &[i32],
) -> u32
    requires sound { SoundPrefix n prefix.now × InRows clause.now }
    requires rows { Room n classes.old parents.old counts.old × FormedBy n prefix.now classes.old parents.old }
    ensures rows { Rowed (variables n prefix.now)
        (Extended (variables n prefix.now) (lent (variables n prefix.now) classes.old parents.old)
        clause.now)
        classes.old parents.old classes.new parents.new }
    ensures counts { Recounted n prefix.now classes.new parents.new counts.old counts.new }
    ensures left { result ≡ how_many (names_itself (variables n prefix.now)
        (lent (variables n prefix.now) classes.new parents.new)) n }
{
    put_in(n, prefix, classes, parents, clause);
    recount(n, prefix, classes, parents, counts);
    let seen = take_census(n, classes);
    seen.names
}
