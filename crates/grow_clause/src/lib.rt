// A clause put into loose rows as a star: the chain of each of its existentials is joined to that of the deepest, so that k literals cost k joins.
// At every level on which two of them are allowed the deepest is allowed too, so these pairs connect all that the clause connects.

#![tactic(auto)]

ghost use Rattle.std.specs.Prelude.{◌+◌, ◌≡◌, map, length, get_or};
ghost use Rattle.terms.specs.InnerLimits.{variable_rows};
ghost use Rattle.terms.specs.Literals.{variable_of};
ghost use Rattle.formula.specs.InnerLookup.{InRows, Stamps};
ghost use Rattle.formula.specs.Meaning.{connected};
ghost use Rattle.grow_union_find.specs.InnerLoose.{Growing, Grew};
ghost use Rattle.grow_clause.specs.InnerDeepest.{Deepest};

use formula::truth::always_true;
use grow_union_find::merge;
use terms::{Literal, Variable};

// The deepest existential of a clause; a variable of depth 0 where it has none.
fn deepest(depths: &[u32], clause: &[i32]) -> Variable
    requires sized { length depths.now ≡ variable_rows }
    requires zero { get_or depths.now 0 0 ≡ 0 }
    requires literals { InRows clause.now }
    ensures deepest { Deepest depths.now clause.now result.0 }
{
    let mut found = Variable(0);
    let mut depth = 0;
    for &entry in clause {
        let variable = Literal::new(entry).variable();
        let here = depths[variable.0 as usize];
        if depth < here {
            found = variable;
            depth = here;
        }
    }
    found
}

// Joins the chain of each existential of the clause to that of the deepest, which is passed over: it is there already.
fn join_all(
    depths: &[u32],
    classes: &mut [u32],
    parents: &mut [u32],
    clause: &[i32],
    deep: Variable,
)
    requires rows { Growing depths.now classes.old parents.old }
    requires literals { InRows clause.now }
    requires deepest { Deepest depths.now clause.now deep.0 }
    ensures joined { Grew depths.now classes.old parents.old (map variable_of clause.now)
        classes.new parents.new }
{
    for &entry in clause {
        let variable = Literal::new(entry).variable();
        if depths[variable.0 as usize] == 0 || variable.0 == deep.0 {
            continue;
        }
        merge(depths, classes, parents, deep, variable);
    }
}

// Puts a clause into the rows; one that is always true connects nothing, which is told by the stamps in `seen`.
pub fn put(
    depths: &[u32],
    classes: &mut [u32],
    parents: &mut [u32],
    clause: &[i32],
    seen: &mut [u16],
    stamp: u16,
)
    requires rows { Growing depths.now classes.old parents.old }
    requires literals { InRows clause.now }
    requires stamps { Stamps seen.old stamp }
    ensures joined { Grew depths.now classes.old parents.old (connected clause.now)
        classes.new parents.new }
    ensures stamps { Stamps seen.new (stamp + 1) }
{
    if always_true(clause, seen, stamp) {
        return;
    }
    let deep = deepest(depths, clause);
    join_all(depths, classes, parents, clause, deep);
}

// Puts a single clause into the rows, with a new table of stamps.
pub fn put_one(depths: &[u32], classes: &mut [u32], parents: &mut [u32], clause: &[i32])
    requires rows { Growing depths.now classes.old parents.old }
    requires literals { InRows clause.now }
    ensures joined { Grew depths.now classes.old parents.old (connected clause.now)
        classes.new parents.new }
{
    let mut seen = [0u16; Literal::ROWS];
    put(depths, classes, parents, clause, &mut seen, 1);
}
