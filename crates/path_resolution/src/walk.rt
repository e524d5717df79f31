// The walk along resolution paths: from a literal to its complement, and from the complement to a clause. The two steps call each other, and each
// literal is marked before the walk goes on from it, so that ever fewer are unmarked and the walk ends.

ghost use Rattle.std.specs.Prelude.{◌<◌, ◌≡◌, neg_ℤ, length};
ghost use Rattle.terms.specs.Literals.{variable_of};
ghost use Rattle.sets_occurrences.specs.InnerThreads.{LastZero, link_at};
ghost use Rattle.path_resolution.specs.InnerWalk.{Leaves, Passes, Walked, Chained, Rowed, InClause};

use formula::clauses::{literal_at, variable_at};
use terms::Literal;
use terms::pairs::unpack;

// From a literal to its complement: every clause that has the complement is entered by it, along the occurrence list of the variable.
#[cycle(clause_step_literal_step)]
pub fn literal_step(clauses: &[i32], first: &[u32], next: &[u32], from: Literal, marks: &mut [bool])
    requires chained { Chained clauses.now first.now next.now × Rowed clauses.now marks.old
        × (variable_of from.0 < length first.now) }
    ensures walked { Walked clauses.now (Passes clauses.now (neg_ℤ from.0))
        marks.old marks.new }
{
    let complement = from.other_row();
    let mut at = first[from.variable().0 as usize];
    // A walk along the chain: the next entry is the one that the row names.
    while at != 0 {
        let entry = (at - 1) as usize;
        if literal_at(clauses, entry).row() == complement {
            clause_step(clauses, first, next, entry, marks);
        }
        at = link_at(next, entry);
    }
}

// From a clause that is entered by the literal of an entry: it is left by each literal of another variable, unless that is marked already.
#[cycle(clause_step_literal_step)]
fn clause_step(clauses: &[i32], first: &[u32], next: &[u32], entry: usize, marks: &mut [bool])
    requires chained { Chained clauses.now first.now next.now × Rowed clauses.now marks.old × InClause clauses.now entry }
    ensures walked { Walked clauses.now (Leaves clauses.now entry) marks.old marks.new }
{
    let own = variable_at(clauses, entry);
    let start = clause_start(clauses, entry);
    for i in start..clauses.len() {
        let literal = literal_at(clauses, i);
        let variable = literal.variable();
        if variable.0 == 0 {
            return;
        }
        let row = literal.row();
        if variable == own || marks[row] {
            continue;
        }
        marks[row] = true;
        literal_step(clauses, first, next, literal, marks);
    }
}

// The entry that follows in an occurrence list, plus one; 0 at its end.
fn link_at(next: &[u32], entry: usize) -> u32
    requires within { entry < length next.now }
    ensures linked { result ≡ link_at next.now entry }
{
    let row = unpack(next[entry]);
    row.low
}

// Where the clause of an entry begins: behind the last 0 before it.
fn clause_start(clauses: &[i32], entry: usize) -> usize
    ensures begun { LastZero clauses.now entry result }
{
    for i in (0..entry).rev() {
        if variable_at(clauses, i).0 == 0 {
            return i + 1;
        }
    }
    0
}
