// A tally in three cells, as its struct in C has it.

ghost use Rattle.std.specs.Prelude.{◌≡◌};
ghost use Rattle.c_answers.specs.Codes.{tally_in};
ghost use Rattle.c_answers.specs.InnerCells.{Fits, Any, TallyLaid, BuiltLaid, AddedLaid, said};

use crate::lay;
use terms::{Tallied, Tally};

// Clauses, merges and classes, in this order.
pub type TallyCells = [u32; 3];

// The tally that was lent.
pub fn tally_in(cells: &TallyCells) -> Tally
    ensures held { result ≡ tally_in cells.now }
{
    Tally {
        clauses: cells[0],
        merges: cells[1],
        classes: cells[2],
    }
}

// The tally of an answer that accepts goes into the cells.
fn lay_tally(told: Tallied, cells: &mut TallyCells)
    ensures laid { TallyLaid (said told.answer) told.tally cells.old cells.new }
{
    let answer = told.answer;
    if answer.is_ok() {
        let tally = told.tally;
        *cells = [tally.clauses, tally.merges, tally.classes];
    }
}

// What build gives: a count and the tally.
pub fn lay_built(told: Tallied, cells: &mut TallyCells, count: &mut u32, place: &mut u32) -> u32
    requires fits { Fits Any (said told.answer) }
    ensures laid { BuiltLaid told cells count place result }
{
    lay_tally(told, cells);
    let answer = told.answer;
    lay(answer, count, place)
}

// What add gives: the tally.
pub fn lay_added(told: Tallied, cells: &mut TallyCells, place: &mut u32) -> u32
    requires fits { Fits Any (said told.answer) }
    ensures laid { AddedLaid told cells place result }
{
    let mut count: u32 = 0;
    lay_built(told, cells, &mut count, place)
}
