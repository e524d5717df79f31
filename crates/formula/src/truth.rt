// Clauses that are always true: those with both signs of one variable.

ghost use Rattle.std.specs.Prelude.{◌+◌, ◌≡◌};
ghost use Rattle.formula.specs.Meaning.{always_true};
ghost use Rattle.formula.specs.InnerLookup.{InRows, Stamps};

use terms::Literal;

// Whether a clause has both signs of one variable. `seen` has a row for each literal, which gets the stamp when the literal is passed. Every row
// holds a lesser stamp before, so that one table serves clause after clause, each with a greater stamp, and is never cleared.
pub fn always_true(clause: &[i32], seen: &mut [u16], stamp: u16) -> bool
    requires rows { InRows clause.now }
    requires stamps { Stamps seen.old stamp }
    ensures truth { result ≡ always_true clause.now }
    ensures stamped { Stamps seen.new (stamp + 1) }
{
    for &entry in clause {
        let literal = Literal::new(entry);
        if seen[literal.other_row()] == stamp {
            return true;
        }
        seen[literal.row()] = stamp;
    }
    false
}
