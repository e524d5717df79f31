// What is looked at of an added clause: refusal 10.

ghost use Rattle.std.specs.Prelude.{[], ◌∷◌};
ghost use Rattle.terms.specs.Refusals.{Judged};
ghost use Rattle.grow_refusals.specs.Admitted.{AddedCause};

use terms::{Fault, Literal, Refusal};

// The first literal of an added clause whose variable is outside 1 to n.
pub fn check_added(n: u32, clause: &[i32]) -> Result<(), Refusal>
    ensures judged { Judged (AddedCause n clause.now ∷ []) result }
{
    for (i, &entry) in clause.iter().enumerate() {
        let number = Literal::new(entry).variable().0;
        if number == 0 || n < number {
            return Err(Refusal(Fault::ForeignLiteral, i));
        }
    }
    Ok(())
}
