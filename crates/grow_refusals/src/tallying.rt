// The tally beside a forest (rule 4.3): whether it agrees with the existentials and class names of the rows, and what an add makes of it.

ghost use Rattle.std.specs.Prelude.{◌+◌, ◌-◌, ◌≤◌, ◌<◌, ◌≡◌};
ghost use Rattle.terms.specs.Limits.{most_variables};
ghost use Rattle.forest_tables.specs.InnerRows.{Tells};
ghost use Rattle.grow_refusals.specs.Admitted.{tally_clauses, WrongTally};

use terms::Tally;

// Whether a tally is refused as 18. Its merges and classes are never added up, since their sum might overflow.
pub fn disagrees(tally: Tally, names: u32, existentials: u32) -> bool
    requires fewer { names ≤ existentials }
    ensures told { Tells result (WrongTally tally names existentials) }
{
    if Tally::CLAUSES <= tally.clauses {
        return true;
    }
    if tally.classes != names {
        return true;
    }
    if tally.merges != existentials - names {
        return true;
    }
    false
}

// The tally with one clause more, which left so many classes: every class that is gone was merged into another.
pub fn take(tally: Tally, left: u32) -> Tally
    requires agrees { (tally.clauses < tally_clauses) × (left ≤ tally.classes) × (tally.merges + tally.classes ≤ most_variables) }
    ensures took { (result.clauses ≡ tally.clauses + 1) × (result.merges ≡ tally.merges + (tally.classes - left)) × (result.classes ≡ left) }
{
    Tally {
        clauses: tally.clauses + 1,
        merges: tally.merges + (tally.classes - left),
        classes: left,
    }
}
