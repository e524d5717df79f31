// Whether lent forest tables are well formed (rule 3.3): their rows of class names and parents, and once these are, their counts (rule 4.1).

ghost use Rattle.std.specs.Prelude.{◌<◌, ◌≡◌, [], ◌∷◌, length, get_or};
ghost use Rattle.terms.specs.Refusals.{Judged};
ghost use Rattle.formula.specs.InnerLevels.{SoundPrefix, Levelled};
ghost use Rattle.forest_theory.specs.Tables.{row};
ghost use Rattle.forest_tables.specs.Causes.{ForestCause};
ghost use Rattle.forest_tables.specs.Lent.{rows_in};
ghost use Rattle.forest_tables.specs.InnerRows.{BadFound};
ghost use Rattle.forest_tables.specs.InnerCounting.{FormedBy, RightCount};

use crate::counts::fill_counts;
use crate::rows::{first_bad, row_of};
use terms::{Fault, Refusal, Variable};

// Refused as 12 at the first bad row, then at the first bad count; at 0 where a table is shorter than n. The level table is that of the prefix.
pub fn check_forest(
    n: u32,
    prefix: &[u32],
    levels: &[u32],
    universals: &[bool],
    classes: &[u32],
    parents: &[u32],
    counts: &[u32],
) -> Result<(), Refusal>
    requires levelled { SoundPrefix n prefix.now × Levelled prefix.now levels.now universals.now }
    ensures judged { Judged (ForestCause n prefix.now (rows_in classes parents counts) ∷ []) result }
{
    let size = n as usize;
    if classes.len() < size {
        return Err(Refusal(Fault::MalformedForest, 0));
    }
    if parents.len() < size {
        return Err(Refusal(Fault::MalformedForest, 0));
    }
    if counts.len() < size {
        return Err(Refusal(Fault::MalformedForest, 0));
    }
    if let Some(bad) = first_bad(n, levels, universals, classes, parents) {
        return Err(Refusal(Fault::MalformedForest, bad.0 as usize));
    }
    if let Some(wrong) = first_miscounted(n, prefix, classes, parents, counts) {
        return Err(Refusal(Fault::MalformedForest, wrong.0 as usize));
    }
    Ok(())
}

// The first variable whose count is not right.
fn first_miscounted(
    n: u32,
    prefix: &[u32],
    classes: &[u32],
    parents: &[u32],
    counts: &[u32],
) -> Option<Variable>
    requires sound { SoundPrefix n prefix.now }
    requires formed { FormedBy n prefix.now classes.now parents.now }
    ensures first { BadFound (RightCount n prefix.now classes.now parents.now counts.now) n result }
{
    let mut right = [0u16; Variable::ROWS];
    fill_counts(n, prefix, classes, parents, &mut right);
    first_other(n, &right, counts)
}

// The first variable v whose row differs from row v of the table.
fn first_other(n: u32, table: &[u16], rows: &[u32]) -> Option<Variable>
    requires rows { n < length table.now }
    ensures first { BadFound (λ v. row n rows.now v ≡ get_or table.now v 0) n result }
{
    for number in 1..=n {
        let v = Variable::new(number);
        if row_of(n, rows, v).0 != u32::from(table[number as usize]) {
            return Some(v);
        }
    }
    None
}
