// Whether lent tables are well formed, for the calls that have read the prefix and not yet its levels.

ghost use Rattle.std.specs.Prelude.{[], ◌∷◌};
ghost use Rattle.terms.specs.Refusals.{Judged};
ghost use Rattle.formula.specs.InnerLevels.{SoundPrefix};
ghost use Rattle.forest_tables.specs.Causes.{ForestCause};
ghost use Rattle.forest_tables.specs.Lent.{rows_in};

use forest_tables::checking::check_forest;
use formula_levels::fill_levels;
use terms::{Refusal, Variable};

// Whether the lent tables are well formed, by an accepted prefix.
pub fn tables_verdict(
    n: u32,
    prefix: &[u32],
    classes: &[u32],
    parents: &[u32],
    counts: &[u32],
) -> Result<(), Refusal>
    requires sound { SoundPrefix n prefix.now }
    ensures judged { Judged (ForestCause n prefix.now (rows_in classes parents counts) ∷ []) result }
{
    let mut levels = [0u32; Variable::ROWS];
    let mut universals = [false; Variable::ROWS];
    fill_levels(prefix, &mut levels, &mut universals);
    check_forest(n, prefix, &levels, &universals, classes, parents, counts)
}
