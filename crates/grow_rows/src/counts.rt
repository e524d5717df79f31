// The counts of a grown forest, written into the lent rows, and how many existentials and class names its rows have.

ghost use Rattle.std.specs.Prelude.{◌+◌, ◌≤◌, ◌<◌, ◌≡◌, length};
ghost use Rattle.terms.specs.Limits.{most_variables};
ghost use Rattle.terms.specs.InnerLimits.{variable_rows};
ghost use Rattle.formula.specs.InnerLevels.{SoundPrefix};
ghost use Rattle.forest_tables.specs.InnerCounting.{FormedBy};
ghost use Rattle.grow_rows.specs.InnerRows.{Copied, Recounted, CensusOf};

use forest_tables::counts::fill_counts;
use terms::Variable;

// Writes the counts of well-formed rows into the lent rows of 1 to n.
pub fn recount(n: u32, prefix: &[u32], classes: &[u32], parents: &[u32], counts: &mut [u32])
    requires formed { SoundPrefix n prefix.now × FormedBy n prefix.now classes.now parents.now × (n ≤ length counts.old) }
    ensures counted { Recounted n prefix.now classes.now parents.now
        counts.old counts.new }
{
    let mut table = [0u16; Variable::ROWS];
    fill_counts(n, prefix, classes, parents, &mut table);
    copy_out(n, &table, counts);
}

// Copies the rows of 1 to n out of a table with row v for the variable v.
fn copy_out(n: u32, table: &[u16], rows: &mut [u32])
    requires room { (n ≤ most_variables) × (length table.now ≡ variable_rows) × (n ≤ length rows.old) }
    ensures copied { Copied n table.now rows.old n rows.new }
{
    for (at, row) in rows[..n as usize].iter_mut().enumerate() {
        *row = u32::from(table[at + 1]);
    }
}

// How many existentials there are, and how many class names.
#[derive(Clone, Copy)]
pub struct Census {
    pub existentials: u32,
    pub names: u32,
}

// Counts both in the class rows of 1 to n: only a universal has 0, and only a class name has itself.
pub fn take_census(n: u32, classes: &[u32]) -> Census
    requires room { n ≤ length classes.now }
    ensures census { CensusOf n classes.now n result.existentials result.names }
{
    let mut existentials = 0;
    let mut names = 0;
    for (passed, &class) in classes[..n as usize].iter().enumerate() {
        if class == 0 {
            continue;
        }
        existentials += 1;
        if class as usize == passed + 1 {
            names += 1;
        }
    }
    Census {
        existentials,
        names,
    }
}
