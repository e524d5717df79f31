// The exact rows of a forest in lent tables, settled out of a union-find of loose ones: the rows of a formula, and those of well-formed tables
// with a clause put in; with their counts.

#![tactic(auto)]

pub mod counts;

ghost use Rattle.std.specs.Prelude.{ℕ, ◌≤◌, ◌≡◌, List, [], ◌∷◌, ◌++◌, length};
ghost use Rattle.formula.specs.InnerLevels.{SoundPrefix};
ghost use Rattle.formula.specs.InnerLookup.{InRows, SoundClauses};
ghost use Rattle.formula.specs.Meaning.{clauses as Meaning·clauses, connected};
ghost use Rattle.forest_theory.specs.Reach.{Joined};
ghost use Rattle.forest_theory.specs.Tables.{lent, joins};
ghost use Rattle.forest_tables.specs.InnerCounting.{FormedBy};
ghost use Rattle.forest_tables.specs.Formula.{variables, Shares};
ghost use Rattle.grow_union_find.specs.InnerLoose.{links, Growing};
ghost use Rattle.grow_passes.specs.InnerRows.{EndsAt, Depths};
ghost use Rattle.grow_rows.specs.InnerRows.{Exact, Rowed};

use grow_clause::put_one;
use grow_passes::depths::fill_depths;
use grow_passes::rows::{load, put_all, settle, singles, write_out};
use terms::Variable;

// The rows of classes and parents of an accepted formula: loose rows of no clause, every clause put in, and the exact rows written out.
// Gives how many clauses there are.
pub fn grow(
    n: u32,
    prefix: &[u32],
    clauses: &[i32],
    classes: &mut [u32],
    parents: &mut [u32],
) -> u32
    requires sound { SoundPrefix n prefix.now × SoundClauses clauses.now × (n ≤ length classes.old) × (n ≤ length parents.old) }
    ensures rowed { Rowed (variables n prefix.now) (Shares clauses.now)
        classes.old parents.old classes.new parents.new }
    ensures number { result ≡ length (Meaning·clauses clauses.now) }
{
    let mut depths = [0u32; Variable::ROWS];
    let mut loose = [0u32; Variable::ROWS];
    let mut ups = [0u32; Variable::ROWS];
    fill_depths(n, prefix, &mut depths);
    singles(n, &depths, &mut loose, &mut ups);
    let taken = put_all(&depths, &mut loose, &mut ups, clauses);
    write_exact(n, &depths, &mut loose, &ups, classes, parents);
    taken
}

// Well-formed tables with a clause put in: they are loose rows already, and the exact rows are written back.
pub fn put_in(n: u32, prefix: &[u32], classes: &mut [u32], parents: &mut [u32], clause: &[i32])
    requires sound { SoundPrefix n prefix.now × InRows clause.now × (n ≤ length classes.old) × (n ≤ length parents.old) }
    requires formed { FormedBy n prefix.now classes.old parents.old }
    ensures rowed { Rowed (variables n prefix.now)
        (Joined (joins (variables n prefix.now) (lent (variables n prefix.now) classes.old parents.old)
        ++ (connected clause.now ∷ [])))
        classes.old parents.old classes.new parents.new }
{
    let mut depths = [0u32; Variable::ROWS];
    let mut loose = [0u32; Variable::ROWS];
    let mut ups = [0u32; Variable::ROWS];
    fill_depths(n, prefix, &mut depths);
    load(n, classes, &mut loose);
    load(n, parents, &mut ups);
    put_one(&depths, &mut loose, &mut ups, clause);
    write_exact(n, &depths, &mut loose, &ups, classes, parents);
}

// Settles loose rows and writes them out: the lent rows represent the joins that the loose ones stand for, by any prefix with these depths.
fn write_exact(
    n: u32,
    depths: &[u32],
    loose: &mut [u32],
    ups: &[u32],
    classes: &mut [u32],
    parents: &mut [u32],
)
    requires rows { Growing depths.now loose.old ups.now × EndsAt n depths.now }
    requires room { (n ≤ length classes.old) × (n ≤ length parents.old) }
    ensures exact { (es : List ℕ) → Depths n es depths.now
        → Exact (variables n es) (links depths.now loose.old ups.now)
        classes.old parents.old classes.new parents.new }
{
    settle(n, loose);
    write_out(n, loose, ups, classes, parents);
}
