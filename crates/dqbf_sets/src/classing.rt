// Classes of what may be stepped on from x: two are in one class if one is reached from the other. They grow clause by clause in a union-find (loose
// rows), in which all that may be stepped on has one depth, so that there are classes but no parents.

ghost use Rattle.std.specs.Prelude.{◌≤◌, ◌≡◌, length};
ghost use Rattle.terms.specs.Limits.{most_variables};
ghost use Rattle.formula.specs.InnerLookup.{SoundClauses};
ghost use Rattle.forest_theory.specs.Tables.{row};
ghost use Rattle.dqbf_sets.specs.Inner.{Flat, Classed};

use grow_passes::rows::{load, put_all, settle, singles, write_out};
use terms::Variable;

// Takes rows with 1 for what may be stepped on and 0 for all else, and puts the name of its class in place of each 1. The parent rows, which are all 0,
// are written over the depths, which are no longer needed.
pub fn class_rows(n: u32, clauses: &[i32], rows: &mut [u32])
    requires sound { SoundClauses clauses.now }
    requires room { (n ≤ most_variables) × (n ≤ length rows.old) }
    requires flat { Flat n rows.old }
    ensures classed { Classed n (λ v. row n rows.old v ≡ 1) clauses.now rows.new }
{
    let mut depths = [0u32; Variable::ROWS];
    let mut classes = [0u32; Variable::ROWS];
    let mut parents = [0u32; Variable::ROWS];
    load(n, rows, &mut depths);
    singles(n, &depths, &mut classes, &mut parents);
    put_all(&depths, &mut classes, &mut parents, clauses);
    settle(n, &mut classes);
    write_out(n, &classes, &parents, rows, &mut depths);
}
