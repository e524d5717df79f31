// Passes over loose rows: the rows of no clause, lent rows read in, all clauses put in, exact class rows out of loose ones, and the rows written out.

ghost use Rattle.std.specs.Prelude.{ℕ, ◌≤◌, ◌<◌, ◌≡◌, [], length, get_or};
ghost use Rattle.terms.specs.Limits.{most_variables};
ghost use Rattle.terms.specs.InnerLimits.{variable_rows};
ghost use Rattle.forest_theory.specs.Tables.{row};
ghost use Rattle.forest_tables.specs.Formula.{joined};
ghost use Rattle.formula.specs.InnerLookup.{SoundClauses};
ghost use Rattle.formula.specs.Meaning.{clauses as Meaning·clauses};
ghost use Rattle.grow_passes.specs.InnerRows.{EndsAt, Holds, Settled, Written};

use forest_tables::rows::row_of;
use formula::clauses::next_zero;
use grow_clause::put;
use terms::{Literal, Variable};

// The rows of no clause: each existential in a class of its own, with no parent. The rows past n, where there is none, hold 0 already.
pub fn singles(n: u32, depths: &[u32], classes: &mut [u32], parents: &mut [u32])
    requires tables { EndsAt n depths.now × EndsAt n classes.old × EndsAt n parents.old × (get_or depths.now 0 0 ≡ 0) }
    ensures single { Holds depths.now classes.new parents.new [] }
{
    parents[..=n as usize].fill(0);
    for v in 0..=n {
        let at = v as usize;
        classes[at] = if depths[at] == 0 { 0 } else { v };
    }
}

// Reads lent rows into a table with row v for the variable v. The rows past n hold 0 already.
pub fn load(n: u32, rows: &[u32], table: &mut [u32])
    requires table { EndsAt n table.old }
    ensures read { (v : ℕ) → get_or table.new v 0 ≡ row n rows.now v }
{
    for v in 0..=n {
        let read = row_of(n, rows, Variable::new(v));
        table[v as usize] = read.0;
    }
}

// Puts in every clause of a table, one after the other, and gives how many there are.
pub fn put_all(depths: &[u32], classes: &mut [u32], parents: &mut [u32], clauses: &[i32]) -> u32
    requires single { Holds depths.now classes.old parents.old [] }
    requires clauses { SoundClauses clauses.now }
    ensures holds { Holds depths.now classes.new parents.new (joined clauses.now) }
    ensures number { result ≡ length (Meaning·clauses clauses.now) }
{
    let mut seen = [0u16; Literal::ROWS];
    let mut taken: u32 = 0;
    let mut start = 0;
    // A walk from clause to clause: the next begins behind the 0 that was found.
    while start < clauses.len() {
        let end = next_zero(clauses, start);
        if clauses.len() <= end {
            return taken;
        }
        let stamp = (end + 1) as u16;
        put(
            depths,
            classes,
            parents,
            &clauses[start..end],
            &mut seen,
            stamp,
        );
        taken += 1;
        start = end + 1;
    }
    taken
}

// Makes every class row name its class, from the lowest up: each points to a lower row, which is exact already, or to itself. Those past n hold 0.
pub fn settle(n: u32, classes: &mut [u32])
    requires table { EndsAt n classes.old }
    requires falling { (u : ℕ) → get_or classes.old u 0 ≤ u }
    ensures settled { Settled classes.old classes.new }
{
    for v in 0..=n as usize {
        let up = classes[v];
        classes[v] = classes[up as usize];
    }
}

// Writes the settled rows of 1 to n out into lent ones: the class rows into `rows`, and for each parent its class into `ups`.
pub fn write_out(n: u32, classes: &[u32], parents: &[u32], rows: &mut [u32], ups: &mut [u32])
    requires tables { (length classes.now ≡ variable_rows) × (length parents.now ≡ variable_rows)
        × ((u : ℕ) → get_or parents.now u 0 < variable_rows) }
    requires room { (n ≤ most_variables) × (n ≤ length rows.old) × (n ≤ length ups.old) }
    ensures written { Written n classes.now parents.now rows.old rows.new
        ups.old ups.new }
{
    let n = n as usize;
    rows[..n].copy_from_slice(&classes[1..=n]);
    for (v, up) in ups[..n].iter_mut().enumerate() {
        *up = classes[parents[v + 1] as usize];
    }
}
