// The ends of all resolution paths from x and from its negation, and what depends on x by them.

ghost use Rattle.std.specs.Prelude.{◌≤◌, ◌<◌, ◌≡◌, ◌&&◌, ◌||◌, neg_ℤ, length};
ghost use Rattle.terms.specs.Limits.{most_resolution_variables};
ghost use Rattle.terms.specs.InnerLimits.{resolution_rows, resolution_literal_rows};
ghost use Rattle.terms.specs.Literals.{variable_of};
ghost use Rattle.forest_tables.specs.InnerTabled.{tabled};
ghost use Rattle.forest_tables.specs.InnerRows.{Tells};
ghost use Rattle.path_resolution.specs.InnerWalk.{Chained};
ghost use Rattle.forest_theory.specs.Reach.{Deeper};
ghost use Rattle.path_resolution.specs.Paths.{DependsByPaths};
ghost use Rattle.path_resolution.specs.InnerEnds.{Barred, ReadClauses, Ends, Pairs, Flags};

use crate::walk::literal_step;
use forest_tables::rows::is_deeper;
use sets_occurrences::thread;
use terms::{Literal, Variable};

// Flags each variable from 1 to n that depends on x. The occurrence list of every variable is made first.
pub fn flag_dependent(
    n: u32,
    clauses: &[i32],
    levels: &[u32],
    universals: &[bool],
    x: Variable,
    flags: &mut [bool],
)
    requires few { (n ≤ most_resolution_variables) × ReadClauses n clauses.now × (x.0 ≤ n) × (length flags.old ≡ resolution_rows) }
    ensures flagged { Flags n (DependsByPaths (tabled n levels.now universals.now) clauses.now x.0)
        flags.new }
{
    let mut all = [true; Variable::RESOLUTION_ROWS];
    all[0] = false;
    let mut first = [0u32; Variable::RESOLUTION_ROWS];
    let mut next = [0u32; Literal::ENTRIES];
    thread(clauses, &all, &mut first, &mut next);
    flag_tied(n, clauses, levels, universals, &first, &next, x, flags);
}

// Flags each variable that depends on x, by the occurrence lists of the variables.
fn flag_tied(
    n: u32,
    clauses: &[i32],
    levels: &[u32],
    universals: &[bool],
    first: &[u32],
    next: &[u32],
    x: Variable,
    flags: &mut [bool],
)
    requires few { (n ≤ most_resolution_variables) × ReadClauses n clauses.now × (x.0 ≤ n) × (length flags.old ≡ resolution_rows) }
    requires chained { Chained clauses.now first.now next.now × (length first.now ≡ resolution_rows) }
    ensures flagged { Flags n (DependsByPaths (tabled n levels.now universals.now) clauses.now x.0)
        flags.new }
{
    let mut ends = [false; Literal::RESOLUTION_ROWS];
    mark_ends(
        n,
        clauses,
        levels,
        universals,
        first,
        next,
        x,
        x.negation(),
        &mut ends,
    );
    let mut others = [false; Literal::RESOLUTION_ROWS];
    mark_ends(
        n,
        clauses,
        levels,
        universals,
        first,
        next,
        x,
        x.literal(),
        &mut others,
    );
    pair_ends(n, levels, universals, x, &ends, &others, flags);
}

// Marks the ends of all paths from the complement of a literal of x, and with them every literal that a path may not pass.
fn mark_ends(
    n: u32,
    clauses: &[i32],
    levels: &[u32],
    universals: &[bool],
    first: &[u32],
    next: &[u32],
    x: Variable,
    from: Literal,
    marks: &mut [bool],
)
    requires few { (n ≤ most_resolution_variables) × ReadClauses n clauses.now × (length marks.old ≡ resolution_literal_rows) }
    requires chained { Chained clauses.now first.now next.now × (variable_of from.0 < length first.now) }
    ensures ends { Ends (tabled n levels.now universals.now) clauses.now x.0 (neg_ℤ from.0)
        marks.new }
{
    bar(n, levels, universals, x, marks);
    literal_step(clauses, first, next, from, marks);
}

// Marks both literals of every variable from 1 to n that a path may not pass, and no other literal of one.
fn bar(n: u32, levels: &[u32], universals: &[bool], x: Variable, marks: &mut [bool])
    requires few { (n ≤ most_resolution_variables) × (length marks.old ≡ resolution_literal_rows) }
    ensures barred { Barred (tabled n levels.now universals.now) x.0 marks.new }
{
    for v in 1..=n {
        let barred = !is_deeper(n, levels, universals, x, Variable::new(v));
        let row = (v + v) as usize;
        marks[row] = barred;
        marks[row + 1] = barred;
    }
}

// Flags each variable from 1 to n that is an existential deeper than x and has opposite literals in the two tables.
fn pair_ends(
    n: u32,
    levels: &[u32],
    universals: &[bool],
    x: Variable,
    ends: &[bool],
    others: &[bool],
    flags: &mut [bool],
)
    requires few { (n ≤ most_resolution_variables) × (length flags.old ≡ resolution_rows) }
    requires sizes { (length ends.now ≡ resolution_literal_rows) × (length others.now ≡ resolution_literal_rows) }
    ensures flagged { Flags n (λ v. Deeper (tabled n levels.now universals.now) x.0 v
        × Pairs ends.now others.now v) flags.new }
{
    for v in 1..=n {
        flags[v as usize] = depends(n, levels, universals, x, ends, others, Variable::new(v));
    }
}

// Whether y is an existential deeper than x and has opposite literals in the two tables.
fn depends(
    n: u32,
    levels: &[u32],
    universals: &[bool],
    x: Variable,
    ends: &[bool],
    others: &[bool],
    y: Variable,
) -> bool
    requires few { y.0 ≤ most_resolution_variables }
    requires sizes { (length ends.now ≡ resolution_literal_rows) × (length others.now ≡ resolution_literal_rows) }
    ensures told { Tells result (Deeper (tabled n levels.now universals.now) x.0 y.0
        × Pairs ends.now others.now y.0) }
{
    if !is_deeper(n, levels, universals, x, y) {
        return false;
    }
    let row = (y.0 + y.0) as usize;
    crossed(ends[row], ends[row + 1], others[row], others[row + 1])
}

// Whether a and d are set, or b and c.
fn crossed(a: bool, b: bool, c: bool, d: bool) -> bool
    ensures crossed { result ≡ (a && d || b && c) }
{
    a && d || b && c
}
