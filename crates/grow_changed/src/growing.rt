// Which sets grow by an added clause: the sizes of all sets are found twice, by the clauses and rows as lent and with the clause put into copies of both,
// and those universals are listed whose two sizes differ.

ghost use Rattle.std.specs.Prelude.{ℕ, ◌+◌, ◌≤◌, ◌≡◌, [], ◌∷◌, length, get_or};
ghost use Rattle.std.proofs.lemmas.List.Edits.{sets};
ghost use Rattle.terms.specs.Answers.{Listing};
ghost use Rattle.terms.specs.Limits.{most_variables, clause_entries};
ghost use Rattle.terms.specs.InnerLimits.{variable_rows};
ghost use Rattle.formula.specs.Lent.{formula_in};
ghost use Rattle.formula.specs.InnerLevels.{SoundPrefix};
ghost use Rattle.formula.specs.InnerLookup.{InRows, SoundClauses};
ghost use Rattle.forest_theory.specs.Tables.{row};
ghost use Rattle.forest_tables.specs.InnerCounting.{FormedBy};
ghost use Rattle.forest_tables.specs.Lent.{rows};
ghost use Rattle.forest.specs.Causes.{OutputCause};
ghost use Rattle.grow.specs.Grown.{with_last};
ghost use Rattle.sets_occurrences.specs.InnerThreads.{Closed};
ghost use Rattle.grow_changed.specs.Changed.{Changes};
ghost use Rattle.grow_changed.specs.InnerChanged.{Fit, Grows, SizesWith, FlagsOther};

use forest_members::{Asked, list_picked};
use grow_rows::put_in;
use sets_sizes::fill_sizes;
use terms::{Literal, Refusal, Scheme, Variable};

// Lists the universals whose sets the clause changes, of an accepted formula with well-formed rows: all that is left to refuse is a table that is too
// short.
pub fn list_changed(
    scheme: Scheme,
    n: u32,
    prefix: &[u32],
    clauses: &[i32],
    classes: &[u32],
    parents: &[u32],
    clause: &[i32],
    out: &mut [u32],
) -> Result<u32, Refusal>
    requires sound { SoundPrefix n prefix.now × Fit n clauses.now clause.now }
    requires formed { FormedBy n prefix.now classes.now parents.now }
    ensures listed { Listing (OutputCause (Changes scheme (formula_in n prefix clauses) (rows classes.now parents.now [])
        clause.now) out.old ∷ [])
        (Changes scheme (formula_in n prefix clauses) (rows classes.now parents.now []) clause.now)
        out.old out.new result }
{
    let mut flags = [false; Variable::ROWS];
    flag_changed(
        scheme, n, prefix, clauses, classes, parents, clause, &mut flags,
    );
    list_picked(n, Asked::Points, &flags, classes, out)
}

// Flags the universals whose sets the clause changes.
fn flag_changed(
    scheme: Scheme,
    n: u32,
    prefix: &[u32],
    clauses: &[i32],
    classes: &[u32],
    parents: &[u32],
    clause: &[i32],
    flags: &mut [bool],
)
    requires sound { SoundPrefix n prefix.now × Fit n clauses.now clause.now }
    requires formed { FormedBy n prefix.now classes.now parents.now × (length flags.old ≡ variable_rows) }
    ensures flagged { Grows scheme (formula_in n prefix clauses) (rows classes.now parents.now []) clause.now
        flags.new }
{
    let mut before = [0u16; Variable::ROWS];
    let mut after = [0u16; Variable::ROWS];
    fill_sizes(scheme, n, prefix, clauses, classes, parents, &mut before);
    grown_sizes(
        scheme, n, prefix, clauses, classes, parents, clause, &mut after,
    );
    flag_other(n, &before, &after, flags);
}

// Flags the numbers from 1 to n whose rows are not the same in both tables.
fn flag_other(n: u32, before: &[u16], after: &[u16], flags: &mut [bool])
    requires sizes { (n ≤ most_variables) × (length before.now ≡ variable_rows) × (length after.now ≡ variable_rows)
        × (length flags.old ≡ variable_rows) }
    ensures flagged { FlagsOther before.now after.now flags.new n }
{
    for v in 1..=n as usize {
        flags[v] = before[v] != after[v];
    }
}

// The sizes of all sets with the clause put in: it stands last in a copy of the clauses.
fn grown_sizes(
    scheme: Scheme,
    n: u32,
    prefix: &[u32],
    clauses: &[i32],
    classes: &[u32],
    parents: &[u32],
    clause: &[i32],
    sizes: &mut [u16],
)
    requires sound { SoundPrefix n prefix.now × Fit n clauses.now clause.now }
    requires formed { FormedBy n prefix.now classes.now parents.now }
    requires zero { (length sizes.old ≡ variable_rows) × ((v : ℕ) → get_or sizes.old v 0 ≡ 0) }
    ensures sized { SizesWith scheme n prefix.now (with_last clauses.now clause.now)
        classes.now parents.now clause.now sizes.new }
{
    let mut longer = [0i32; Literal::ENTRIES];
    let end = put_last(clauses, clause, &mut longer);
    sizes_with(
        scheme,
        n,
        prefix,
        &longer[0..end],
        classes,
        parents,
        clause,
        sizes,
    );
}

// Writes the clauses, the clause behind them and its 0 into the front of a table; gives the entry behind that.
fn put_last(clauses: &[i32], clause: &[i32], longer: &mut [i32]) -> usize
    requires room { (length (with_last clauses.now clause.now) ≤ length longer.old) × (length longer.old ≡ clause_entries) }
    ensures put { (result ≡ length (with_last clauses.now clause.now))
        × (longer.new ≡ sets longer.old 0 (with_last clauses.now clause.now)) }
{
    let last = clauses.len() + clause.len();
    longer[..clauses.len()].copy_from_slice(clauses);
    longer[clauses.len()..last].copy_from_slice(clause);
    longer[last] = 0;
    last + 1
}

// The sizes of all sets by the clauses and by the rows with the clause put in, which are copied first.
fn sizes_with(
    scheme: Scheme,
    n: u32,
    prefix: &[u32],
    clauses: &[i32],
    classes: &[u32],
    parents: &[u32],
    clause: &[i32],
    sizes: &mut [u16],
)
    requires sound { SoundPrefix n prefix.now × SoundClauses clauses.now × Closed clauses.now × InRows clause.now }
    requires formed { FormedBy n prefix.now classes.now parents.now }
    requires zero { (length sizes.old ≡ variable_rows) × ((v : ℕ) → get_or sizes.old v 0 ≡ 0) }
    ensures sized { SizesWith scheme n prefix.now clauses.now classes.now parents.now
        clause.now sizes.new }
{
    let mut new_classes = [0u32; Variable::MOST as usize];
    let mut new_parents = [0u32; Variable::MOST as usize];
    copy_rows(n, classes, &mut new_classes);
    copy_rows(n, parents, &mut new_parents);
    put_in(n, prefix, &mut new_classes, &mut new_parents, clause);
    fill_sizes(
        scheme,
        n,
        prefix,
        clauses,
        &new_classes,
        &new_parents,
        sizes,
    );
}

// Copies the rows of 1 to n; where fewer are lent, the others are 0.
fn copy_rows(n: u32, from: &[u32], to: &mut [u32])
    requires room { (n ≤ most_variables) × (length to.old ≡ most_variables) }
    ensures copied { (v : ℕ) → row n to.new v ≡ row n from.now v }
{
    let lent = from.len().min(n as usize);
    to[..lent].copy_from_slice(&from[..lent]);
    to[lent..].fill(0);
}
