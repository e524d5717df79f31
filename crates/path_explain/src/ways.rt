// The way read off the distances: the clause that it begins with, and from each clause the first of those that are one nearer.

ghost use Rattle.std.specs.Prelude.{ℕ, ◌≤◌, ◌≡◌, Bool, List, ◌≢◌, length};
ghost use Rattle.terms.specs.Limits.{clause_entries};
ghost use Rattle.terms.specs.InnerLimits.{variable_rows};
ghost use Rattle.terms.specs.Overwritten.{overwritten};
ghost use Rattle.formula.specs.InnerLookup.{NextZero, SoundClauses};
ghost use Rattle.formula.specs.Tables.{at};
ghost use Rattle.forest_entries.specs.InnerFlags.{Has};
ghost use Rattle.forest_tables.specs.InnerRows.{Tells};
ghost use Rattle.path_explain.specs.InnerTies.{Cleared, Holds};
ghost use Rattle.path_explain.specs.InnerSearch.{Flag, Small};
ghost use Rattle.path_explain.specs.InnerWays.{Best, HoldsBefore, IsNearer, Lower, Lowest, Nearer, Nearest, OpensBefore, OpensBy, Owners, Ready, Steps, owner_told};

use forest_entries::{Signs, has_sign, side_of};
use formula::clauses::{literal_at, variable_at};
use terms::pairs::unpack;
use terms::{Literal, Variable};

// The clause that a way begins with: of the clauses that have x by one of the signs the nearest, and of these the first; none where no clause has.
pub fn first_clause(
    clauses: &[i32],
    next: &[u32],
    dists: &[u16],
    x: Variable,
    signs: Signs,
) -> Option<u32>
    requires owned { Owners next.now (length clauses.now) × (length dists.now ≡ clause_entries) × (x.0 ≢ 0) }
    ensures best { Best (OpensBefore clauses.now next.now signs x.0 (length clauses.now))
        dists.now (owner_told result) × (owner_told result ≤ clause_entries) }
{
    let mut best = None;
    for i in 0..clauses.len() {
        if opens(literal_at(clauses, i), x, signs) {
            best = nearer(dists, best, unpack(next[i]).high);
        }
    }
    best
}

// Whether a literal is one of x with one of the signs.
fn opens(literal: Literal, x: Variable, signs: Signs) -> bool
    requires named { x.0 ≢ 0 }
    ensures told { Tells result (OpensBy signs x.0 literal.0) }
{
    if literal.variable() != x {
        return false;
    }
    has_sign(signs, side_of(literal))
}

// The better of the clause found so far and the clause of an owner: the one with the less distance, and of two with the same one the lower. None, the
// owner 0, and a clause with no distance, are worse than any.
fn nearer(dists: &[u16], best: Option<u32>, owner: u32) -> Option<u32>
    requires room { (length dists.now ≡ clause_entries) × (owner_told best ≤ clause_entries) × (owner ≤ clause_entries) }
    ensures nearer { Nearer dists.now (owner_told best) owner (owner_told result) }
{
    let Some(clause) = owner.checked_sub(1) else {
        return best;
    };
    let distance = dists[clause as usize];
    if distance == 0 {
        return best;
    }
    let Some(other) = best else {
        return Some(clause);
    };
    let least = dists[other as usize];
    if least < distance {
        return best;
    }
    if distance < least {
        return Some(clause);
    }
    Some(clause.min(other))
}

// Fills for each variable the lowest owner among its clauses that are nearest to y, which are one nearer than itself; 0 where there is none.
pub fn fill_nearest(clauses: &[i32], next: &[u32], dists: &[u16], rows: &[u16], nearest: &mut [u32])
    requires owned { SoundClauses clauses.now × Owners next.now (length clauses.now) × (length dists.now ≡ clause_entries)
        × Small dists.now × (length rows.now ≡ variable_rows) × Cleared nearest.old variable_rows }
    ensures nearest { Nearest (HoldsBefore clauses.now next.now (length clauses.now))
        dists.now rows.now nearest.new }
{
    for i in 0..clauses.len() {
        let at = variable_at(clauses, i).0 as usize;
        let owner = unpack(next[i]).high;
        if is_nearer(dists, owner, rows[at], nearest[at]) {
            nearest[at] = owner;
        }
    }
}

// Whether the clause of an owner is one nearer than a variable with the distance `row`, and the owner lower than `best`, 0 for none.
fn is_nearer(dists: &[u16], owner: u32, row: u16, best: u32) -> bool
    requires room { (length dists.now ≡ clause_entries) × (owner ≤ clause_entries) × Small dists.now }
    ensures told { Tells result (IsNearer dists.now owner row best) }
{
    let Some(clause) = owner.checked_sub(1) else {
        return false;
    };
    let distance = dists[clause as usize];
    if distance == 0 || row != distance + 1 {
        return false;
    }
    best == 0 || owner < best
}

// Writes the way of `count` clauses that begins with the clause `first`.
pub fn write_way(
    clauses: &[i32],
    begins: &[u16],
    rows: &[u16],
    nearest: &[u32],
    first: u32,
    count: u16,
    out: &mut [u32],
)
    requires ready { ((flags : List Bool) × (y : ℕ) × (dists : List ℕ)
        × Ready clauses.now begins.now flags y dists rows.now nearest.now first count) × (count ≤ length out.old) }
    ensures written { (flags : List Bool) (y : ℕ) (dists : List ℕ)
        → Ready clauses.now begins.now flags y dists rows.now nearest.now first count
        → (path : List ℕ) × (length path ≡ count) × Steps (Holds clauses.now) (Flag flags) dists first path
        × (out.new ≡ overwritten path out.old) }
{
    let mut clause = first;
    for i in 0..count {
        out[i as usize] = clause;
        let start = (begins[clause as usize] - 1) as usize;
        // No clause is nearer than the last one.
        let Some(nearer) = onward(clauses, start, count - i, rows, nearest) else {
            return;
        };
        clause = nearer;
    }
}

// Of the variables of the clause from `start` on that have the distance `row`: the lowest of their nearest clauses, if there is one.
fn onward(clauses: &[i32], start: usize, row: u16, rows: &[u16], nearest: &[u32]) -> Option<u32>
    requires room { SoundClauses clauses.now × (length rows.now ≡ variable_rows) × (length nearest.now ≡ variable_rows) }
    ensures lowest { (end : ℕ) → NextZero clauses.now start end
        → Lowest (λ v. Has clauses.now start end v × (at rows.now v ≡ row)) nearest.now (owner_told result) }
{
    let mut best = None;
    for i in start..clauses.len() {
        let variable = variable_at(clauses, i);
        if variable.0 == 0 {
            return best;
        }
        let at = variable.0 as usize;
        if rows[at] == row {
            best = lower(best, nearest[at]);
        }
    }
    best
}

// The lower of the clause found so far and the clause of an owner, where the owner 0 is none.
fn lower(best: Option<u32>, owner: u32) -> Option<u32>
    ensures lower { Lower (owner_told best) owner (owner_told result) }
{
    let Some(clause) = owner.checked_sub(1) else {
        return best;
    };
    let Some(other) = best else {
        return Some(clause);
    };
    Some(clause.min(other))
}
