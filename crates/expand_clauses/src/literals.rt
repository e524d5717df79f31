// The clauses of the result: in clause order first copies with x false, then second copies with x true and members renamed.

ghost use Rattle.std.specs.Prelude.{◌+◌, ◌≤◌, ◌≡◌, ◌||◌, [], ◌∷◌, length};
ghost use Rattle.terms.specs.Limits.{clause_entries};
ghost use Rattle.formula.specs.Meaning.{clauses as Meaning·clauses};
ghost use Rattle.formula.specs.InnerLookup.{InRows, SoundClauses, Stamps};
ghost use Rattle.expand_clauses.specs.Expansion.{made_true, satisfied, has_x};
ghost use Rattle.expand_clauses.specs.InnerCopies.{has_member, renamed, named, has_copy, expanded_clauses};
ghost use Rattle.expand_clauses.specs.InnerCopied.{Stored, tabled, expanded_entries, Copies, closed, copied};

use crate::stores::{copy_at, store};
use formula::clauses::next_zero;
use formula::truth::always_true;
use terms::{Literal, Variable};

// Writes the clauses into a table as far as that has rows, and gives the count of all entries.
pub fn copy_clauses(clauses: &[i32], x: Variable, copies: &[u32], out: &mut [i32]) -> usize
    requires sound { SoundClauses clauses.now × Copies copies.now }
    ensures stored { Stored (expanded_clauses x.0 (tabled copies.now) clauses.now)
        out.old out.new 0 result }
{
    let end = copy_all(false, clauses, x, copies, out, 0);
    copy_all(true, clauses, x, copies, out, end)
}

// Writes the copies of all clauses with x at a value, from the row `at` on; gives the row behind them.
fn copy_all(
    value: bool,
    clauses: &[i32],
    x: Variable,
    copies: &[u32],
    out: &mut [i32],
    at: usize,
) -> usize
    requires sound { SoundClauses clauses.now × Copies copies.now × (at ≤ clause_entries) }
    ensures stored { Stored (copied value x.0 (tabled copies.now) (Meaning·clauses clauses.now))
        out.old out.new at result }
    ensures few { result ≤ at + length clauses.now }
{
    let mut seen = [0u16; Literal::ROWS];
    let mut end = at;
    let mut start = 0;
    // A clause at a time: the 0 that closes it says where the next one begins.
    while start < clauses.len() {
        let stop = next_zero(clauses, start);
        if clauses.len() <= stop {
            return end;
        }
        let stamp = (stop + 1) as u16;
        end = copy_clause(
            value,
            &clauses[start..stop],
            x,
            copies,
            &mut seen,
            stamp,
            out,
            end,
        );
        start = stop + 1;
    }
    end
}

// Writes the copy of a clause with x at a value, where it has one, from the row `at` on; gives the row behind it.
fn copy_clause(
    value: bool,
    clause: &[i32],
    x: Variable,
    copies: &[u32],
    seen: &mut [u16],
    stamp: u16,
    out: &mut [i32],
    at: usize,
) -> usize
    requires sound { InRows clause.now × Stamps seen.old stamp × Copies copies.now
        × (length clause.now ≤ clause_entries) × (at ≤ expanded_entries) }
    ensures stored { Stored (copied value x.0 (tabled copies.now) (clause.now ∷ []))
        out.old out.new at result × Stamps seen.new (stamp + 1) }
{
    if has_copy(value, clause, x, copies, seen, stamp) {
        return copy_one(value, clause, x, copies, out, at);
    }
    at
}

// Whether a clause has a copy with x at a value.
fn has_copy(
    value: bool,
    clause: &[i32],
    x: Variable,
    copies: &[u32],
    seen: &mut [u16],
    stamp: u16,
) -> bool
    requires sound { InRows clause.now × Stamps seen.old stamp }
    ensures told { (result ≡ has_copy value x.0 (tabled copies.now) clause.now)
        × Stamps seen.new (stamp + 1) }
{
    if always_true(clause, seen, stamp) {
        return false;
    }
    if is_satisfied(value, clause, x) {
        return false;
    }
    if value {
        return is_touched(clause, x, copies);
    }
    true
}

// Whether x satisfies a clause by its value.
fn is_satisfied(value: bool, clause: &[i32], x: Variable) -> bool
    ensures told { result ≡ satisfied value x.0 clause.now }
{
    clause
        .iter()
        .any(|&entry| makes_true(value, Literal::new(entry), x))
}

// Whether x makes a literal true by its value.
fn makes_true(value: bool, literal: Literal, x: Variable) -> bool
    ensures told { result ≡ made_true value x.0 literal.0 }
{
    if literal.variable() != x {
        return false;
    }
    if literal.0 < 0 { !value } else { value }
}

// Whether a clause has x, in either sign, or a member.
fn is_touched(clause: &[i32], x: Variable, copies: &[u32]) -> bool
    ensures told { result ≡ (has_x x.0 clause.now || has_member (tabled copies.now) clause.now) }
{
    clause.iter().any(|&entry| {
        let variable = Literal::new(entry).variable();
        variable == x || copy_at(copies, variable).is_some()
    })
}

// Writes the copy of a clause with x at a value and its 0, from the row `at` on; gives the row behind them.
fn copy_one(
    value: bool,
    clause: &[i32],
    x: Variable,
    copies: &[u32],
    out: &mut [i32],
    at: usize,
) -> usize
    requires few { Copies copies.now × (length clause.now ≤ clause_entries) × (at ≤ expanded_entries) }
    ensures stored { Stored (closed value x.0 (tabled copies.now) clause.now)
        out.old out.new at result }
{
    let mut end = at;
    for &entry in clause {
        let literal = Literal::new(entry);
        if literal.variable() == x {
            continue;
        }
        let name = name_by(value, literal, copies);
        store(out, end, name.0);
        end += 1;
    }
    store(out, end, 0);
    end + 1
}

// A literal as it stands in a copy with x at a value: with x true a member has the name of its copy.
fn name_by(value: bool, literal: Literal, copies: &[u32]) -> Literal
    requires few { Copies copies.now }
    ensures named { result.0 ≡ named value (tabled copies.now) literal.0 }
{
    if value {
        rename(literal, copies)
    } else {
        literal
    }
}

// A member renamed to its copy, its sign kept; any other literal as it is.
fn rename(literal: Literal, copies: &[u32]) -> Literal
    requires few { Copies copies.now }
    ensures renamed { result.0 ≡ renamed (tabled copies.now) literal.0 }
{
    let Some(copy) = copy_at(copies, literal.variable()) else {
        return literal;
    };
    if literal.0 < 0 {
        copy.negation()
    } else {
        copy.literal()
    }
}
