// A path followed clause by clause. The variables of each clause passed are stamped with its number, so that the next one is held against them.

ghost use Rattle.std.specs.Prelude.{ℕ, ◌+◌, ◌<◌, ◌≡◌, false, [], ◌∷◌, length, get_or};
ghost use Rattle.terms.specs.InnerLimits.{variable_rows};
ghost use Rattle.terms.specs.Refusals.{Judged};
ghost use Rattle.formula.specs.InnerLookup.{NextZero, SoundClauses};
ghost use Rattle.formula.specs.Meaning.{always_true};
ghost use Rattle.formula.specs.Tables.{at};
ghost use Rattle.forest_tables.specs.InnerTabled.{tabled};
ghost use Rattle.forest_tables.specs.InnerRows.{Tells};
ghost use Rattle.forest_entries.specs.InnerFlags.{Has};
ghost use Rattle.forest_theory.specs.Reach.{Deeper};
ghost use Rattle.path_check.specs.Paths.{clause_at};
ghost use Rattle.path_check.specs.Causes.{PathCause};
ghost use Rattle.path_check.specs.InnerWalk.{Joins, Known, Meets, Small, Stamped, StandsFrom, Walked};

use forest_tables::rows::is_deeper;
use formula::clauses::variable_at;
use terms::{Fault, Refusal, Variable};

// The first entry at which a path fails, every entry of which names a clause.
pub fn follow(
    n: u32,
    levels: &[u32],
    universals: &[bool],
    clauses: &[i32],
    begins: &[u16],
    x: Variable,
    y: Variable,
    path: &[u32],
) -> Result<(), Refusal>
    requires known { SoundClauses clauses.now × Known clauses.now begins.now path.now }
    ensures judged { Judged (PathCause (tabled n levels.now universals.now)
        clauses.now x.0 y.0 path.now ∷ []) result }
{
    if path.is_empty() {
        return Err(Refusal(Fault::WrongPath, 0));
    }
    let mut stamps = [0u16; Variable::ROWS];
    for i in 0..path.len() {
        if fails_at(
            n, levels, universals, clauses, begins, x, y, path, &stamps, i,
        ) {
            return Err(Refusal(Fault::WrongPath, i));
        }
        stamp_clause(clauses, begins, path, i, &mut stamps);
    }
    Ok(())
}

// Whether a path fails at entry i, by the stamps of the clause before.
fn fails_at(
    n: u32,
    levels: &[u32],
    universals: &[bool],
    clauses: &[i32],
    begins: &[u16],
    x: Variable,
    y: Variable,
    path: &[u32],
    stamps: &[u16],
    i: usize,
) -> bool
    requires walked { Known clauses.now begins.now path.now × Walked clauses.now path.now stamps.now i × (i < length path.now) }
    ensures told { Tells result (PathCause (tabled n levels.now universals.now)
        clauses.now x.0 y.0 path.now 24 i) }
{
    let number = path[i];
    let row = begins[number as usize];
    if row == 0 {
        return true;
    }
    let start = (row - 1) as usize;
    if !goes_on(n, levels, universals, clauses, start, x, path, stamps, i) {
        return true;
    }
    if i + 1 < path.len() {
        return false;
    }
    !has_variable(clauses, start, y)
}

// Whether the clause from `start` on continues a path: the first clause has x, any other shares an existential deeper than x with the one before.
fn goes_on(
    n: u32,
    levels: &[u32],
    universals: &[bool],
    clauses: &[i32],
    start: usize,
    x: Variable,
    path: &[u32],
    stamps: &[u16],
    i: usize,
) -> bool
    requires walked { ((end : ℕ) × StandsFrom clauses.now (at path.now i) start end) × Walked clauses.now path.now stamps.now i }
    requires within { Small path.now × (i < length path.now) }
    ensures told { Tells result (Joins (tabled n levels.now universals.now) clauses.now x.0 path.now i) }
{
    if i == 0 {
        return has_variable(clauses, start, x);
    }
    let before = (path[i - 1] + 1) as u16;
    meets(n, levels, universals, clauses, start, x, stamps, before)
}

// Whether the clause from `start` on has the variable v.
fn has_variable(clauses: &[i32], start: usize, v: Variable) -> bool
    ensures told { (end : ℕ) → NextZero clauses.now start end → Tells result (Has clauses.now start end v.0) }
{
    for i in start..clauses.len() {
        let variable = variable_at(clauses, i);
        if variable.0 == 0 {
            return false;
        }
        if variable == v {
            return true;
        }
    }
    false
}

// Whether the clause from `start` on has an existential deeper than x with the stamp.
fn meets(
    n: u32,
    levels: &[u32],
    universals: &[bool],
    clauses: &[i32],
    start: usize,
    x: Variable,
    stamps: &[u16],
    stamp: u16,
) -> bool
    ensures told { (end : ℕ) → NextZero clauses.now start end → Tells result (Meets (tabled n levels.now universals.now)
        clauses.now start end x.0 stamps.now stamp) }
{
    for i in start..clauses.len() {
        let variable = variable_at(clauses, i);
        if variable.0 == 0 {
            return false;
        }
        if is_met(n, levels, universals, x, stamps, stamp, variable) {
            return true;
        }
    }
    false
}

// Whether v is an existential deeper than x and has the stamp.
fn is_met(
    n: u32,
    levels: &[u32],
    universals: &[bool],
    x: Variable,
    stamps: &[u16],
    stamp: u16,
    v: Variable,
) -> bool
    ensures told { Tells result (Deeper (tabled n levels.now universals.now) x.0 v.0
        × (get_or stamps.now v.0 0 ≡ stamp)) }
{
    if stamp_at(stamps, v) != stamp {
        return false;
    }
    is_deeper(n, levels, universals, x, v)
}

// The stamp of v; 0 past the end of the table.
fn stamp_at(stamps: &[u16], v: Variable) -> u16
    ensures own { result ≡ get_or stamps.now v.0 0 }
{
    stamps.get(v.0 as usize).copied().unwrap_or(0)
}

// Stamps the variables of the clause that entry i of a path names with its number, plus one.
fn stamp_clause(clauses: &[i32], begins: &[u16], path: &[u32], i: usize, stamps: &mut [u16])
    requires walked { SoundClauses clauses.now × Known clauses.now begins.now path.now × Walked clauses.now path.now stamps.old i }
    requires fit { (i < length path.now) × (always_true (clause_at clauses.now (at path.now i)) ≡ false) }
    ensures walked { Walked clauses.now path.now stamps.new (i + 1) }
{
    let number = path[i];
    let row = begins[number as usize];
    let start = (row - 1) as usize;
    stamp_entries(clauses, start, (number + 1) as u16, stamps);
}

// Stamps the variables of the entries from `start` up to the next 0.
fn stamp_entries(clauses: &[i32], start: usize, stamp: u16, stamps: &mut [u16])
    requires room { SoundClauses clauses.now × (length stamps.old ≡ variable_rows) }
    ensures stamped { (end : ℕ) → NextZero clauses.now start end
        → Stamped (Has clauses.now start end) stamp stamps.old stamps.new }
{
    for i in start..clauses.len() {
        let variable = variable_at(clauses, i);
        if variable.0 == 0 {
            return;
        }
        stamps[variable.0 as usize] = stamp;
    }
}
