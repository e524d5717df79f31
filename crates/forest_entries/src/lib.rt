// Flags of the entry points of x, found clause by clause, by either sign of x or by both.

#![tactic(auto)]

ghost use Rattle.std.specs.Prelude.{ℕ, ◌+◌, ◌≤◌, ◌<◌, ◌≡◌, false, length, get_or};
ghost use Rattle.terms.specs.Literals.{variable_of};
ghost use Rattle.terms.specs.InnerLimits.{variable_rows};
ghost use Rattle.formula.specs.InnerLookup.{NextZero, SoundClauses, Stamps};
ghost use Rattle.forest_theory.specs.Tables.{row};
ghost use Rattle.terms.specs.declared.Scheme.TheVariants.{Strict};
ghost use Rattle.forest_tables.specs.Formula.{signed, SharesBy};
ghost use Rattle.forest_entries.specs.InnerFlags.{Has, HasLiteral, Sided, By, side_by, Connects, Flagged, Via, Blank, if_flagged, SharedBy};

use forest_tables::rows::{flag_at, row_of};
use formula::clauses::{literal_at, variable_at};
use formula::truth::always_true;
use terms::{Literal, Scheme, Variable};

// In which sign a clause has x. One that is not always true has it in one sign only.
#[derive(Clone, Copy)]
pub enum Side {
    Neither,
    Positive,
    Negative,
}

// What one scan finds of a clause: the entry of its 0, the end of the table where there is none, and in which sign it has x.
#[derive(Clone, Copy)]
pub struct Scan {
    pub end: usize,
    pub side: Side,
}

// By which signs of x clauses are taken.
#[derive(Clone, Copy)]
pub enum Signs {
    Either,
    Positive,
    Negative,
}

// Flags the entry points of x by a scheme, the tops of variables that share a clause with it; flags that were set before are cleared. By the strict
// scheme the rows of variables whose top is no entry point may be made 0 on the way.
pub fn flag_entries(
    scheme: Scheme,
    n: u32,
    clauses: &[i32],
    x: Variable,
    tops: &mut [u32],
    flags: &mut [bool],
)
    requires sound { SoundClauses clauses.now × (length flags.old ≡ variable_rows) × (n ≤ length tops.old) }
    ensures entered { SharedBy scheme n clauses.now x.0 tops.old tops.new flags.new }
{
    flags.fill(false);
    match scheme {
        Scheme::Standard => flag_signs(Signs::Either, n, clauses, x, tops, flags),
        Scheme::Strict => flag_both(n, clauses, x, tops, flags),
    }
}

// Flags the tops that both signs of x have. Rows with a top that the positive sign does not have are made 0; then the tops that are left are flagged
// by the negative sign.
fn flag_both(n: u32, clauses: &[i32], x: Variable, tops: &mut [u32], flags: &mut [bool])
    requires sound { SoundClauses clauses.now × Blank flags.old × (n ≤ length tops.old) }
    ensures entered { SharedBy Strict n clauses.now x.0 tops.old tops.new flags.new }
{
    flag_signs(Signs::Positive, n, clauses, x, tops, flags);
    keep_flagged(n, flags, tops);
    flags.fill(false);
    flag_signs(Signs::Negative, n, clauses, x, tops, flags);
}

// Makes every row 0 whose top is not flagged.
fn keep_flagged(n: u32, flags: &[bool], tops: &mut [u32])
    requires enough { n ≤ length tops.old }
    ensures kept { (v : ℕ) → row n tops.new v ≡ if_flagged flags.now (row n tops.old v) }
{
    for top in &mut tops[..n as usize] {
        if !flag_at(flags, Variable::new(*top)) {
            *top = 0;
        }
    }
}

// Flags the tops of the variables that share a clause with x, where it has one of the signs.
fn flag_signs(signs: Signs, n: u32, clauses: &[i32], x: Variable, tops: &[u32], flags: &mut [bool])
    requires sound { SoundClauses clauses.now }
    ensures flagged { Flagged (Via n tops.now (λ y. By signs (λ sign. SharesBy clauses.now sign x.0 y)))
        flags.old flags.new }
{
    let mut seen = [0u16; Literal::ROWS];
    let mut start = 0;
    // From clause to clause: the next one begins behind the 0 that the scan finds.
    while start < clauses.len() {
        let scan = scan_clause(clauses, start, x);
        let end = scan.end;
        if clauses.len() <= end {
            return;
        }
        if has_sign(signs, scan.side) {
            flag_clause(n, clauses, start, end, tops, flags, &mut seen);
        }
        start = end + 1;
    }
}

// Whether the side of a clause is one of the signs.
pub fn has_sign(signs: Signs, side: Side) -> bool
    ensures told { result ≡ side_by signs side }
{
    match side {
        Side::Neither => false,
        Side::Positive => match signs {
            Signs::Negative => false,
            Signs::Either => true,
            Signs::Positive => true,
        },
        Side::Negative => match signs {
            Signs::Positive => false,
            Signs::Either => true,
            Signs::Negative => true,
        },
    }
}

// Where the clause from `start` on ends, and in which sign it has the variable x.
fn scan_clause(clauses: &[i32], start: usize, x: Variable) -> Scan
    ensures scanned { NextZero clauses.now start result.end
        × Sided result.side (λ sign. HasLiteral clauses.now start result.end (signed sign x.0)) }
{
    let mut side = Side::Neither;
    for i in start..clauses.len() {
        let literal = literal_at(clauses, i);
        let variable = literal.variable();
        if variable.0 == 0 {
            return Scan { end: i, side };
        }
        if variable.0 == x.0 {
            side = side_of(literal);
        }
    }
    Scan {
        end: start.max(clauses.len()),
        side,
    }
}

// The sign of a literal.
pub fn side_of(literal: Literal) -> Side
    ensures sided { Sided result (λ sign. literal.0 ≡ signed sign (variable_of literal.0)) }
{
    if literal.0 < 0 {
        return Side::Negative;
    }
    Side::Positive
}

// Flags the tops of the variables that the clause from start up to end connects: none where it is always true. That is told by stamps of literals in
// `seen`; the stamp of a clause is greater than that of every clause before it.
fn flag_clause(
    n: u32,
    clauses: &[i32],
    start: usize,
    end: usize,
    tops: &[u32],
    flags: &mut [bool],
    seen: &mut [u16],
)
    requires sound { SoundClauses clauses.now × NextZero clauses.now start end × (end < length clauses.now) × Stamps seen.old (start + 1) }
    ensures flagged { Flagged (Via n tops.now (Connects clauses.now start end)) flags.old flags.new }
    ensures stamped { Stamps seen.new (end + 1 + 1) }
{
    let stamp = (end + 1) as u16;
    if always_true(&clauses[start..end], seen, stamp) {
        return;
    }
    flag_after(n, clauses, start, tops, flags);
}

// Flags the tops of the variables of the entries from `start` up to the next 0.
pub fn flag_after(n: u32, clauses: &[i32], start: usize, tops: &[u32], flags: &mut [bool])
    ensures flagged { (z : ℕ) × NextZero clauses.now start z
        × Flagged (Via n tops.now (Has clauses.now start z)) flags.old flags.new }
{
    for i in start..clauses.len() {
        let variable = variable_at(clauses, i);
        if variable.0 == 0 {
            return;
        }
        let top = row_of(n, tops, variable);
        if top.0 != 0 {
            flag(flags, top);
        }
    }
}

// Flags v; a v past the end of the table is passed over.
fn flag(flags: &mut [bool], v: Variable)
    ensures flagged { Flagged (λ w. w ≡ v.0) flags.old flags.new }
{
    let at = v.0 as usize;
    if at < flags.len() {
        flags[at] = true;
    }
}
