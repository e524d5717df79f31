// The clause table: its causes of refusal, scanned once from the left, and where the clause with a given number stands.

ghost use Rattle.std.specs.Prelude.{◌<◌, ◌≡◌, false, [], ◌∷◌, length};
ghost use Rattle.terms.specs.Literals.{variable_of};
ghost use Rattle.terms.specs.Refusals.{Judged};
ghost use Rattle.formula.specs.Tables.{literal_at};
ghost use Rattle.formula.specs.Causes.{ClauseCause};
ghost use Rattle.formula.specs.InnerScan.{AllUpto, FirstOver};
ghost use Rattle.formula.specs.InnerLookup.{NextZero, Stands};

use terms::{Fault, Literal, Refusal, Variable};

// The literal at entry i; 0 past the end.
pub fn literal_at(clauses: &[i32], i: usize) -> Literal
    ensures read { result.0 ≡ literal_at clauses.now i }
{
    if i < clauses.len() {
        Literal::new(clauses[i])
    } else {
        Literal::new(0)
    }
}

// The variable of the literal at entry i; 0 for the 0 that closes a clause, and past the end.
pub fn variable_at(clauses: &[i32], i: usize) -> Variable
    ensures read { result.0 ≡ variable_of (literal_at clauses.now i) }
{
    literal_at(clauses, i).variable()
}

// The first cause of a refusal in the clause table of a formula with n variables.
pub fn check_clauses(n: u32, clauses: &[i32]) -> Result<(), Refusal>
    ensures judged { Judged (ClauseCause n clauses.now ∷ []) result }
{
    let end = clauses.len();
    let at = first_over(n, clauses);
    if at < end {
        return Err(Refusal(Fault::ForeignLiteral, at));
    }
    if end == 0 {
        return Ok(());
    }
    let last = variable_at(clauses, end - 1);
    if last.0 == 0 {
        Ok(())
    } else {
        Err(Refusal(Fault::UnclosedClause, end))
    }
}

// The first entry with a variable over n; the end of the table where there is none.
fn first_over(n: u32, clauses: &[i32]) -> usize
    ensures first { FirstOver n clauses.now result }
{
    if !any_over(n, clauses) {
        return clauses.len();
    }
    clauses
        .iter()
        .position(|&entry| n < Literal::new(entry).variable().0)
        .unwrap_or(clauses.len())
}

// Whether some entry has a variable over n. The loop has no early exit, so that the processor can take several entries at once.
fn any_over(n: u32, clauses: &[i32]) -> bool
    ensures none { result ≡ false → AllUpto n clauses.now (length clauses.now) }
{
    let mut over = false;
    for &entry in clauses {
        over |= n < Literal::new(entry).variable().0;
    }
    over
}

// The first entry from `start` on with a 0; the end of the table where there is none.
pub fn next_zero(clauses: &[i32], start: usize) -> usize
    ensures next { NextZero clauses.now start result }
{
    for i in start..clauses.len() {
        if variable_at(clauses, i).0 == 0 {
            return i;
        }
    }
    // A start past the end is itself the answer.
    start.max(clauses.len())
}

// Where a clause stands: its first entry, and the entry of the 0 that closes it.
#[derive(Clone, Copy)]
pub struct Span {
    pub start: usize,
    pub end: usize,
}

// Where the clause with the number `asked` stands, counted from 0.
pub fn find(clauses: &[i32], asked: u32) -> Option<Span>
    ensures stands { Stands clauses.now asked result }
{
    let mut start = 0;
    let mut left = asked;
    // From clause to clause: where the next one begins is known once the 0 that closes this one is found.
    while start < clauses.len() {
        let end = next_zero(clauses, start);
        if clauses.len() <= end {
            return None;
        }
        if left == 0 {
            return Some(Span { start, end });
        }
        left -= 1;
        start = end + 1;
    }
    None
}
