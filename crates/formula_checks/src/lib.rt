// Checks of a formula as lent: its prefix by reading rule 1, and the clause call (rule 7.3).

#![tactic(auto)]

pub mod prefix;

ghost use Rattle.terms.specs.Refusals.{Judged};
ghost use Rattle.formula.specs.Causes.{clause_order};
ghost use Rattle.formula.specs.Clause.{ClausePart};

use formula::clauses::{check_clauses, find};
use terms::{Fault, Literal, Refusal, Variable};

// What the clause call says of its input: refused with the first cause of 1, 2, 10, 11 and 13, accepted where there is none.
pub fn clause_verdict(n: u32, clauses: &[i32], asked: u32) -> Result<(), Refusal>
    ensures judged { Judged (clause_order n clauses.now asked) result }
{
    if Variable::MOST < n {
        return Err(Refusal(Fault::TooManyVariables, 0));
    }
    if Literal::ENTRIES < clauses.len() {
        return Err(Refusal(Fault::TooManyEntries, 0));
    }
    check_clauses(n, clauses)?;
    match find(clauses, asked) {
        Some(_) => Ok(()),
        None => Err(Refusal(Fault::NotAskable, 0)),
    }
}

// The clause with the number `asked`, as the part of the lent table that holds its literals; an empty part where it is refused.
pub fn clause(n: u32, clauses: &[i32], asked: u32) -> &[i32]
    ensures part { ClausePart n clauses.entry asked result }
{
    match clause_verdict(n, clauses, asked) {
        Ok(()) => match find(clauses, asked) {
            Some(span) => &clauses[span.start..span.end],
            None => &clauses[0..0],
        },
        Err(_) => &clauses[0..0],
    }
}
