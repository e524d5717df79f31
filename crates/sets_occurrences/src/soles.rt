// The sole entry point of a universal, found along its chain with no table of flags: most universals have at most one.

ghost use Rattle.std.specs.Prelude.{ℕ, ◌⊎◌, ◌↔◌};
ghost use Rattle.formula.specs.InnerLookup.{NextZero};
ghost use Rattle.terms.specs.declared.Scheme.TheVariants.{Strict};
ghost use Rattle.forest_entries.specs.InnerFlags.{Has, By, Takes, Via};
ghost use Rattle.sets_occurrences.specs.InnerThreads.{Together, Tied};
ghost use Rattle.forest_theory.specs.Tables.{row};
ghost use Rattle.sets_occurrences.specs.InnerSoleTops.{Names, Is, SoleOf};

use forest_entries::{Signs, has_sign, side_of};
use forest_tables::rows::row_of;
use formula::clauses::{literal_at, variable_at};
use terms::pairs::unpack;
use terms::{Scheme, Variable};

// Several tops, of which nothing more is told.
#[derive(Clone, Copy)]
pub struct Several;

// The sole entry point of the universal x by a scheme, if it has one: of the tops of the variables that share a clause with x, the one that the scheme
// takes.
pub fn sole_point(
    scheme: Scheme,
    n: u32,
    clauses: &[i32],
    first: &[u32],
    next: &[u32],
    x: Variable,
    tops: &[u32],
) -> Result<Option<Variable>, Several>
    requires tied { Tied clauses.now first.now next.now x.0 }
    ensures sole { SoleOf result (λ e. Takes scheme (λ sign. Via n tops.now (Together clauses.now sign x.0) e)) }
{
    match scheme {
        Scheme::Standard => sole_along(Signs::Either, n, clauses, first, next, x, tops),
        Scheme::Strict => sole_both(n, clauses, first, next, x, tops),
    }
}

// The sole top that both signs of x have. Where the negation has none there is none, and the clauses that have x itself are not looked at.
fn sole_both(
    n: u32,
    clauses: &[i32],
    first: &[u32],
    next: &[u32],
    x: Variable,
    tops: &[u32],
) -> Result<Option<Variable>, Several>
    requires tied { Tied clauses.now first.now next.now x.0 }
    ensures sole { SoleOf result (λ e. Takes Strict (λ sign. Via n tops.now (Together clauses.now sign x.0) e)) }
{
    match sole_along(Signs::Negative, n, clauses, first, next, x, tops) {
        Ok(None) => Ok(None),
        Ok(other) => {
            let one = sole_along(Signs::Positive, n, clauses, first, next, x, tops)?;
            Ok(same(one, other))
        }
        Err(Several) => match sole_along(Signs::Positive, n, clauses, first, next, x, tops)? {
            None => Ok(None),
            Some(_) => Err(Several),
        },
    }
}

// The sole top of the variables that share a clause with the universal x, where it has one of the signs, along its chain.
fn sole_along(
    signs: Signs,
    n: u32,
    clauses: &[i32],
    first: &[u32],
    next: &[u32],
    x: Variable,
    tops: &[u32],
) -> Result<Option<Variable>, Several>
    requires tied { Tied clauses.now first.now next.now x.0 }
    ensures sole { SoleOf result (Via n tops.now (λ y. By signs (λ sign. Together clauses.now sign x.0 y))) }
{
    let mut sole = None;
    let mut at = first[x.0 as usize];
    // A walk along the chain: each row says which entry comes next.
    while at != 0 {
        let entry = (at - 1) as usize;
        let row = unpack(next[entry]);
        at = row.low;
        let side = side_of(literal_at(clauses, entry));
        if has_sign(signs, side) {
            sole = sole_after(n, clauses, row.high as usize, tops, sole)?;
        }
    }
    Ok(sole)
}

// The sole top of the variables of the entries from `start` up to the next 0, together with `before`.
pub fn sole_after(
    n: u32,
    clauses: &[i32],
    start: usize,
    tops: &[u32],
    before: Option<Variable>,
) -> Result<Option<Variable>, Several>
    ensures sole { (z : ℕ) → NextZero clauses.now start z
        → SoleOf result (λ e. Names before e ⊎ Via n tops.now (Has clauses.now start z) e) }
{
    let mut sole = before;
    for i in start..clauses.len() {
        let variable = variable_at(clauses, i);
        if variable.0 == 0 {
            return Ok(sole);
        }
        sole = join(sole, top_of(n, tops, variable))?;
    }
    Ok(sole)
}

// The top that a variable has, if it has one.
fn top_of(n: u32, tops: &[u32], v: Variable) -> Option<Variable>
    ensures read { (e : ℕ) → Names result e ↔ Is (row n tops.now v.0) e }
{
    let top = row_of(n, tops, v);
    if top.0 == 0 { None } else { Some(top) }
}

// The sole top of two.
pub fn join(one: Option<Variable>, other: Option<Variable>) -> Result<Option<Variable>, Several>
    ensures sole { SoleOf result (λ e. Names one e ⊎ Names other e) }
{
    match (one, other) {
        (_, None) => Ok(one),
        (None, _) => Ok(other),
        (Some(top), Some(second)) => if top == second { Ok(one) } else { Err(Several) },
    }
}

// The top that both are, if they are the same.
pub fn same(one: Option<Variable>, other: Option<Variable>) -> Option<Variable>
    ensures same { (e : ℕ) → Names result e ↔ (Names one e × Names other e) }
{
    if one == other { one } else { None }
}
