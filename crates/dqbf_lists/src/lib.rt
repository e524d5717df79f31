// Dependency lists: some existentials stand in no block and have a list of the universals that they may depend on. A table of lists is judged beside prefix
// and clauses, under a reading rule.

#![tactic(auto)]

pub mod checking;
pub mod reading;

ghost use Rattle.formula.specs.Lent.{formula_in};
ghost use Rattle.dqbf_lists.specs.Answers.{ListsChecked};

use checking::lists_verdict;
use reading::take_listed;
use terms::{Level, Refusal};

// An existential that has a list of its own.
#[derive(Clone, Copy)]
pub struct Dependent(pub u32);

impl Dependent {
    // The most entries that a table of lists may have.
    pub const ENTRIES: usize = 16384;
}

// Whether a formula with dependency lists keeps every rule, with its prefix read by a rule: refused with the first cause of 23, of refusals 1 to 11, and
// of 25, 26 and 11 in the lists; accepted where there is none.
pub fn check(
    rule: u32,
    n: u32,
    prefix: &[u32],
    clauses: &[i32],
    lists: &[u32],
) -> Result<(), Refusal>
    ensures judged { ListsChecked rule (formula_in n prefix clauses) lists.now result }
{
    let mut joined = [0u32; Level::JOINED];
    let read = take_listed(rule, n, prefix, clauses, lists.len(), &mut joined)?;
    lists_verdict(n, read, lists)
}
