// A formula judged and read by a rule, beside a table of lists, whose length is judged with those of prefix and clauses.

ghost use Rattle.std.specs.Prelude.{◌≡◌, length};
ghost use Rattle.terms.specs.InnerLimits.{joined_entries};
ghost use Rattle.terms.specs.Says.{fault_number};
ghost use Rattle.formula.specs.Lent.{formula_in};
ghost use Rattle.dqbf_lists.specs.Inner.{ReadsListed, TakesListed, LongRefused};

use crate::Dependent;
use formula_rules::{read_formula, take_formula};
use terms::{Fault, Refusal, Variable};

// Judges a formula by a rule, beside lists of so many entries, and makes its prefix as the rule reads it.
pub fn read_listed(
    rule: u32,
    n: u32,
    prefix: &[u32],
    clauses: &[i32],
    entries: usize,
    joined: &mut [u32],
) -> Result<u32, Refusal>
    requires room { length joined.old ≡ joined_entries }
    ensures reads { ReadsListed rule (formula_in n prefix clauses) entries joined.new result }
{
    if Dependent::ENTRIES < entries {
        return Err(Refusal(long_fault(rule, n), 0));
    }
    read_formula(rule, n, prefix, clauses, joined)
}

// Judges a formula by a rule, beside lists of so many entries, and gives its prefix as the rule reads it.
pub fn take_listed<'a>(
    rule: u32,
    n: u32,
    prefix: &'a [u32],
    clauses: &[i32],
    entries: usize,
    joined: &'a mut [u32],
) -> Result<&'a [u32], Refusal>
    requires room { length joined.old ≡ joined_entries }
    ensures takes { TakesListed rule (formula_in n prefix clauses) entries result }
{
    if Dependent::ENTRIES < entries {
        return Err(Refusal(long_fault(rule, n), 0));
    }
    take_formula(rule, n, prefix, clauses, joined)
}

// What refuses lists that are too long: their length, unless the rule or the variable count is refused before.
fn long_fault(rule: u32, n: u32) -> Fault
    ensures first { LongRefused rule n (fault_number result) }
{
    match rule {
        1 | 2 if Variable::MOST < n => Fault::TooManyVariables,
        1 | 2 => Fault::TooManyEntries,
        _ => Fault::NoSuchRule,
    }
}
