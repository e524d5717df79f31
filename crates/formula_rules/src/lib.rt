// Reading rules for prefixes (rule 6.1, rule 6.2): the refusals of a prefix by a rule number, and the prefix as rule 2 reads it.

#![tactic(auto)]

mod judging;
mod laying;

ghost use Rattle.std.specs.Prelude.{◌≡◌, length};
ghost use Rattle.terms.specs.Refusals.{Judged};
ghost use Rattle.terms.specs.InnerLimits.{joined_entries};
ghost use Rattle.formula.specs.Lent.{formula_in};
ghost use Rattle.formula_rules.specs.Rules.{ruled_prefix, read_as, check_order};
ghost use Rattle.formula_rules.specs.InnerReading.{AtHand, ReadsPrefix, ReadsFormula, TakesPrefix, TakesFormula};

use formula::clauses::check_clauses;
use formula_checks::prefix::prefix_verdict;
use judging::joined_verdict;
use laying::lay_out;
use terms::{Fault, Level, Literal, Refusal, Variable};

// Refusals 23, 1, 2 and those of the prefix by a rule, which every call that takes a rule number looks at first. Beside the prefix so many
// clause entries are lent, 0 where a call takes none.
pub fn rule_verdict(rule: u32, n: u32, prefix: &[u32], entries: usize) -> Result<(), Refusal>
    ensures judged { Judged (ruled_prefix rule n prefix.now entries) result }
{
    if rule == 1 {
        return prefix_verdict(n, prefix, entries);
    }
    if rule != 2 {
        return Err(Refusal(Fault::NoSuchRule, 0));
    }
    if Variable::MOST < n {
        return Err(Refusal(Fault::TooManyVariables, 0));
    }
    if Level::ENTRIES < prefix.len() {
        return Err(Refusal(Fault::TooManyEntries, 0));
    }
    if Literal::ENTRIES < entries {
        return Err(Refusal(Fault::TooManyEntries, 0));
    }
    joined_verdict(n, prefix)
}

// Judges a prefix by a rule. Under rule 2 an accepted prefix is written joined at the front of `joined`, and its count of entries given; under rule 1
// the lent prefix is read itself, and the count is 0. Beside the prefix so many clause entries are lent.
pub fn read_prefix(
    rule: u32,
    n: u32,
    prefix: &[u32],
    entries: usize,
    joined: &mut [u32],
) -> Result<u32, Refusal>
    requires room { length joined.old ≡ joined_entries }
    ensures reads { ReadsPrefix rule n prefix.now entries joined.new result }
{
    rule_verdict(rule, n, prefix, entries)?;
    if rule == 1 {
        return Ok(0);
    }
    let count = lay_out(prefix, joined);
    Ok(count as u32)
}

// Judges a formula by a rule, its clauses after its prefix, and writes the prefix as `read_prefix` does.
pub fn read_formula(
    rule: u32,
    n: u32,
    prefix: &[u32],
    clauses: &[i32],
    joined: &mut [u32],
) -> Result<u32, Refusal>
    requires room { length joined.old ≡ joined_entries }
    ensures reads { ReadsFormula rule (formula_in n prefix clauses) joined.new result }
{
    let count = read_prefix(rule, n, prefix, clauses.len(), joined)?;
    check_clauses(n, clauses)?;
    Ok(count)
}

// The prefix as the rule reads it, once it is judged: the lent one under rule 1, else the front of the table.
pub fn as_read<'a>(rule: u32, lent: &'a [u32], joined: &'a [u32], count: u32) -> &'a [u32]
    requires hand { AtHand rule lent.now joined.now count }
    ensures read { result.now ≡ read_as rule lent.now }
{
    if rule == 1 {
        return lent;
    }
    let end = count as usize;
    &joined[0..end]
}

// Judges a prefix by a rule, and gives it as the rule reads it: the lent one, or the joined one at the front of `joined`. Beside the prefix so many clause
// entries are lent.
pub fn take_prefix<'a>(
    rule: u32,
    n: u32,
    prefix: &'a [u32],
    entries: usize,
    joined: &'a mut [u32],
) -> Result<&'a [u32], Refusal>
    requires room { length joined.old ≡ joined_entries }
    ensures takes { TakesPrefix rule n prefix.now entries result }
{
    let count = read_prefix(rule, n, prefix, entries, joined)?;
    Ok(as_read(rule, prefix, joined, count))
}

// Judges a formula by a rule, its clauses after its prefix, and gives the prefix as `take_prefix` does.
pub fn take_formula<'a>(
    rule: u32,
    n: u32,
    prefix: &'a [u32],
    clauses: &[i32],
    joined: &'a mut [u32],
) -> Result<&'a [u32], Refusal>
    requires room { length joined.old ≡ joined_entries }
    ensures takes { TakesFormula rule (formula_in n prefix clauses) result }
{
    let count = read_formula(rule, n, prefix, clauses, joined)?;
    Ok(as_read(rule, prefix, joined, count))
}

// Check: whether a formula keeps every rule, its prefix read by a rule. Refused with the first cause of 23 and of refusals 1 to 11.
pub fn check(rule: u32, n: u32, prefix: &[u32], clauses: &[i32]) -> Result<(), Refusal>
    ensures judged { Judged (check_order rule (formula_in n prefix clauses)) result }
{
    rule_verdict(rule, n, prefix, clauses.len())?;
    check_clauses(n, clauses)
}
