// What is judged first of a lent formula: n, the lengths, and the prefix, scanned once from the left for refusals 3 to 9.

ghost use Rattle.std.specs.Prelude.{◌≤◌, ◌≡◌, [], ◌∷◌, length};
ghost use Rattle.terms.specs.Limits.{most_variables};
ghost use Rattle.terms.specs.InnerLimits.{variable_rows};
ghost use Rattle.terms.specs.Says.{number_of, number_told, said};
ghost use Rattle.terms.specs.Refusals.{Judged};
ghost use Rattle.formula.specs.Causes.{PrefixCause};
ghost use Rattle.formula.specs.InnerOrders.{prefix_order};
ghost use Rattle.formula.specs.InnerScan.{MarkFault, NamesEnd, ended};
ghost use Rattle.formula_checks.specs.InnerNames.{NamesFresh};

use terms::{Fault, Level, Literal, Refusal, Variable};

// Refusals 1, 2 and those of the prefix, which every call that takes a prefix looks at first. Beside the prefix so many clause entries are
// lent, 0 where a call takes none.
pub fn prefix_verdict(n: u32, prefix: &[u32], entries: usize) -> Result<(), Refusal>
    ensures judged { Judged (prefix_order n prefix.now entries) result }
{
    if Variable::MOST < n {
        return Err(Refusal(Fault::TooManyVariables, 0));
    }
    if Level::ENTRIES < prefix.len() {
        return Err(Refusal(Fault::TooManyEntries, 0));
    }
    if Literal::ENTRIES < entries {
        return Err(Refusal(Fault::TooManyEntries, 0));
    }
    check_prefix(n, prefix)
}

// The first cause of a refusal in the prefix of a formula with n variables, one block after another. `named` has a flag for each variable that was
// named so far, so that the prefix is not searched again.
fn check_prefix(n: u32, prefix: &[u32]) -> Result<(), Refusal>
    requires few { n ≤ most_variables }
    ensures judged { Judged (PrefixCause n prefix.now ∷ []) result }
{
    let mut named = [false; Variable::ROWS];
    let mut mark: u32 = 0;
    let mut blocks: u32 = 0;
    let mut i = 0;
    // From mark to mark: where the next one stands is known once the variables of this block are named.
    while i < prefix.len() {
        let entry = prefix[i];
        if let Some(fault) = mark_fault(entry, mark, blocks) {
            return Err(Refusal(fault, i));
        }
        mark = entry;
        blocks += 1;
        let start = i + 1;
        let end = name_variables(n, prefix, start, &mut named)?;
        if prefix.len() <= end {
            return Err(Refusal(Fault::UnclosedBlock, end));
        }
        if end == start {
            return Err(Refusal(Fault::EmptyBlock, end));
        }
        i = end + 1;
    }
    Ok(())
}

// What is wrong with an entry as the mark of the next block, after `blocks` of them, the last with the mark `before`.
fn mark_fault(entry: u32, before: u32, blocks: u32) -> Option<Fault>
    ensures fault { MarkFault entry before blocks (number_told result) }
{
    match entry {
        1 | 2 => {
            if entry == before {
                return Some(Fault::SameMark);
            }
            if blocks == Level::MOST {
                return Some(Fault::TooManyBlocks);
            }
            None
        }
        _ => Some(Fault::NoMark),
    }
}

// Names the variables from `start` on, as far as nothing is wrong with them, and gives the entry where a 0 closes their block or the prefix ends.
pub fn name_variables(
    n: u32,
    prefix: &[u32],
    start: usize,
    named: &mut [bool],
) -> Result<usize, Refusal>
    requires few { n ≤ most_variables }
    requires rows { length named.old ≡ variable_rows }
    requires within { start ≤ length prefix.now }
    ensures ends { NamesEnd n prefix.now start named.old named.new (ended result) (number_of (said result)) }
{
    let Some(end) = name_fresh(n, prefix, start, named) else {
        return Ok(prefix.len());
    };
    if prefix[end] == 0 {
        return Ok(end);
    }
    let fault = if n < prefix[end] {
        Fault::ForeignVariable
    } else {
        Fault::NamedBefore
    };
    Err(Refusal(fault, end))
}

// Names the variables from `start` on, up to the first entry that is no variable still to be named, and gives where that is, if there is one. The
// caller tells what is wrong there: a loop that gives the refusal itself takes an instruction more in each turn.
fn name_fresh(n: u32, prefix: &[u32], start: usize, named: &mut [bool]) -> Option<usize>
    requires few { n ≤ most_variables }
    requires rows { length named.old ≡ variable_rows }
    requires within { start ≤ length prefix.now }
    ensures names { NamesFresh n prefix.now start named.old named.new result }
{
    for i in start..prefix.len() {
        let entry = prefix[i];
        let v = entry as usize;
        if entry == 0 || n < entry || named[v] {
            return Some(i);
        }
        named[v] = true;
    }
    None
}
