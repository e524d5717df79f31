// The prefix under reading rule 2, scanned once from the left for refusals 3, 4, 6, 7 and 8.

ghost use Rattle.std.specs.Prelude.{◌≤◌, ◌<◌, ◌≡◌, [], ◌∷◌, length};
ghost use Rattle.terms.specs.Limits.{most_variables};
ghost use Rattle.terms.specs.Says.{number_told};
ghost use Rattle.terms.specs.Refusals.{Judged};
ghost use Rattle.formula_rules.specs.Rules.{JoinedCause};
ghost use Rattle.formula_rules.specs.InnerScan.{begins_after};
ghost use Rattle.formula_rules.specs.InnerWriting.{MarkFault};

use formula_checks::prefix::name_variables;
use terms::{Fault, Level, Refusal, Variable};

// The first cause of a refusal under rule 2 in the prefix of a formula with n variables, one block after another. `named` has a flag for each
// variable that was named so far, so that the prefix is not searched again.
pub fn joined_verdict(n: u32, prefix: &[u32]) -> Result<(), Refusal>
    requires few { n ≤ most_variables }
    ensures judged { Judged (JoinedCause n prefix.now ∷ []) result }
{
    let mut named = [false; Variable::ROWS];
    let mut last: u32 = 0;
    let mut blocks: u32 = 0;
    let mut i = 0;
    // From mark to mark: where the next one stands is known once the variables of this block are named.
    while i < prefix.len() {
        let entry = prefix[i];
        let new = begins_after(prefix, i, last);
        if let Some(fault) = mark_fault(entry, new, blocks) {
            return Err(Refusal(fault, i));
        }
        let end = name_variables(n, prefix, i + 1, &mut named)?;
        if prefix.len() <= end {
            return Err(Refusal(Fault::UnclosedBlock, end));
        }
        i = end + 1;
        if new {
            last = entry;
            blocks += 1;
        }
    }
    Ok(())
}

// Whether the mark at entry i begins a new block once empty blocks are dropped and neighbours joined: no 0 directly follows it, and it differs from
// `last`, the mark of the block before.
pub fn begins_after(prefix: &[u32], i: usize, last: u32) -> bool
    requires within { i < length prefix.now }
    ensures told { result ≡ begins_after prefix.now i last }
{
    let next = i + 1;
    if next < prefix.len() {
        if prefix[next] == 0 {
            false
        } else {
            prefix[i] != last
        }
    } else {
        prefix[i] != last
    }
}

// What is wrong with an entry as a mark, where `blocks` have begun, and `new` says whether it begins one more.
fn mark_fault(entry: u32, new: bool, blocks: u32) -> Option<Fault>
    ensures fault { MarkFault entry new blocks (number_told result) }
{
    match entry {
        1 | 2 if new && blocks == Level::MOST => Some(Fault::TooManyBlocks),
        1 | 2 => None,
        _ => Some(Fault::NoMark),
    }
}
