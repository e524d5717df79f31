// The file of a forest verified under a reading rule: its records, the formula that they hold, and whether the rows and sets beside it are those of the
// formula.

#![tactic(auto)]

mod contents;

ghost use Rattle.forest_tables.specs.InnerRows.{Tells};
ghost use Rattle.file_verify.specs.InnerVerified.{IsRule, Verifies};

use contents::contents_verdict;
use file_layout::layout_verdict;
use terms::{Fault, Refusal};

// The first cause of refusal in a file: 23, then 19 to 21 in its records, those of its formula with the prefix read by the rule, and 22.
pub fn file_verdict(rule: u32, file: &[u8]) -> Result<(), Refusal>
    ensures judged { Verifies rule file.now result }
{
    if !is_rule(rule) {
        return Err(Refusal(Fault::NoSuchRule, 0));
    }
    layout_verdict(file)?;
    contents_verdict(rule, file)
}

// Whether a number is that of a reading rule.
fn is_rule(rule: u32) -> bool
    ensures told { Tells result (IsRule rule) }
{
    rule == 1 || rule == 2
}
