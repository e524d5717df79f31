// DQDIMACS text: QDIMACS text with lists of the universals on which existentials may depend, read into lent tables and written into a lent buffer.

#![tactic(auto)]

mod lines;
mod scanning;
mod writing;

ghost use Rattle.dqbf_text.specs.Reading.{ListedReadIs};
ghost use Rattle.dqbf_text.specs.Stored.{WritesListed};
ghost use Rattle.formula.specs.Lent.{formula_in};

use scanning::scan;
use terms::{Fault, ListedCounts, Refusal};
use text_lines::Step;
use text_write::TEXT_MOST;
use writing::write_accepted;

// Reads a text into three lent tables: n and the counts of entries, or the refusal. A first scan stores in scratch tables of one row,
// so that nothing is written before it is known that the text is within the rules and that all three tables have room.
pub fn read(
    text: &[u8],
    prefix: &mut [u32],
    clauses: &mut [i32],
    lists: &mut [u32],
) -> Result<ListedCounts, Refusal>
    ensures answered { ListedReadIs text.now (prefix.old, clauses.old, lists.old)
        (prefix.new, clauses.new, lists.new) result }
{
    if TEXT_MOST < text.len() {
        return Err(Refusal(Fault::TextTooLong, TEXT_MOST));
    }
    let mut unseen_entries = [0u32; 1];
    let mut unseen_literals = [0i32; 1];
    let mut unseen_rows = [0u32; 1];
    let counts = scan(
        text,
        &mut unseen_entries,
        &mut unseen_literals,
        &mut unseen_rows,
    )?;
    if prefix.len() < counts.prefix
        || clauses.len() < counts.clauses
        || lists.len() < counts.lists
    {
        return Err(Refusal(Fault::TooLittleRoom, 0));
    }
    scan(text, prefix, clauses, lists)
}

// Writes the text of a formula with dependency lists, its prefix as it is lent, into a lent buffer: refused as the check of lists refuses it under
// the rule, where the text is too long, or where it does not fit.
pub fn write(
    rule: u32,
    n: u32,
    prefix: &[u32],
    clauses: &[i32],
    lists: &[u32],
    out: &mut [u8],
) -> Result<u32, Refusal>
    ensures answered { WritesListed rule (formula_in n prefix clauses) lists.now out.old out.new result }
{
    dqbf_lists::check(rule, n, prefix, clauses, lists)?;
    write_accepted(n, prefix, clauses, lists, out)
}

// What a line that may stand at a stage makes of it: what a line of QDIMACS would, whether a list line has stood by then, and the count of entries of the
// table of lists.
#[derive(Clone, Copy)]
struct Onward {
    listed: bool,
    step: Step,
    rows: usize,
}
