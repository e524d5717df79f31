// QDIMACS text: reading a text into lent tables, and writing the text of a formula, if it is accepted, into a lent buffer.

#![tactic(auto)]

mod filling;
pub mod scanning;

ghost use Rattle.formula.specs.Lent.{formula_in};
ghost use Rattle.text_qdimacs.specs.Stored.{Writes};
ghost use Rattle.text_qdimacs.specs.Reading.{ReadIs};

use filling::read_by_way;
use terms::{Counts, Fault, Level, Literal, Refusal};
use text_write::TEXT_MOST;
use text_write::writing::write_accepted;

// A text of so many bytes at most is short, and the rows of tables that hold what it has, since each entry takes two bytes at least.
const SHORT_TEXT: usize = 4096;

const SHORT_ROWS: usize = 2048;

// Reads a text into two lent tables: n and the counts of entries, or the refusal. It goes by way of scratch tables: of the
// size that formulas within the limits need, or for a short text of fewer rows, which cost less to clear.
pub fn read(text: &[u8], prefix: &mut [u32], clauses: &mut [i32]) -> Result<Counts, Refusal>
    ensures answered { ReadIs text.now prefix.old prefix.new clauses.old clauses.new result }
{
    if TEXT_MOST < text.len() {
        return Err(Refusal(Fault::TextTooLong, TEXT_MOST));
    }
    if text.len() <= SHORT_TEXT {
        let mut few_entries = [0u32; SHORT_ROWS];
        let mut few_literals = [0i32; SHORT_ROWS];
        return read_by_way(text, &mut few_entries, &mut few_literals, prefix, clauses);
    }
    let mut entries = [0u32; Level::JOINED];
    let mut literals = [0i32; Literal::ENTRIES];
    read_by_way(text, &mut entries, &mut literals, prefix, clauses)
}

// Writes the text of a formula, its prefix as it is lent, into a lent buffer: refused as check refuses it under the rule, where the text is too long, or
// where it does not fit.
pub fn write(
    rule: u32,
    n: u32,
    prefix: &[u32],
    clauses: &[i32],
    out: &mut [u8],
) -> Result<u32, Refusal>
    ensures answered { Writes rule (formula_in n prefix clauses) out.old out.new result }
{
    formula_rules::check(rule, n, prefix, clauses)?;
    write_accepted(n, prefix, clauses, out)
}
