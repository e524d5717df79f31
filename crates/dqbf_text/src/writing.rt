// DQDIMACS text as it is written: the lines of QDIMACS, with those of the table of lists between the quantifier lines and the clause lines.

ghost use Rattle.std.specs.Prelude.{[], true, ◌<◌, ◌≤◌, length};
ghost use Rattle.text_write.specs.InnerBytes.{Wrote};
ghost use Rattle.text_write.specs.InnerBytes.{SmallEntries};
ghost use Rattle.text_write.specs.InnerOrders.{WriteIs};
ghost use Rattle.dqbf_lists.specs.Lists.{list_entries};
ghost use Rattle.dqbf_text.specs.InnerText.{lettered, list_text, list_bytes, listed_by_entries, WritableLists};

use terms::{Fault, Refusal};
use text_write::TEXT_MOST;
use text_write::bytes::put_byte;
use text_write::writing::{count_clauses, put_clauses, put_entry, put_prefix, put_problem};

// The letter that list lines begin with.
pub const LETTER_D: u8 = 100;

// Writes the text of tables that were accepted into a lent buffer. The length is found first, by writing into a scratch buffer of one byte, so that
// nothing is written where the text is too long or does not fit.
pub fn write_accepted(
    n: u32,
    prefix: &[u32],
    clauses: &[i32],
    lists: &[u32],
    out: &mut [u8],
) -> Result<u32, Refusal>
    requires writable { WritableLists n prefix.now clauses.now lists.now }
    ensures answered { WriteIs (listed_by_entries n prefix.now clauses.now lists.now)
        out.old out.new result }
{
    let mut unseen = [0u8; 1];
    let count = put_text(&mut unseen, n, prefix, clauses, lists);
    if TEXT_MOST < count {
        return Err(Refusal(Fault::TextTooLong, TEXT_MOST));
    }
    if out.len() < count {
        return Err(Refusal(Fault::TooLittleRoom, 0));
    }
    let written = put_text(out, n, prefix, clauses, lists);
    Ok(written as u32)
}

// The text of n and three tables.
fn put_text(out: &mut [u8], n: u32, prefix: &[u32], clauses: &[i32], lists: &[u32]) -> usize
    requires writable { WritableLists n prefix.now clauses.now lists.now }
    ensures wrote { Wrote (listed_by_entries n prefix.now clauses.now lists.now)
        out.old out.new 0 result }
{
    let count = count_clauses(clauses);
    let blocks = put_problem(out, n, count);
    let first = put_prefix(out, blocks, prefix);
    let body = put_lists(out, first, lists);
    put_clauses(out, body, clauses)
}

// The lines of the table of lists.
fn put_lists(out: &mut [u8], at: usize, lists: &[u32]) -> usize
    requires small { (at < 131072) × (length lists.now ≤ list_entries) × SmallEntries lists.now }
    ensures wrote { Wrote (list_text true lists.now) out.old out.new at result }
{
    let mut next = at;
    let mut first = true;
    for &entry in lists {
        next = put_list_entry(out, next, first, entry);
        first = entry == 0;
    }
    next
}

// One entry of the table of lists: a number after a space, with the letter before it where its list begins, and LF after the closing 0.
fn put_list_entry(out: &mut [u8], at: usize, first: bool, entry: u32) -> usize
    requires small { (at < 4294966000) × (entry < 100000) }
    ensures wrote { Wrote (list_bytes first entry) out.old out.new at result }
{
    let start = put_letter(out, at, first);
    put_entry(out, start, false, entry)
}

// The letter where a list begins.
fn put_letter(out: &mut [u8], at: usize, first: bool) -> usize
    requires near { at < 4294967296 }
    ensures wrote { Wrote (lettered first []) out.old out.new at result }
{
    if first {
        return put_byte(out, at, LETTER_D);
    }
    at
}
