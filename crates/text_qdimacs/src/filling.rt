// Filling the lent tables with what a text holds: nothing is written before it is known that the text keeps the rules and both tables have room.

ghost use Rattle.std.specs.Prelude.{◌≤◌, ◌≡◌, length};
ghost use Rattle.text_qdimacs.specs.Reading.{TEXT-MOST, ReadIs};
ghost use Rattle.text_qdimacs.specs.InnerScans.{ScanIs, Held};

use crate::scanning::scan;
use terms::{Counts, Fault, Refusal};

// Reads a text by way of two scratch tables, of any length: the text is scanned into them, and what they hold is then copied.
pub fn read_by_way(
    text: &[u8],
    own_prefix: &mut [u32],
    own_clauses: &mut [i32],
    prefix: &mut [u32],
    clauses: &mut [i32],
) -> Result<Counts, Refusal>
    requires short { length text.now ≤ TEXT-MOST }
    ensures answered { ReadIs text.now prefix.old prefix.new clauses.old clauses.new result }
{
    let counts = scan(text, own_prefix, own_clauses)?;
    if prefix.len() < counts.prefix || clauses.len() < counts.clauses {
        return Err(Refusal(Fault::TooLittleRoom, 0));
    }
    fill(text, counts, own_prefix, own_clauses, prefix, clauses)
}

// Fills tables that have room with what a scan of the text left in others: copies it if those had rows for all of it, and scans again if not.
fn fill(
    text: &[u8],
    counts: Counts,
    own_prefix: &[u32],
    own_clauses: &[i32],
    prefix: &mut [u32],
    clauses: &mut [i32],
) -> Result<Counts, Refusal>
    requires held { Held counts.n counts.prefix counts.clauses text.now own_prefix.now own_clauses.now
        × (counts.prefix ≤ length prefix.old) × (counts.clauses ≤ length clauses.old) }
    ensures filled { ScanIs text.now (prefix.old, clauses.old) (prefix.new, clauses.new) result }
{
    let Counts {
        prefix: entries,
        clauses: literals,
        ..
    } = counts;
    if own_prefix.len() < entries || own_clauses.len() < literals {
        return scan(text, prefix, clauses);
    }
    copy_rows(&own_prefix[..entries], &mut prefix[..entries]);
    copy_rows(&own_clauses[..literals], &mut clauses[..literals]);
    Ok(counts)
}

// Copies a table into another of the same length. `copy_from_slice` would do, but between tables that may be anywhere it is a call of memmove, which
// whoever links the archive would have to bring.
fn copy_rows<T: Copy>(from: &[T], to: &mut [T])
    requires same { length from.now ≡ length to.old }
    ensures copied { to.new ≡ from.now }
{
    for (i, row) in to.iter_mut().enumerate() {
        *row = from[i];
    }
}
