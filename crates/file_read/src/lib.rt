// Reading the file of a forest under a reading rule: it is verified, and what it has is stored in the lent tables.

#![tactic(auto)]

mod filling;

ghost use Rattle.file_format.specs.Causes.{lent_in, lent_out};
ghost use Rattle.file_format.specs.Promises.{Loads};
ghost use Rattle.file_layout.specs.InnerLaid.{Laid};
ghost use Rattle.file_read.specs.Inner.{LoadsRight};

use file_verify::file_verdict;
use filling::{fill_lent, has_room};
use terms::{Fault, Loaded, Refusal};

// Reads a file into the lent tables: prefix, clauses, and the rows of class names, parents and counts. Everything is judged before the first row is
// written. The prefix is read by a rule where its formula is judged, and stored as the file has it.
pub fn load(
    rule: u32,
    file: &[u8],
    prefix: &mut [u32],
    clauses: &mut [i32],
    classes: &mut [u32],
    parents: &mut [u32],
    counts: &mut [u32],
) -> Result<Loaded, Refusal>
    ensures loaded { Loads rule file.now (lent_in prefix clauses classes parents counts)
        (lent_out prefix clauses classes parents counts) result }
{
    file_verdict(rule, file)?;
    load_right(file, prefix, clauses, classes, parents, counts)
}

// Stores what a verified file has in the lent tables, where they have room for it.
fn load_right(
    file: &[u8],
    prefix: &mut [u32],
    clauses: &mut [i32],
    classes: &mut [u32],
    parents: &mut [u32],
    counts: &mut [u32],
) -> Result<Loaded, Refusal>
    requires laid { Laid file.now }
    ensures loaded { LoadsRight file.now (lent_in prefix clauses classes parents counts)
        (lent_out prefix clauses classes parents counts) result }
{
    if !has_room(file, prefix, clauses, classes, parents, counts) {
        return Err(Refusal(Fault::TooLittleRoom, 0));
    }
    Ok(fill_lent(file, prefix, clauses, classes, parents, counts))
}
