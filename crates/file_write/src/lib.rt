// Writing the file of a forest under a reading rule: the formula is judged once, and its forest is built.

#![tactic(auto)]

mod whole;

ghost use Rattle.std.specs.Prelude.{◌≤◌, length};
ghost use Rattle.terms.specs.Limits.{prefix_entries};
ghost use Rattle.formula.specs.Lent.{formula_in};
ghost use Rattle.formula.specs.InnerLevels.{SoundPrefix};
ghost use Rattle.formula.specs.InnerLookup.{SoundClauses};
ghost use Rattle.file_format.specs.Promises.{Stores};
ghost use Rattle.file_write.specs.InnerParts.{StoresRead};

use formula_rules::take_formula;
use grow::building::build_sound;
use terms::{Level, Refusal, Variable};
use whole::store_file;

// Writes the file of a formula and its forest into a lent table, and gives the count of its bytes. The prefix is written as it is lent.
pub fn store(
    rule: u32,
    n: u32,
    prefix: &[u32],
    clauses: &[i32],
    file: &mut [u8],
) -> Result<u32, Refusal>
    ensures stored { Stores rule (formula_in n prefix clauses) file.old file.new result }
{
    let mut joined = [0u32; Level::JOINED];
    let read = take_formula(rule, n, prefix, clauses, &mut joined)?;
    store_read(n, prefix, read, clauses, file)
}

// Writes the file of an accepted formula, from its prefix as lent and as read: its forest is built in tables of its own, which have room for the most
// variables.
fn store_read(
    n: u32,
    prefix: &[u32],
    read: &[u32],
    clauses: &[i32],
    file: &mut [u8],
) -> Result<u32, Refusal>
    requires sound { SoundPrefix n read.now × SoundClauses clauses.now × (length prefix.now ≤ prefix_entries) }
    ensures stored { StoresRead (formula_in n prefix clauses) read.now file.old file.new result }
{
    let mut classes = [0u32; Variable::MOST as usize];
    let mut parents = [0u32; Variable::MOST as usize];
    let mut counts = [0u32; Variable::MOST as usize];
    build_sound(n, read, clauses, &mut classes, &mut parents, &mut counts);
    let rows = n as usize;
    store_file(
        n,
        prefix,
        clauses,
        &classes[..rows],
        &parents[..rows],
        &counts[..rows],
        file,
    )
}
