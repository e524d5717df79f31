// Numbers from 1 to n that are picked by their flags, written ascending into a lent table.

#![tactic(auto)]

ghost use Rattle.std.specs.Prelude.{ℕ, ◌+◌, ◌≤◌, ◌≡◌, false, length, get_or};
ghost use Rattle.std.proofs.lemmas.List.Edits.{sets};
ghost use Rattle.forest_theory.specs.Tables.{row};
ghost use Rattle.forest_theory.specs.Counts.{sum};
ghost use Rattle.forest_tables.specs.InnerRows.{Tells};
ghost use Rattle.forest_members.specs.InnerPicked.{pick, picked, NoneUpto, Picks};

use forest_tables::rows::{flag_at, row_of};
use terms::{Counts, Fault, Refusal, Variable};

// What is listed: the flagged entry points themselves, or the set, which is the variables with a flagged top.
#[derive(Clone, Copy)]
pub enum Asked {
    Points,
    Set,
}

// Writes the picked numbers from 1 to n into the front of `out`, ascending, if there is room for all of them.
pub fn list_picked(
    n: u32,
    asked: Asked,
    flags: &[bool],
    tops: &[u32],
    out: &mut [u32],
) -> Result<u32, Refusal>
    ensures listed { Picks (pick asked n flags.now tops.now) n out.old out.new result }
{
    if !has_room(n, asked, flags, tops, out.len()) {
        return Err(Refusal(Fault::TooLittleRoom, 0));
    }
    let end = write_picked(n, asked, flags, tops, 0, 0, out);
    Ok(end as u32)
}

// Whether so much room is enough for the picked numbers. They are counted only where there is room for less than n.
fn has_room(n: u32, asked: Asked, flags: &[bool], tops: &[u32], room: usize) -> bool
    ensures told { Tells result (length (picked (pick asked n flags.now tops.now) n) ≤ room) }
{
    if n as usize <= room {
        return true;
    }
    let count = count_picked(n, asked, flags, tops, 0);
    if room < count as usize {
        return false;
    }
    true
}

// How many of the numbers from 1 to n are picked, where none is up to `from`.
pub fn count_picked(n: u32, asked: Asked, flags: &[bool], tops: &[u32], from: u32) -> u32
    requires skipped { (from ≤ n) × NoneUpto (pick asked n flags.now tops.now) from }
    ensures counted { result ≡ length (picked (pick asked n flags.now tops.now) n) }
{
    let mut count = 0;
    for passed in from..n {
        if picks(n, asked, flags, tops, Variable::new(passed + 1)) {
            count += 1;
        }
    }
    count
}

// Writes the picked numbers from 1 to n, where none is up to `from`, ascending, from the entry `at` on; gives the entry behind them.
pub fn write_picked(
    n: u32,
    asked: Asked,
    flags: &[bool],
    tops: &[u32],
    from: u32,
    at: usize,
    out: &mut [u32],
) -> usize
    requires skipped { (from ≤ n) × NoneUpto (pick asked n flags.now tops.now) from }
    requires room { at + length (picked (pick asked n flags.now tops.now) n) ≤ length out.old }
    ensures behind { result ≡ at + length (picked (pick asked n flags.now tops.now) n) }
    ensures written { out.new ≡ sets out.old at (picked (pick asked n flags.now tops.now) n) }
{
    let mut end = at;
    for passed in from..n {
        if picks(n, asked, flags, tops, Variable::new(passed + 1)) {
            out[end] = passed + 1;
            end += 1;
        }
    }
    end
}

// Whether v is picked.
fn picks(n: u32, asked: Asked, flags: &[bool], tops: &[u32], v: Variable) -> bool
    ensures told { result ≡ pick asked n flags.now tops.now v.0 }
{
    match asked {
        Asked::Points => flag_at(flags, v),
        Asked::Set => flag_at(flags, row_of(n, tops, v)),
    }
}

// The sum of the rows of the flagged numbers from 1 to n.
pub fn sum_flagged(n: u32, flags: &[bool], rows: &[u32]) -> u32
    requires small { (n ≤ 4096) × ((v : ℕ) → row n rows.now v ≤ 4096) }
    ensures summed { result ≡ sum (row n rows.now) (picked (λ v. get_or flags.now v false) n) }
{
    let mut total: u32 = 0;
    for v in 1..=n {
        if flag_at(flags, Variable::new(v)) {
            total += row_of(n, rows, Variable::new(v)).0;
        }
    }
    total
}
