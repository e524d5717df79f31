// The prefix as reading rule 2 takes it, written into a table in one pass. The 0 that closes a block is written when the next one begins.

ghost use Rattle.std.specs.Prelude.{ℕ, ◌≤◌, ◌<◌, ◌≡◌, ◌≢◌, length, take};
ghost use Rattle.terms.specs.Refusals.{None};
ghost use Rattle.formula_rules.specs.Joined.{joined_prefix};
ghost use Rattle.formula_rules.specs.Rules.{JoinedCause};
ghost use Rattle.formula_rules.specs.InnerWriting.{closing, Put};

use crate::judging::begins_after;

// Writes an accepted prefix with its empty blocks dropped and its neighbours joined, and gives the count of entries written.
pub fn lay_out(prefix: &[u32], out: &mut [u32]) -> usize
    requires accepted { (n : ℕ) × None (JoinedCause n prefix.now) }
    requires room { length (joined_prefix prefix.now) ≤ length out.old }
    ensures within { result ≤ length out.new }
    ensures written { take result out.new ≡ joined_prefix prefix.now }
{
    let mut opens = true;
    let mut last: u32 = 0;
    let mut count = 0;
    for (i, &entry) in prefix.iter().enumerate() {
        if opens {
            opens = false;
            if begins_after(prefix, i, last) {
                let closed = close(last, out, count);
                out[closed] = entry;
                count = closed + 1;
                last = entry;
            }
        } else if entry == 0 {
            opens = true;
        } else {
            out[count] = entry;
            count += 1;
        }
    }
    close(last, out, count)
}

// Closes the block with the mark `last`, where there is one, and gives the count of entries with the 0.
fn close(last: u32, out: &mut [u32], count: usize) -> usize
    requires room { last ≢ 0 → count < length out.old }
    requires within { count ≤ length out.old }
    ensures put { Put (closing last) out.old out.new count result }
{
    if last == 0 {
        return count;
    }
    out[count] = 0;
    count + 1
}
