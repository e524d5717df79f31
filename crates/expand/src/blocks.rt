// The prefix of the result: x leaves its block, each copy follows its original, empty blocks go, and equal neighbours join.

ghost use Rattle.std.specs.Prelude.{ℕ, ◌≤◌};
ghost use Rattle.formula.specs.InnerLevels.{SoundPrefix};
ghost use Rattle.formula_rules.specs.InnerWriting.{closing};
ghost use Rattle.expand_clauses.specs.InnerCopies.{with_copy, expanded_prefix};
ghost use Rattle.expand_clauses.specs.InnerCopied.{Stored, tabled};
ghost use Rattle.expand.specs.InnerWriting.{beginning};

use expand_clauses::stores::{copy_at, store};
use terms::Variable;

// Writes the prefix into a table as far as that has rows, and gives the count of all entries. A block begins with its first variable that stays.
pub fn lay(prefix: &[u32], x: Variable, copies: &[u32], out: &mut [u32]) -> usize
    requires sound { (n : ℕ) × SoundPrefix n prefix.now }
    ensures stored { Stored (expanded_prefix x.0 (tabled copies.now) prefix.now)
        out.old out.new 0 result }
{
    // the mark of the block that is read, where one is
    let mut block = None;
    let mut last: u32 = 0;
    let mut count = 0;
    for &entry in prefix {
        let Some(mark) = block else {
            block = Some(entry);
            continue;
        };
        if entry == 0 {
            block = None;
        } else if entry != x.0 {
            let begun = begin(mark, last, out, count);
            count = place(copies, Variable::new(entry), out, begun);
            last = mark;
        }
    }
    close(last, out, count)
}

// Begins a block with the mark `mark`, unless the open block has that mark. The open block is closed first.
fn begin(mark: u32, last: u32, out: &mut [u32], at: usize) -> usize
    requires within { at ≤ 32768 }
    ensures stored { Stored (beginning mark last) out.old out.new at result }
{
    if mark == last {
        return at;
    }
    let closed = close(last, out, at);
    store(out, closed, mark);
    closed + 1
}

// Closes the open block, whose mark is `last`; 0 stands for none.
fn close(last: u32, out: &mut [u32], at: usize) -> usize
    requires within { at ≤ 32768 }
    ensures stored { Stored (closing last) out.old out.new at result }
{
    if last == 0 {
        return at;
    }
    store(out, at, 0);
    at + 1
}

// Writes a variable, and its copy after it.
fn place(copies: &[u32], v: Variable, out: &mut [u32], at: usize) -> usize
    requires within { at ≤ 65536 }
    ensures stored { Stored (with_copy (tabled copies.now) v.0) out.old out.new at result }
{
    store(out, at, v.0);
    let Some(copy) = copy_at(copies, v) else {
        return at + 1;
    };
    store(out, at + 1, copy.0);
    at + 2
}
