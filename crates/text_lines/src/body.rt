// The lines after the problem line: quantifier lines and clause lines.

ghost use Rattle.std.specs.Prelude.{◌≡◌, None, false, ◌<◌, ◌≤◌, length};
ghost use Rattle.text_lines.specs.InnerSteps.{MarkIs, StepIs};

use crate::tables::{block_at, literals_at};
use crate::{Mark, Stage, Step};
use terms::Fault;
use text_words::expected::letter_at;
use text_words::words::gap_end;
use text_write::{LETTER_A, LETTER_E};

// A line after the problem line: a quantifier line if no clause line has stood, or a clause line if not all that were announced have.
pub fn body_at(
    text: &[u8],
    at: usize,
    n: u32,
    announced: u32,
    stood: u32,
    prefix: &mut [u32],
    entries: usize,
    clauses: &mut [i32],
    literals: usize,
) -> Result<Step, Fault>
    requires within { (at < length text.now) × (entries ≤ at) × (literals ≤ at) × (stood ≤ announced) }
    ensures steps { StepIs (Stage.Body n announced stood) text.now at entries literals
        (prefix.old, clauses.old) (prefix.new, clauses.new) result }
{
    match mark_at(text, at) {
        Some(marked) => {
            if stood != 0 {
                return Err(Fault::WrongLine);
            }
            let Some(block) = block_at(text, marked.next, marked.mark, prefix, entries) else {
                return Err(Fault::WrongLine);
            };
            Ok(Step {
                stage: Stage::Body {
                    n,
                    announced,
                    stood,
                },
                next: block.next,
                entries: block.count,
                literals,
            })
        }
        None => {
            let Some(clause) = literals_at(text, at, clauses, literals) else {
                return Err(Fault::WrongLine);
            };
            if announced <= stood {
                return Err(Fault::WrongClauseCount);
            }
            Ok(Step {
                stage: Stage::Body {
                    n,
                    announced,
                    stood: stood + 1,
                },
                next: clause.next,
                entries,
                literals: clause.count,
            })
        }
    }
}

// The mark of the `e` or `a` that begins a line. Nearly all lines are clause lines, which one byte tells.
fn mark_at(text: &[u8], at: usize) -> Option<Mark>
    ensures marked { MarkIs text.now at result }
{
    if !may_be_mark(text, at) {
        return None;
    }
    spelt_mark(text, at)
}

// Whether the first byte of a line but spaces is `e` or `a`.
fn may_be_mark(text: &[u8], at: usize) -> bool
    ensures unmarked { result ≡ false → MarkIs text.now at None }
{
    let start = gap_end(text, at);
    if text.len() <= start {
        return false;
    }
    let byte = text[start];
    if byte == LETTER_E {
        return true;
    }
    if byte == LETTER_A {
        return true;
    }
    false
}

// The mark of the first word of a line, if it is `e` or `a`.
fn spelt_mark(text: &[u8], at: usize) -> Option<Mark>
    ensures marked { MarkIs text.now at result }
{
    if let Some(next) = letter_at(text, at, LETTER_E) {
        return Some(Mark { mark: 1, next });
    }
    let next = letter_at(text, at, LETTER_A)?;
    Some(Mark { mark: 2, next })
}
