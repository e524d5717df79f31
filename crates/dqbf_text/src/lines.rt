// The lines of a text, one by one: list lines, and those of QDIMACS.

ghost use Rattle.std.specs.Prelude.{◌<◌, length};
ghost use Rattle.text_lines.specs.InnerSteps.{Sound};
ghost use Rattle.dqbf_text.specs.InnerSteps.{ListMarkIs, ListIs, Unlisted, LateIs, Few, PlainIs, OnwardIs};

use crate::Onward;
use crate::writing::LETTER_D;
use terms::Fault;
use text_lines::tables::variables_at;
use text_lines::{Stage, Step};
use text_words::Row;
use text_words::expected::letter_at;

// The line at a place, at a stage: list lines stand only after the problem line and before the clause lines.
pub fn line_at(
    text: &[u8],
    at: usize,
    listed: bool,
    stage: Stage,
    prefix: &mut [u32],
    entries: usize,
    clauses: &mut [i32],
    literals: usize,
    lists: &mut [u32],
    rows: usize,
) -> Result<Onward, Fault>
    requires within { (at < length text.now) × Few (entries, literals, rows) at × Sound stage }
    ensures steps { OnwardIs listed stage text.now at (entries, literals, rows)
        (prefix.old, clauses.old, lists.old) (prefix.new, clauses.new, lists.new) result }
{
    let Some(after) = list_mark(text, at, stage) else {
        return plain_line(
            text, at, listed, stage, prefix, entries, clauses, literals, rows,
        );
    };
    let Some(list) = list_at(text, after, lists, rows) else {
        return Err(Fault::WrongLine);
    };
    Ok(Onward {
        listed: true,
        step: Step {
            stage,
            next: list.next,
            entries,
            literals,
        },
        rows: list.count,
    })
}

// Where a line goes on that begins with `d`, where list lines may stand. No byte of a line after the first clause line is looked at.
fn list_mark(text: &[u8], at: usize, stage: Stage) -> Option<usize>
    ensures marked { ListMarkIs stage text.now at result }
{
    match stage {
        Stage::Opening => None,
        Stage::Body {
            n: _,
            announced: _,
            stood,
        } => {
            if stood != 0 {
                return None;
            }
            letter_at(text, at, LETTER_D)
        }
    }
}

// The numbers of a list line, stored in the table of lists from a row on: at least y and the closing 0. The place is the one after the letter.
fn list_at(text: &[u8], at: usize, lists: &mut [u32], from: usize) -> Option<Row>
    requires behind { from < at }
    ensures stored { ListIs text.now at from lists.old lists.new result }
{
    let row = variables_at(text, at, lists, from)?;
    if row.count <= from + 1 {
        return None;
    }
    Some(row)
}

// A line of QDIMACS, which after a list line is no quantifier line.
fn plain_line(
    text: &[u8],
    at: usize,
    listed: bool,
    stage: Stage,
    prefix: &mut [u32],
    entries: usize,
    clauses: &mut [i32],
    literals: usize,
    rows: usize,
) -> Result<Onward, Fault>
    requires within { (at < length text.now) × Few (entries, literals, rows) at × Sound stage × Unlisted stage text.now at }
    ensures steps { PlainIs listed stage text.now at (entries, literals, rows)
        (prefix.old, clauses.old) (prefix.new, clauses.new) result }
{
    let step = text_qdimacs::scanning::line_at(
        text, at, stage, prefix, entries, clauses, literals,
    )?;
    if is_late(listed, entries, step.entries) {
        return Err(Fault::WrongLine);
    }
    Ok(Onward { listed, step, rows })
}

// Whether a line after a list line added to the prefix table.
fn is_late(listed: bool, before: usize, after: usize) -> bool
    ensures told { LateIs listed before after result }
{
    if before == after {
        return false;
    }
    listed
}
