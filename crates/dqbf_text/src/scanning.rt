// The scan of a whole text, line by line, from stage to stage.

ghost use Rattle.text_lines.specs.InnerSteps.{Sound};
ghost use Rattle.dqbf_text.specs.InnerSteps.{FinishIs, ScanIs};

use crate::lines::line_at;
use terms::{ListedCounts, Refusal};
use text_lines::Stage;

// Scans a whole text line by line, and stores what its lines add as far as the tables have rows: a short table only learns the counts.
pub fn scan(
    text: &[u8],
    prefix: &mut [u32],
    clauses: &mut [i32],
    lists: &mut [u32],
) -> Result<ListedCounts, Refusal>
    ensures scanned { ScanIs text.now (prefix.old, clauses.old, lists.old)
        (prefix.new, clauses.new, lists.new) result }
{
    let mut at = 0;
    let mut listed = false;
    let mut stage = Stage::Opening;
    let mut entries = 0;
    let mut literals = 0;
    let mut rows = 0;
    // A walk along the lines: each says where the next one begins.
    while at < text.len() {
        match line_at(
            text, at, listed, stage, prefix, entries, clauses, literals, lists, rows,
        ) {
            Err(fault) => return Err(Refusal(fault, at)),
            Ok(onward) => {
                listed = onward.listed;
                stage = onward.step.stage;
                at = onward.step.next;
                entries = onward.step.entries;
                literals = onward.step.literals;
                rows = onward.rows;
            }
        }
    }
    finish(stage, at, entries, literals, rows)
}

// What the end of a text makes of the stage that its lines led to: list lines change nothing of what is missing then.
fn finish(
    stage: Stage,
    at: usize,
    entries: usize,
    literals: usize,
    rows: usize,
) -> Result<ListedCounts, Refusal>
    requires sound { Sound stage }
    ensures finished { FinishIs stage at (entries, literals, rows) result }
{
    let counts = text_qdimacs::scanning::finish(stage, at, entries, literals)?;
    Ok(ListedCounts {
        n: counts.n,
        prefix: entries,
        clauses: literals,
        lists: rows,
    })
}
