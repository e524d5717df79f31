// The scan of a whole text, line by line, from stage to stage.

ghost use Rattle.std.specs.Prelude.{◌<◌, ◌≤◌, length};
ghost use Rattle.text_lines.specs.InnerSteps.{StepIs, Sound};
ghost use Rattle.text_qdimacs.specs.InnerScans.{FinishIs, ScanIs};

use terms::{Counts, Fault, Refusal};
use text_lines::body::body_at;
use text_lines::opening::opening_at;
use text_lines::{Opened, Stage, Step};

// Scans a whole text line by line, and stores what its lines add as far as the tables have rows: a short table only learns the counts.
pub fn scan(text: &[u8], prefix: &mut [u32], clauses: &mut [i32]) -> Result<Counts, Refusal>
    ensures scanned { ScanIs text.now (prefix.old, clauses.old) (prefix.new, clauses.new) result }
{
    let mut at = 0;
    let mut stage = Stage::Opening;
    let mut entries = 0;
    let mut literals = 0;
    // A walk along the lines: each says where the next one begins.
    while at < text.len() {
        match line_at(text, at, stage, prefix, entries, clauses, literals) {
            Err(fault) => return Err(Refusal(fault, at)),
            Ok(step) => {
                stage = step.stage;
                at = step.next;
                entries = step.entries;
                literals = step.literals;
            }
        }
    }
    finish(stage, at, entries, literals)
}

// The line at a place, at a stage.
pub fn line_at(
    text: &[u8],
    at: usize,
    stage: Stage,
    prefix: &mut [u32],
    entries: usize,
    clauses: &mut [i32],
    literals: usize,
) -> Result<Step, Fault>
    requires within { (at < length text.now) × (entries ≤ at) × (literals ≤ at) × Sound stage }
    ensures steps { StepIs stage text.now at entries literals
        (prefix.old, clauses.old) (prefix.new, clauses.new) result }
{
    match stage {
        Stage::Opening => match opening_at(text, at) {
            None => Err(Fault::WrongLine),
            Some(Opened::Comment { next }) => Ok(Step {
                stage: Stage::Opening,
                next,
                entries,
                literals,
            }),
            Some(Opened::Problem { n, announced, next }) => Ok(Step {
                stage: Stage::Body {
                    n,
                    announced,
                    stood: 0,
                },
                next,
                entries,
                literals,
            }),
        },
        Stage::Body {
            n,
            announced,
            stood,
        } => body_at(
            text, at, n, announced, stood, prefix, entries, clauses, literals,
        ),
    }
}

// What the end of a text makes of the stage that its lines led to.
pub fn finish(stage: Stage, at: usize, entries: usize, literals: usize) -> Result<Counts, Refusal>
    requires sound { Sound stage }
    ensures finished { FinishIs stage at entries literals result }
{
    match stage {
        Stage::Opening => Err(Refusal(Fault::WrongLine, at)),
        Stage::Body {
            n,
            announced,
            stood,
        } => {
            if stood < announced {
                Err(Refusal(Fault::WrongClauseCount, at))
            } else {
                Ok(Counts {
                    n,
                    prefix: entries,
                    clauses: literals,
                })
            }
        }
    }
}
