// The lines before the body: comments and the problem line.

ghost use Rattle.std.specs.Prelude.{◌≡◌, ◌<◌, length};
ghost use Rattle.text_lines.specs.Format.{CommentLine};
ghost use Rattle.text_lines.specs.InnerSteps.{NoComment, OpenedIs};
ghost use Rattle.text_words.specs.InnerPlaces.{past, in_line, line_at};

use crate::Opened;
use text_words::expected::{cnf_at, letter_at, line_ended, number_at};
use text_write::{LETTER_C, LETTER_P, LF};

// A line before or at the problem line, if it is one.
pub fn opening_at(text: &[u8], at: usize) -> Option<Opened>
    requires within { at < length text.now }
    ensures opened { OpenedIs text.now at result }
{
    if text[at] == LETTER_C {
        comment_at(text, at)
    } else {
        problem_at(text, at)
    }
}

// A comment, which needs its LF.
fn comment_at(text: &[u8], at: usize) -> Option<Opened>
    requires comment { CommentLine (line_at text.now at) }
    ensures opened { OpenedIs text.now at result }
{
    let stop = line_end(text, at);
    if text.len() <= stop {
        return None;
    }
    Some(Opened::Comment { next: stop + 1 })
}

// The place of the LF of the line at a place, or the text's end.
fn line_end(text: &[u8], at: usize) -> usize
    ensures passed { result ≡ past in_line text.now at }
{
    for i in at..text.len() {
        if text[i] == LF {
            return i;
        }
    }
    at.max(text.len())
}

// The problem line `p cnf n m`.
fn problem_at(text: &[u8], at: usize) -> Option<Opened>
    requires plain { NoComment text.now at }
    ensures opened { OpenedIs text.now at result }
{
    let p = letter_at(text, at, LETTER_P)?;
    let cnf = cnf_at(text, p)?;
    let n = number_at(text, cnf)?;
    let announced = number_at(text, n.next)?;
    let next = line_ended(text, announced.next)?;
    Some(Opened::Problem {
        n: n.value,
        announced: announced.value,
        next,
    })
}
