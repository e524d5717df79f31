// What is looked for next in a line: a letter, `cnf`, a number, or the end of the line.

ghost use Rattle.std.specs.Prelude.{[], ◌∷◌};
ghost use Rattle.text_words.specs.Words.{LETTER-C, LETTER-F, LETTER-N};
ghost use Rattle.text_words.specs.InnerExpected.{SpeltIs, CountedIs};
ghost use Rattle.text_words.specs.InnerPlaces.{EndedIs};

use crate::words::word_in;
use crate::{Counted, Word};
use text_write::{LETTER_C, LETTER_F, LETTER_N};

// Whether the next word of a line is one letter, and where the line goes on.
pub fn letter_at(text: &[u8], at: usize, letter: u8) -> Option<usize>
    ensures looked { SpeltIs (letter ∷ []) text.now at result }
{
    let Word::Found {
        start,
        end,
        number: _,
        negative: _,
    } = word_in(text, at)
    else {
        return None;
    };
    if end - start != 1 || text[start] != letter {
        return None;
    }
    Some(end)
}

// Whether the next word of a line is `cnf`, and where the line goes on.
pub fn cnf_at(text: &[u8], at: usize) -> Option<usize>
    ensures looked { SpeltIs (LETTER-C ∷ LETTER-N ∷ LETTER-F ∷ []) text.now at result }
{
    let Word::Found {
        start,
        end,
        number: _,
        negative: _,
    } = word_in(text, at)
    else {
        return None;
    };
    if end - start != 3 {
        return None;
    }
    if text[start] != LETTER_C || text[start + 1] != LETTER_N || text[start + 2] != LETTER_F {
        return None;
    }
    Some(end)
}

// The number that is the next word of a line, and where the line goes on.
pub fn number_at(text: &[u8], at: usize) -> Option<Counted>
    ensures looked { CountedIs text.now at result }
{
    let Word::Found {
        start: _,
        end,
        number,
        negative,
    } = word_in(text, at)
    else {
        return None;
    };
    if negative {
        return None;
    }
    let value = number?;
    Some(Counted { value, next: end })
}

// Where the next line stands, if the line at a place has nothing left but spaces and its LF.
pub fn line_ended(text: &[u8], at: usize) -> Option<usize>
    ensures looked { EndedIs text.now at result }
{
    match word_in(text, at) {
        Word::Found {
            start: _,
            end: _,
            number: _,
            negative: _,
        } => None,
        Word::End { at: stop } => {
            if stop < text.len() {
                Some(stop + 1)
            } else {
                None
            }
        }
    }
}
