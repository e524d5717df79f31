// The entries of a quantifier or clause line, one by one: what the next word is, and where the line goes on.

ghost use Rattle.std.specs.Prelude.{Some};
ghost use Rattle.text_words.specs.InnerPlaces.{signed_item, ItemIs, CloseIs, EntryIs};

use crate::expected::line_ended;
use crate::words::word_in;
use crate::{Entry, Word};

// What stands next in a line of entries.
pub fn entry_at(text: &[u8], at: usize) -> Entry
    ensures read { EntryIs text.now at result }
{
    match word_in(text, at) {
        Word::End { at: _ } => Entry::Unfit,
        Word::Found {
            start: _,
            end,
            number,
            negative,
        } => match number {
            None => Entry::Unfit,
            Some(value) => numbered(text, end, value, negative),
        },
    }
}

// What a number says, with `-` or without, where the line goes on at a place: only one that is not 0 may carry `-`.
fn numbered(text: &[u8], next: usize, value: u32, negative: bool) -> Entry
    ensures read { ItemIs (signed_item negative (Some value)) text.now next result }
{
    if value == 0 {
        if negative {
            return Entry::Unfit;
        }
        return close_at(text, next);
    }
    if negative {
        Entry::Negate { value, next }
    } else {
        Entry::Take { value, next }
    }
}

// After a 0, the line has to end.
fn close_at(text: &[u8], at: usize) -> Entry
    ensures read { CloseIs text.now at result }
{
    match line_ended(text, at) {
        None => Entry::Unfit,
        Some(next) => Entry::Close { next },
    }
}
