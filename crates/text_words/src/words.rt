// The words of a line, each from its first byte up to its end: the word reader, and a word as a number.

ghost use Rattle.std.specs.Prelude.{◌≡◌, ◌+◌, ◌≤◌, length};
ghost use Rattle.std.proofs.Math.Seq.{slice};
ghost use Rattle.text_words.specs.InnerNumbers.{number_of};
ghost use Rattle.text_words.specs.InnerPlaces.{past, is_space, in_word, word_from, word_at, spelt_of, SignIs, NumeralIs, StopIs};

use crate::{Counted, Word};
use text_write::{LF, MINUS, NINE, SPACE, ZERO};

// The word reader: the lent text and a place in it.
#[derive(Clone, Copy)]
pub struct Words<'a> {
    pub text: &'a [u8],
    pub at: usize,
}

// The word that stands next in a text from a place on, through a reader: whoever calls this holds no reader.
pub fn word_in(text: &[u8], at: usize) -> Word
    ensures found { result ≡ word_at text.now at }
{
    next(reader(text, at))
}

// A reader of a text at a place.
fn reader<'a>(text: &'a [u8], at: usize) -> Words<'a>
    ensures holds { (result.text ≡ text.entry) × (result.at ≡ at) }
{
    Words { text, at }
}

// The word that stands next.
fn next<'a>(words: Words<'a>) -> Word
    ensures found { result ≡ word_at words.entry.text.now words.entry.at }
{
    word_at(words.text, words.at)
}

// The word that stands next in a line. Nearly all are short numbers, which are read while their end is found.
fn word_at(text: &[u8], at: usize) -> Word
    ensures found { result ≡ word_at text.now at }
{
    let start = gap_end(text, at);
    let from = after_sign(text, start);
    match digits_at(text, from) {
        Some(counted) => Word::Found {
            start,
            end: counted.next,
            number: Some(counted.value),
            negative: start < from,
        },
        None => any_word(text, start, from),
    }
}

// The word at a place at which no space stands, whatever it is, where the place after its `-` is known.
fn any_word(text: &[u8], start: usize, from: usize) -> Word
    requires signed { SignIs text.now start from }
    ensures found { result ≡ word_from text.now start (past in_word text.now start) }
{
    let end = run_end(text, start);
    if start < end {
        Word::Found {
            start,
            end,
            number: number_in(text, from, end),
            negative: start < from,
        }
    } else {
        Word::End { at: start }
    }
}

// The place after a `-`, if one stands at a place.
fn after_sign(text: &[u8], at: usize) -> usize
    ensures signed { SignIs text.now at result }
{
    if text.len() <= at {
        return at;
    }
    if text[at] == MINUS { at + 1 } else { at }
}

// The number that stands at a place, if it is one to five digits and a space or LF follows: what is not told here has to be looked at again.
fn digits_at(text: &[u8], from: usize) -> Option<Counted>
    ensures counted { NumeralIs text.now from result }
{
    let mut value: u32 = 0;
    for i in from..text.len() {
        let byte = text[i];
        if byte < ZERO {
            return number_to(byte, value, from, i);
        }
        if NINE < byte || 4 < i - from {
            return None;
        }
        value = value * 10 + ((byte - ZERO) as u32);
    }
    None
}

// The number of the digits up to a place, if there are any and the byte there ends their word.
fn number_to(byte: u8, value: u32, from: usize, end: usize) -> Option<Counted>
    ensures counted { StopIs byte value from end result }
{
    if end <= from {
        return None;
    }
    if byte == SPACE {
        return Some(Counted { value, next: end });
    }
    if byte == LF {
        return Some(Counted { value, next: end });
    }
    None
}

// The place after the spaces that stand at a place.
pub fn gap_end(text: &[u8], at: usize) -> usize
    ensures passed { result ≡ past is_space text.now at }
{
    for i in at..text.len() {
        if text[i] != SPACE {
            return i;
        }
    }
    at.max(text.len())
}

// The place after the bytes that stand at a place before the next space or LF.
fn run_end(text: &[u8], at: usize) -> usize
    ensures passed { result ≡ past in_word text.now at }
{
    for i in at..text.len() {
        let byte = text[i];
        if byte == SPACE || byte == LF {
            return i;
        }
    }
    at.max(text.len())
}

// A word as a number.
fn number_in(text: &[u8], start: usize, end: usize) -> Option<u32>
    requires within { (start ≤ end) × (end ≤ length text.now) }
    ensures counted { result ≡ number_of (slice start end text.now) }
{
    let size = end - start;
    if size < 1 {
        return None;
    }
    if 5 < size {
        return None;
    }
    digits_in(text, start, end)
}

// The number that the digits from a place up to an end spell, at most five.
fn digits_in(text: &[u8], start: usize, end: usize) -> Option<u32>
    requires few { (start ≤ end) × (end ≤ start + 5) × (end ≤ length text.now) }
    ensures counted { result ≡ spelt_of 0 (slice start end text.now) }
{
    let mut value: u32 = 0;
    for &byte in &text[start..end] {
        if byte < ZERO || NINE < byte {
            return None;
        }
        value = value * 10 + ((byte - ZERO) as u32);
    }
    Some(value)
}
