// The bytes of each line that the program prints, stored from the start of a lent buffer, and how many they are.

#![tactic(auto)]

ghost use Rattle.std.specs.Prelude.{◌<◌, ◌≤◌, ◌++◌, length};
ghost use Rattle.text_write.specs.Numbers.{decimal};
ghost use Rattle.text_write.specs.InnerBytes.{Wrote};
ghost use Rattle.listing_lines.specs.Lines.{numbers, head_line, universal_line, refused_line, LineIn};
ghost use Rattle.listing_lines.specs.Inner.{line_bytes, Small, Stored};

use text_write::bytes::{put_byte, put_number};

// `vars N blocks B clauses C strict`
pub fn head_line(out: &mut [u8], n: u32, blocks: u32, clauses: u32) -> usize
    requires small { (n < 100000) × (blocks < 100000) × (clauses < 100000) × (line_bytes ≤ length out.old) }
    ensures stored { LineIn (head_line n blocks clauses) out.old out.new result }
{
    let a = put_named(out, 0, b"vars ", n);
    let b = put_named(out, a, b" blocks ", blocks);
    let c = put_named(out, b, b" clauses ", clauses);
    put_word(out, c, b" strict\n")
}

// `X level L entries .. set ..`
pub fn universal_line(out: &mut [u8], x: u32, level: u32, entries: &[u32], set: &[u32]) -> usize
    requires small { (x < 100000) × (level < 100000) × Small entries.now × Small set.now × (line_bytes ≤ length out.old) }
    ensures stored { LineIn (universal_line x level entries.now set.now) out.old out.new result }
{
    let a = put_named(out, 0, b"", x);
    let b = put_named(out, a, b" level ", level);
    let c = put_list(out, b, b" entries", entries);
    let d = put_list(out, c, b" set", set);
    put_byte(out, d, b'\n')
}

// `refused R at P`
pub fn refused_line(out: &mut [u8], number: u32, place: u32) -> usize
    requires small { (number < 100000) × (place < 100000) × (line_bytes ≤ length out.old) }
    ensures stored { LineIn (refused_line number place) out.old out.new result }
{
    let a = put_named(out, 0, b"refused ", number);
    let b = put_named(out, a, b" at ", place);
    put_byte(out, b, b'\n')
}

// Stores a word and a number behind it.
fn put_named(out: &mut [u8], at: usize, word: &[u8], value: u32) -> usize
    requires small { (at < 100000) × (length word.now < 10) × (value < 100000) }
    ensures stored { Stored 16 (word.now ++ decimal value) out.old out.new at result }
{
    let next = put_word(out, at, word);
    put_number(out, next, value)
}

// Stores a word and the numbers of a list behind it.
fn put_list(out: &mut [u8], at: usize, word: &[u8], list: &[u32]) -> usize
    requires small { (at < 100000) × (length word.now < 10) × Small list.now }
    ensures stored { Stored 28700 (word.now ++ numbers list.now) out.old out.new at result }
{
    let next = put_word(out, at, word);
    put_numbers(out, next, list)
}

// Stores the bytes of a word.
fn put_word(out: &mut [u8], at: usize, word: &[u8]) -> usize
    requires small { (at < 4294900000) × (length word.now < 100) }
    ensures wrote { Wrote word.now out.old out.new at result }
{
    let mut next = at;
    for &byte in word {
        next = put_byte(out, next, byte);
    }
    next
}

// Stores numbers, each after a space.
fn put_numbers(out: &mut [u8], at: usize, list: &[u32]) -> usize
    requires small { (at < 1000000) × Small list.now }
    ensures wrote { Wrote (numbers list.now) out.old out.new at result }
{
    let mut next = at;
    for &number in list {
        let start = put_byte(out, next, b' ');
        next = put_number(out, start, number);
    }
    next
}
