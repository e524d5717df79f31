// The heads of the records of a file; where the records of a file with the kinds in their order begin, and how many entries its prefix and its
// clause table have.

ghost use Rattle.std.specs.Prelude.{◌<◌, ◌≡◌, length};
ghost use Rattle.file_format.specs.Places.{size_at, kind_at, next_at, second_at, third_at, fourth_at, prefix_held, clauses_in, has_sets};
ghost use Rattle.file_layout.specs.InnerLaid.{Laid};

use file_format::Record;
use file_format::numbers::{four_at, two_at};

// How many bytes the payload of the record that begins at a place has.
pub fn size_at(file: &[u8], at: usize) -> u32
    requires near { at < 4294967294 }
    ensures read { result ≡ size_at file.now at }
{
    four_at(file, at)
}

// The kind of the record that begins at a place.
pub fn kind_at(file: &[u8], at: usize) -> u32
    requires near { at < 4294967292 }
    ensures read { result ≡ kind_at file.now at }
{
    two_at(file, at + 4)
}

// The place behind the record that begins at a place.
pub fn next_at(file: &[u8], at: usize) -> usize
    requires near { at < 4294967294 }
    ensures found { result ≡ next_at file.now at }
{
    let size = size_at(file, at) as usize;
    at + Record::HEAD + size
}

// Where the record of kind 2 begins.
pub fn second_at(file: &[u8]) -> usize
    requires laid { Laid file.now }
    ensures found { result ≡ second_at file.now }
{
    next_at(file, 0)
}

// Where the record of kind 3 begins.
pub fn third_at(file: &[u8]) -> usize
    requires laid { Laid file.now }
    ensures found { result ≡ third_at file.now }
{
    let second = second_at(file);
    next_at(file, second)
}

// Where the record behind that of kind 3 begins.
pub fn fourth_at(file: &[u8]) -> usize
    requires laid { Laid file.now }
    ensures found { result ≡ fourth_at file.now }
{
    let third = third_at(file);
    next_at(file, third)
}

// How many entries the prefix has.
pub fn prefix_entries(file: &[u8]) -> usize
    requires laid { Laid file.now }
    ensures counted { result ≡ length (prefix_held file.now) }
{
    let size = size_at(file, 0) as usize;
    (size - 2) / 2
}

// How many entries the clause table has.
pub fn clause_entries(file: &[u8]) -> usize
    requires laid { Laid file.now }
    ensures counted { result ≡ length (clauses_in file.now) }
{
    let second = second_at(file);
    let size = size_at(file, second) as usize;
    size / 4
}

// Whether the record behind that of kind 3 has sets.
pub fn has_sets(file: &[u8]) -> bool
    requires laid { Laid file.now }
    ensures told { result ≡ has_sets file.now }
{
    let fourth = fourth_at(file);
    let kind = kind_at(file, fourth);
    kind == Record::SETS
}
