// The numbers of a file, stored in tables or compared with them.

ghost use Rattle.std.specs.Prelude.{ℕ, ◌+◌, ◌*◌, ◌<◌, ◌≤◌, ◌≡◌, map, length};
ghost use Rattle.std.proofs.lemmas.List.Edits.{sets};
ghost use Rattle.forest_tables.specs.InnerRows.{Tells};
ghost use Rattle.file_format.specs.Numbers.{number_at, numbers_at};
ghost use Rattle.file_format.specs.Places.{prefix_held, clauses_in};
ghost use Rattle.file_layout.specs.InnerLaid.{Laid};
ghost use Rattle.file_layout.specs.InnerWidths.{Width};

use crate::places::{clause_entries, prefix_entries, second_at};
use file_format::Record;
use file_format::numbers::{four_at, literal_of, two_at};

// The number of two or four bytes at a place.
fn number_in(file: &[u8], width: usize, at: usize) -> u32
    requires near { Width width × (at < 4294967294) }
    ensures read { result ≡ number_at width file.now at }
{
    if width == 2 {
        two_at(file, at)
    } else {
        four_at(file, at)
    }
}

// Stores so many numbers from a place on in front in a table.
pub fn fill_numbers(file: &[u8], width: usize, from: usize, many: usize, table: &mut [u32])
    requires room { Width width × (from + width * many < 4294967294) × (many ≤ length table.old) }
    ensures stored { table.new ≡ sets table.old 0 (numbers_at width file.now from many) }
{
    fill_entries(file, width, from, many, table, |number| number);
}

// Stores what the conversion makes of so many numbers from a place on, in front in a table: the promise is for each function that the conversion computes.
fn fill_entries<T: Copy, F: Fn(u32) -> T>(
    file: &[u8],
    width: usize,
    from: usize,
    many: usize,
    table: &mut [T],
    entry_of: F,
)
    requires room { Width width × (from + width * many < 4294967294) × (many ≤ length table.old) }
    requires callable { F.IsAlwaysCallable entry_of }
    ensures stored { (f : ℕ → T) → ((x : ℕ) (y : T) → F.post entry_of x y → y ≡ f x)
        → table.new ≡ sets table.old 0 (map f (numbers_at width file.now from many)) }
{
    for (i, entry) in table[..many].iter_mut().enumerate() {
        *entry = entry_of(number_in(file, width, from + width * i));
    }
}

// Stores the prefix and the clauses of the file in front in tables.
pub fn fill_formula(file: &[u8], prefix: &mut [u32], clauses: &mut [i32])
    requires room { Laid file.now × (length (prefix_held file.now) ≤ length prefix.old)
        × (length (clauses_in file.now) ≤ length clauses.old) }
    ensures prefix { prefix.new ≡ sets prefix.old 0 (prefix_held file.now) }
    ensures clauses { clauses.new ≡ sets clauses.old 0 (clauses_in file.now) }
{
    let entries = prefix_entries(file);
    fill_numbers(file, 2, 8, entries, prefix);
    let second = second_at(file) + Record::HEAD;
    let literals = clause_entries(file);
    fill_entries(file, 4, second, literals, clauses, literal_of);
}

// Whether a table has the numbers from a place on.
pub fn same_numbers(file: &[u8], width: usize, from: usize, table: &[u32]) -> bool
    requires near { Width width × (from + width * length table.now < 4294967294) }
    ensures told { Tells result (numbers_at width file.now from (length table.now) ≡ table.now) }
{
    for (i, &entry) in table.iter().enumerate() {
        if number_in(file, width, from + width * i) != entry {
            return false;
        }
    }
    true
}
