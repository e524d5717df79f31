// Numbers and literals as bytes, stored in a lent table from a place on as far as it has room, and the place after them.

ghost use Rattle.std.specs.Prelude.{ℕ, ◌<◌, ◌≤◌, ◌≡◌, map, length};
ghost use Rattle.terms.specs.Limits.{prefix_entries, clause_entries};
ghost use Rattle.text_write.specs.InnerBytes.{Wrote};
ghost use Rattle.file_format.specs.Numbers.{number_bytes, bytes_of};
ghost use Rattle.file_bytes.specs.InnerParts.{head_bytes};

use file_format::Record;
use text_write::bytes::put_byte;

// Stores so many bytes of a number, little-endian.
pub fn put_number(out: &mut [u8], at: usize, width: u32, number: u32) -> usize
    requires near { (at < 2097152) × (width ≤ 4) }
    ensures wrote { Wrote (number_bytes width number) out.old out.new at result }
{
    let bytes = number.to_le_bytes();
    let mut next = at;
    for &byte in &bytes[..width as usize] {
        next = put_byte(out, next, byte);
    }
    next
}

// Stores numbers one after the other, each of so many bytes.
pub fn put_numbers(out: &mut [u8], at: usize, width: u32, numbers: &[u32]) -> usize
    requires near { (at < 1048576) × (width ≤ 4) × (length numbers.now ≤ prefix_entries) }
    ensures wrote { Wrote (bytes_of width numbers.now) out.old out.new at result }
{
    put_entries(out, at, width, numbers, |number| number)
}

// Stores the numbers of entries one after the other, each of so many bytes: the promise is for each function that the conversion computes.
pub fn put_entries<T: Copy, F: Fn(T) -> u32>(
    out: &mut [u8],
    at: usize,
    width: u32,
    entries: &[T],
    number_of: F,
) -> usize
    requires near { (at < 1048576) × (width ≤ 4) × (length entries.now ≤ clause_entries) }
    requires callable { F.IsAlwaysCallable number_of }
    ensures wrote { (f : T → ℕ) → ((x : T) (y : ℕ) → F.post number_of x y → y ≡ f x)
        → Wrote (bytes_of width (map f entries.now)) out.old out.new at result }
{
    let mut next = at;
    for &entry in entries {
        next = put_number(out, next, width, number_of(entry));
    }
    next
}

// Stores the head of a record: the length of its payload in four bytes, and its kind in two.
pub fn put_head(out: &mut [u8], at: usize, head: Record) -> usize
    requires near { at < 1048576 }
    ensures wrote { Wrote (head_bytes head.size head.kind) out.old out.new at result }
{
    let next = put_number(out, at, 4, head.size);
    put_number(out, next, 2, head.kind)
}
