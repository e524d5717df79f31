// Numbers out of the bytes of a file, little-endian, and literals as four-byte numbers in two's complement and back.

ghost use Rattle.std.specs.Prelude.{◌≡◌, ◌<◌, slice_index};
ghost use Rattle.file_format.specs.Numbers.{number_at, literal_number, literal_of};

// The number in the two bytes from a place on.
pub fn two_at(file: &[u8], at: usize) -> u32
    requires near { at < 4294967296 }
    ensures read { (result ≡ number_at 2 file.now at) × (result < 65536) }
{
    let low = byte_at(file, at);
    let high = byte_at(file, at + 1);
    low + 256 * high
}

// The number in the four bytes from a place on.
pub fn four_at(file: &[u8], at: usize) -> u32
    requires near { at < 4294967294 }
    ensures read { result ≡ number_at 4 file.now at }
{
    let low = two_at(file, at);
    let high = two_at(file, at + 2);
    low + 65536 * high
}

// The byte at a place, 0 past the end.
fn byte_at(file: &[u8], at: usize) -> u32
    ensures read { (result ≡ slice_index file.now at) × (result < 256) }
{
    file.get(at).map_or(0, |&byte| u32::from(byte))
}

// A literal as a four-byte number, in two's complement. The bits of a negative one are flipped first, since its negation may not fit.
pub fn literal_number(literal: i32) -> u32
    ensures encoded { result ≡ literal_number literal }
{
    if literal < 0 {
        let below = !literal;
        4294967295 - (below as u32)
    } else {
        literal as u32
    }
}

// The literal that a four-byte number is.
pub fn literal_of(number: u32) -> i32
    ensures decoded { result ≡ literal_of number }
{
    if number < 2147483648 {
        number as i32
    } else {
        let below = (4294967295 - number) as i32;
        !below
    }
}
