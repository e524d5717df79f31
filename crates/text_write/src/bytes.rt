// Bytes and numbers stored in a lent buffer as far as it has room, and the place after them: where the buffer lacks room the place is still right,
// so that a length can be known before anything is written.

ghost use Rattle.std.specs.Prelude.{◌<◌, ◌≡◌, [], ◌∷◌, length};
ghost use Rattle.text_write.specs.Numbers.{decimal};
ghost use Rattle.text_write.specs.InnerBytes.{Wrote};

use crate::ZERO;

// Stores a byte if the buffer has room for it.
pub fn put_byte(out: &mut [u8], at: usize, byte: u8) -> usize
    requires near { at < 4294967296 }
    ensures wrote { Wrote (byte ∷ []) out.old out.new at result }
{
    if at < out.len() {
        out[at] = byte;
        return at + 1;
    }
    at + 1
}

// The decimal digits of a number; where the buffer has no room for the first of them, how many there are says where they end.
pub fn put_number(out: &mut [u8], at: usize, value: u32) -> usize
    requires small { (at < 4294967200) × (value < 100000) }
    ensures wrote { Wrote (decimal value) out.old out.new at result }
{
    if at < out.len() {
        return put_digits(out, at, value);
    }
    at + width(value)
}

// The digits one by one, as far as the buffer has room: those of a tenth of the number, and one more.
fn put_digits(out: &mut [u8], at: usize, value: u32) -> usize
    requires small { (at < 4294967200) × (value < 100000) }
    ensures wrote { Wrote (decimal value) out.old out.new at result }
{
    if value < 10 {
        return put_byte(out, at, ZERO + (value as u8));
    }
    let next = put_digits(out, at, value / 10);
    put_byte(out, next, ZERO + ((value % 10) as u8))
}

// How many digits a number has.
fn width(value: u32) -> usize
    requires small { value < 100000 }
    ensures counted { result ≡ length (decimal value) }
{
    if 9999 < value {
        return 5;
    }
    if 999 < value {
        return 4;
    }
    if 99 < value {
        return 3;
    }
    if 9 < value {
        return 2;
    }
    1
}
