// Two numbers in one row of a table, so that one store keeps both and one read finds both.

ghost use Rattle.std.specs.Prelude.{◌<◌, ◌/◌, ◌%◌, ◌≡◌};
ghost use Rattle.terms.specs.InnerPairs.{low_of, high_of};

// The two numbers of a row, each less than 65,536.
#[derive(Clone, Copy)]
pub struct Pair {
    pub low: u32,
    pub high: u32,
}

// The row of two numbers.
pub fn pack(low: u32, high: u32) -> u32
    requires small { (low < 65536) × (high < 65536) }
    ensures both { (low_of result ≡ low) × (high_of result ≡ high) }
{
    high * 65536 + low
}

// The two numbers of a row.
pub fn unpack(row: u32) -> Pair
    ensures both { (result.low ≡ low_of row) × (result.high ≡ high_of row) }
{
    Pair {
        low: row % 65536,
        high: row / 65536,
    }
}
