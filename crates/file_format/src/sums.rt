// The sum of a file's 16-bit words, which is let wrap.

ghost use Rattle.std.specs.Prelude.{◌≡◌, ◌%◌};
ghost use Rattle.file_format.specs.Numbers.{word_sum};

// The sum of the words of a file. A byte that is left over at the end belongs to no word.
pub fn sum_words(file: &[u8]) -> u16
    ensures summed { result ≡ word_sum file.now % 65536 }
{
    let (words, _) = file.as_chunks::<2>();
    let mut sum: u16 = 0;
    for &word in words {
        sum = sum.wrapping_add(u16::from_le_bytes(word));
    }
    sum
}
