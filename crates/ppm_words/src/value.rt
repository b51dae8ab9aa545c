//! A signed number in a word of 64 bits, and back.
ghost use Rattle.std.specs.Prelude.{◌≡◌, ◌<◌, ◌^◌, FitsSigned};
ghost use Rattle.std.specs.Int.{w64};
ghost use Rattle.ppm_words.specs.TwosComplement.{word_of, value_of};

/// The word that stands for a signed number, by two's complement: -1 is 18446744073709551615.
pub fn to_word(value: i64) -> u64
    ensures value { result ≡ word_of value }
    ensures back { value_of result ≡ value }
    ensures in_range { result < 2 ^ 64 }
{
    value.cast_unsigned()
}

/// The signed number that a word stands for, from -2^63 to 2^63 - 1, by two's complement.
pub fn of_word(word: u64) -> i64
    ensures value { result ≡ value_of word }
    ensures back { word_of result ≡ word }
    ensures in_range { FitsSigned w64 result }
{
    word.cast_signed()
}
