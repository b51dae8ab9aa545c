//! The laws of numbers.
ghost use Rattle.ppm_pieces.specs.Correct.{NumeralsAreDecimals};

/// A number below 2^64 is spelled in one way, by its decimal digits, and that spelling reads as the
/// number.
pub fn numerals_are_decimals()
    ensures { NumeralsAreDecimals }
{}
