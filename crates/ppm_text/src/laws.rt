//! What is true of every text, shown by a call that does nothing.
ghost use Rattle.ppm_text.specs.Correct.{HaveOneReading};

/// A text has its tokens in one way or one fault, never both, and one of the two.
pub fn have_one_reading()
    ensures law { HaveOneReading }
{}
