//! What is true of every text, shown by a call that does nothing.
ghost use Rattle.ppm_ram.specs.Correct.{TextsAreOfRams};

/// A text says a RAM exactly where it is what is written of that RAM. Which fault another text has is
/// said by the definition of what a text says (`ram_in`), line by line.
pub fn texts_are_of_rams()
    ensures { TextsAreOfRams }
{}
