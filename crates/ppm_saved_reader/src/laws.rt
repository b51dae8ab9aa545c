//! What is true of every text, shown by a call that does nothing.
ghost use Rattle.ppm_saved_reader.specs.Correct.{FaultsTellSavedTexts};

use ppm_listing_reader::faults_tell_listings;

/// A text is wrong at some line exactly where it is that of no state. It is that of one state at most,
/// and it is wrong at one line at most, and there in one way. The text of a state is never too long.
pub fn faults_tell_saved_texts()
    ensures law { FaultsTellSavedTexts }
{
    // The law rests on this one; the call does nothing.
    faults_tell_listings();
}
