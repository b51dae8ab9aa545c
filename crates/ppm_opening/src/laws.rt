//! What is true of every image and its depth-first run, shown by a call that does nothing.
ghost use Rattle.ppm_opening.specs.Correct.{ImagesBeginTheRun, ImagesShowTheRun};

/// The frame that the keeper's place is to run shows the strand with which the depth-first run of
/// the code begins, and the array words of the image are the words from which that run begins. The
/// strands of the code on the machine are those of that run: so what the theorem on runs says of
/// the one it says of the other.
pub fn images_begin_the_depth_first_run()
    ensures law { ImagesBeginTheRun }
    ensures shown { ImagesShowTheRun }
{}
