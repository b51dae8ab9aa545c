//! What is true of every image, shown by calls that do nothing.
ghost use Rattle.ppm_layout.specs.Correct.{WordsStandForValues, ImagesBeginWithRoot, ImagesAreOne};

/// Each word of an image stands for its value: no finish, the root's frame to be run at the
/// keeper's place, work to be looked for at all others, each place held by its own processor, and
/// each deque with one local entry.
pub fn words_stand_for_values()
    ensures law { WordsStandForValues }
{}

/// An image begins with the root's strand: where the keeper's restart word leads, the words show
/// the frame with which a run of the code begins, with the regions of its arrays, in the pool and
/// in front of the room counter.
pub fn images_begin_with_the_root()
    ensures law { ImagesBeginWithRoot }
{}

/// A code, an input, a shape and a keeper have one image.
pub fn images_are_one()
    ensures law { ImagesAreOne }
{}
