//! What is true of the stores of every end, shown by calls that do nothing.
ghost use Rattle.ppm_ends.specs.Beside.{BesideKeepsWithStores};
ghost use Rattle.ppm_ends.specs.Ends.{EndsSplit, MayBeginAgainWithStores, StoresAreUnseen};
ghost use Rattle.ppm_ends.specs.Sample.{ForkIsShown};
ghost use Rattle.ppm_ends.specs.Shown.{EndsShow};
ghost use Rattle.ppm_ends.specs.Whole.{CapsulesShow};

/// The stores of an end are those into its new block, and after them one into the frame's own
/// header or outcome, if any.
pub fn ends_split()
    ensures law { EndsSplit }
{}

/// Those into the new block are unseen: with them after its capsules the table of a code is the
/// same code.
pub fn stores_are_unseen()
    ensures law { StoresAreUnseen }
{}

/// A capsule that may be begun again may be with these stores after it.
pub fn long_capsules_may_begin_again()
    ensures law { MayBeginAgainWithStores }
{}

/// What a strand's capsule has done stands while a strand beside it stores, though the stores of
/// their ends are those of two homes, so that no one table has both.
pub fn beside_keeps_with_stores()
    ensures law { BesideKeepsWithStores }
{}

/// Where the words are those of a frame and of a new block apart from it, whose target words are 0,
/// they show the tree that the end opens once its stores are made.
pub fn ends_show()
    ensures law { EndsShow }
{}

/// From a frame with 0 after its slots, by a whole capsule of a tidy code, the words come to show
/// the tree that comes next.
pub fn capsules_show()
    ensures law { CapsulesShow }
{}

/// An instance: a fork of two procedures with two slots and with one, in words that were all 7.
pub fn fork_is_shown()
    ensures law { ForkIsShown }
{}
