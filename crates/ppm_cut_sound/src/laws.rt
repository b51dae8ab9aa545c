//! What is true of the code of every admitted program, shown by calls that do nothing.
ghost use Rattle.ppm_cut_sound.specs.Correct.{CodeIsSound, MayBeStopped, StoresTidily};

/// No capsule of the code of an admitted program has a write-after-read conflict on any path:
/// `check` of `ppm_war` accepts it.
pub fn may_be_stopped()
    ensures law { MayBeStopped }
{}

/// What the code of an admitted program stores into a new block is a slot of a frame that the end
/// builds, and nothing can trap in between. The command `code` says it of what it lists.
pub fn store_tidily()
    ensures law { StoresTidily }
{}

/// The code of an admitted program that the compiler takes is sound with every input for its
/// arrays: it is tidy, each of its capsules may be stopped anywhere and begun again, and of two
/// branches of a fork, each strand of them begun from the words at its own fork, neither writes an
/// array word that the other reads or writes. So its strands may run in any order. The command
/// `code` says it of what it lists.
pub fn code_is_sound()
    ensures law { CodeIsSound }
{}
