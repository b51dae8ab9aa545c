//! What is true of the code of every RAM, shown by calls that do nothing.
ghost use Rattle.ppm_ram_code.specs.Correct.{CodeEndsAsRam, CodeIsSound, CodeKeepsRules};

/// The code of a RAM keeps all rules of a code, and none of its capsules asks for room; the memory
/// with which the RAM begins is an input of it.
pub fn keeps_the_rules()
    ensures law { CodeKeepsRules }
{}

/// The code of a RAM is sound with every memory: it is tidy, each of its capsules may be stopped
/// anywhere and begun again, and there are no branches that could race.
pub fn is_sound()
    ensures law { CodeIsSound }
{}

/// Run depth first from any memory, the code of a RAM ends exactly where the RAM ends, with the same
/// memory or trap. It runs a capsule for each step, and takes no words of the pools but those of
/// the root's frame.
pub fn ends_as_the_ram()
    ensures law { CodeEndsAsRam }
{}
