//! What is true of the capsules of code, shown by calls that do nothing.
ghost use Rattle.std.specs.Prelude.{ℕ, List};
ghost use Rattle.ppm_strands.specs.Capsule.{Memory};
ghost use Rattle.ppm_code.specs.Locations.{Where};
ghost use Rattle.ppm_code.specs.Paths.{ActsFollow, HasNoConflict};
ghost use Rattle.ppm_code.specs.RunAgain.{MayRunAgain, PathsDecide};
ghost use Rattle.ppm_code.specs.Strands.{CapsulesMayBeginAgain};
ghost use Rattle.ppm_code.specs.declared.instr.Instr.{Instr};

/// What an instruction does is what it may do, whatever the registers hold.
pub fn acts_follow()
    ensures { ActsFollow }
{}

/// Instructions without a write-after-read conflict on any path make a capsule without one,
/// whatever the registers hold: stopped anywhere and begun again, any number of times, it comes to
/// the same end with the same words.
pub fn no_conflict_on_paths()
    ensures paths { PathsDecide }
    ensures again { (array_words : ℕ) (is : List Instr) (m : Memory Where)
        → HasNoConflict is → MayRunAgain array_words is m }
{}

/// The capsules of a code without conflicts on their paths may be begun again, from any words: they
/// are those of a table of capsules, whose laws then hold of the code.
pub fn capsules_may_begin_again()
    ensures { CapsulesMayBeginAgain }
{}
