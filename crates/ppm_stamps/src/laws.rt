//! What stamps tell of every code and every tree, shown by calls that do nothing.
ghost use Rattle.ppm_strands.specs.Tree.{Code, Local};
ghost use Rattle.ppm_stamps.specs.Meetings.{NoneIsMissed};
ghost use Rattle.ppm_stamps.specs.Moments.{EarlierPass, EndedIsCalm, ForksAreOpened, IsPlain};
ghost use Rattle.ppm_stamps.specs.Moments.{LeftsAreOne, MetIsNotCalm, MomentsAreOne, NextIsCounted};
ghost use Rattle.ppm_stamps.specs.Moments.{TouchesAreNamed};
ghost use Rattle.ppm_stamps.specs.Stamps.{CleanIsCalm, EndsAreTold, FoundIsARace};
ghost use Rattle.ppm_stamps.specs.Within.{AreToldWithin, GoesOnAtOnce};

/// Where a depth-first run comes to its end and its stamps have shown no race, the tree is calm.
pub fn a_clean_run_is_calm<F, O>()
    ensures { (c : Code F O) → Local c → CleanIsCalm c }
{}

/// Where its stamps show a race, the tree is not calm, whether or not the run has an end.
pub fn a_found_race_is_one<F, O>()
    ensures { (c : Code F O) → Local c → FoundIsARace c }
{}

/// A run that comes to an end is told clean, or a race is found in it.
pub fn a_run_that_ends_is_told<F, O>()
    ensures { (c : Code F O) → EndsAreTold c }
{}

/// A runtime that runs a tree depth first with a stack, and stamps as it goes: where it comes to
/// the end and no capsule met anything, the tree is calm; where the next capsule meets something,
/// it is not.
pub fn moments_tell_of_calm<F, O>()
    ensures ended { (c : Code F O) → Local c → EndedIsCalm c }
    ensures met { (c : Code F O) → Local c → MetIsNotCalm c }
    ensures counted { (c : Code F O) → NextIsCounted c }
{}

/// Whom a capsule meets by the stamps of a word is an earlier capsule of the run that wrote it, or
/// touched it.
pub fn touches_are_named<F, O>()
    ensures { (c : Code F O) → TouchesAreNamed c }
{}

/// Two moments of a run at which the capsule with one number is next are one, and the capsule of an
/// earlier moment met nothing.
pub fn moments_are_one<F, O>()
    ensures one { (c : Code F O) → MomentsAreOne c }
    ensures earlier { (c : Code F O) → EarlierPass c }
{}

/// A capsule that stands beside a moment is in the left branch of one open fork. Where capsules
/// open one fork at most, the capsule before that branch opened the fork.
pub fn forks_are_named<F, O>()
    ensures one { (c : Code F O) → LeftsAreOne c }
    ensures opened { (c : Code F O) → IsPlain c → ForksAreOpened c }
{}

/// Where an earlier capsule of the run stands beside the next one, and both touch a word that one
/// of them writes, the stamps of that word show a meeting: at each moment none is missed.
pub fn no_meeting_is_missed<F, O>()
    ensures { (c : Code F O) → NoneIsMissed c }
{}

/// Where frames go on at once, each run has an answer within each number of capsules: it comes to
/// its end, or a capsule meets something, or none did so far and one more capsule is next.
pub fn runs_are_told_within<F, O>()
    ensures { (c : Code F O) → GoesOnAtOnce c → AreToldWithin c }
{}
