//! What is true of strands that may race, shown by calls that do nothing.
ghost use Rattle.ppm_unseen.specs.Calm.{CalmWritesStand};
ghost use Rattle.ppm_unseen.specs.Claims.{RacingClaims};
ghost use Rattle.ppm_unseen.specs.Correct.{FaultsAreInvisibleSo};
ghost use Rattle.ppm_unseen.specs.Needed.{BlocksAreToBeFilled, FillingIsNeeded};
ghost use Rattle.ppm_unseen.specs.Needed.{OrderIsNeeded, StandingIsNeeded};
ghost use Rattle.ppm_unseen.specs.Run.{System};
ghost use Rattle.ppm_unseen.specs.Together.{EachRunHasOneWithout, RunsAreHistories};

/// Faults are invisible, though strands may race: where each capsule makes its changes before its
/// reads, keeps the same own words whatever it reads, and what is done stands in runs without
/// faults, the history of each run with faults is that of a run without, and in that run each
/// strand that is at the end of a capsule, waits, is over or isn't forked yet is where it is in the
/// other.
pub fn faults_are_invisible<A, K, E, O>()
    ensures histories { (s : System A K E O) → FaultsAreInvisibleSo s }
    ensures runs { (s : System A K E O) → EachRunHasOneWithout s }
{}

/// A history is that of a run of all strands together, in which one after another makes a step.
pub fn runs_are_histories<A, K, E, O>()
    ensures with_faults { (s : System A K E O) → RunsAreHistories s (Unit {0}) }
    ensures without { (s : System A K E O) → RunsAreHistories s ⊥ }
{}

/// What is done stands if writes are calm: no strand changes a word that the capsule of another
/// one, under way, has asked to change. Each capsule changes no word twice, and each change made
/// twice is as made once, as a put or an exchange is; a sum isn't. Reads may race.
pub fn calm_writes_stand<A, K, E, O>()
    ensures { (s : System A K E O) → CalmWritesStand s }
{}

/// Each of the three conditions is needed, and both halves of the second one: in a small system that
/// meets the others, a run with faults has a history that no run without faults has.
pub fn each_condition_is_needed()
    ensures order { OrderIsNeeded }
    ensures filling { FillingIsNeeded }
    ensures blocks { BlocksAreToBeFilled }
    ensures standing { StandingIsNeeded }
{}

/// The three conditions can be met by strands that race: the branches of a fork all exchange a word
/// from 0, either one may be first, and faults are invisible.
pub fn racing_claims_are_restartable()
    ensures { RacingClaims }
{}
