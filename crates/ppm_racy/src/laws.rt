//! What is true of codes that may race, shown by calls that do nothing.
ghost use Rattle.ppm_racy.specs.Correct.{FaultsOfRacyPathsAreInvisible, PlainCodesRaceAsBefore};
ghost use Rattle.ppm_racy.specs.Correct.{RacyPathsAreFilled};

/// A code without exchanges has the strands that it has in `ppm_filled`: one system, from whatever
/// words it begins.
pub fn plain_codes_race_as_before()
    ensures { PlainCodesRaceAsBefore }
{}

/// Where with puts in place of exchanges no path has a conflict and each is filled, the capsules of
/// a code are ordered and filled, and its faults are invisible if what its capsules do stands in
/// each run without faults.
pub fn faults_of_racy_paths_are_invisible()
    ensures filled { RacyPathsAreFilled }
    ensures invisible { FaultsOfRacyPathsAreInvisible }
{
    ppm_filled::filled_paths_are_filled();
}
