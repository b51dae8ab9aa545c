//! Trees of the small instance that race, and trees that do not: what the laws of strands say of
//! them.

ghost use Rattle.ppm_test_laws.specs.Races.{ApartByRegions, ApartIsCalm, NoEndBeside};
ghost use Rattle.ppm_test_laws.specs.Races.{RacesAreNotCalm};
ghost use Rattle.ppm_test_laws.specs.Races.{RacesBesideNoEndAreNotCalm, RacesEndOtherwise};
ghost use Rattle.ppm_test_laws.specs.Races.{RacesLoseTheLaw};
ghost use Rattle.ppm_test_laws.specs.Races.{SamplesAreLocal, TablesRunInAnyOrder};

use crate::sample::Outcome;
use ppm_strands::{any_order, calm_by_listed_regions};

/// Branches that race are not calm, and a capsule made ahead may then change the end. They are not
/// calm either where the race stands after or beside a branch without end, in trees that
/// themselves have none. Branches that keep apart are calm.
pub fn races_are_not_calm()
    ensures race { RacesAreNotCalm }
    ensures beside_no_end { RacesBesideNoEndAreNotCalm }
    ensures no_end { NoEndBeside }
    ensures law_is_lost { RacesLoseTheLaw }
    ensures ends_otherwise { RacesEndOtherwise }
    ensures apart { ApartIsCalm }
    ensures by_regions { ApartByRegions }
{}

/// What a capsule of a table does depends on the word that it reads, so the laws hold of
/// each table.
pub fn samples_are_local()
    ensures { SamplesAreLocal }
{}

/// The strands of a table's trees may run in any order, where these trees are calm: the law at an
/// instance, by its contract alone.
pub fn tables_run_in_any_order()
    ensures { TablesRunInAnyOrder }
{
    samples_are_local();
    any_order::<u8, Outcome>();
}

/// A fork whose branches keep apart and the strand that makes it are calm by the law of regions, by
/// its contract alone.
pub fn apart_trees_are_calm()
    ensures { ApartIsCalm }
{
    races_are_not_calm();
    calm_by_listed_regions::<u8, Outcome>();
}
