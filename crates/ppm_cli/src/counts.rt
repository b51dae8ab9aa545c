//! Whether what is counted in a run is told, as the words give it.
ghost use Rattle.std.specs.Prelude.{◌≡◌};
ghost use Rattle.clap.specs.Words.{found_of, rows_of};
ghost use Rattle.ppm_cli.specs.Values.{are_counts_given};

use crate::getters::choice_of;
use crate::table::COUNTS;
use clap::ArgMatches;

/// Whether the counts are told, if the matches say so by one of the two words: `no` or `yes`.
pub(crate) fn are_counted(matches: &ArgMatches<'_>) -> Option<bool>
    ensures { result ≡ are_counts_given (rows_of (found_of matches.now)) }
{
    choice_of(matches, COUNTS, &[false, true])
}
