//! What is taken over of a processor that stopped for ever, as the words give it.
ghost use Rattle.std.specs.Prelude.{◌≡◌};
ghost use Rattle.clap.specs.Words.{found_of, rows_of};
ghost use Rattle.ppm_cli.specs.Values.{swept_takeovers_given, takeover_given};

use crate::getters::choice_of;
use crate::table::{SWEPT_TAKEOVERS, TAKEOVER};
use clap::ArgMatches;
use ppm_cells::Takeover;

/// Under which takeovers a sweep has its runs.
#[derive(Clone, Copy, Debug, PartialEq, Eq)]
pub enum SweptTakeovers {
    /// A living processor carries the place on.
    ByPlaces,
    /// The place is closed, and is robbed through its deque.
    ByEntries,
    /// All runs are made with the first, and then with the second.
    Both,
}

/// What is taken over, if the matches name it by one of the two words: `place` or `entry`.
pub(crate) fn takeover_of(matches: &ArgMatches<'_>) -> Option<Takeover>
    ensures { result ≡ takeover_given (rows_of (found_of matches.now)) }
{
    choice_of(
        matches,
        TAKEOVER,
        &[Takeover::ByPlaces, Takeover::ByEntries],
    )
}

/// Under which takeovers a sweep has its runs, if the matches name them by one of the three words:
/// `place`, `entry` or `both`.
pub(crate) fn swept_takeovers_of(matches: &ArgMatches<'_>) -> Option<SweptTakeovers>
    ensures { result ≡ swept_takeovers_given (rows_of (found_of matches.now)) }
{
    choice_of(
        matches,
        SWEPT_TAKEOVERS,
        &[
            SweptTakeovers::ByPlaces,
            SweptTakeovers::ByEntries,
            SweptTakeovers::Both,
        ],
    )
}
