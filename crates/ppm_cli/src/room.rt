//! The words of a place's pool, as the words give them.
ghost use Rattle.std.specs.Prelude.{◌≡◌, ◌*◌, IfSome, nat_le};
ghost use Rattle.clap.specs.Words.{found_of, rows_of};
ghost use Rattle.ppm_cells.specs.Limits.{most_saved_pool_words};
ghost use Rattle.ppm_cli.specs.Application.{number_rule};
ghost use Rattle.ppm_cli.specs.Words.{DoPoolsFit, DoSavedPoolsFit, IsOfForm};
ghost use Rattle.ppm_cli.specs.Values.{fitting_room, fitting_saved_room};
ghost use Rattle.ppm_cli.specs.Values.{room_given, saved_room_given};

use crate::getters::number_of;
use crate::table::{MOST_WRITTEN_WORDS, NumberOption};
use clap::ArgMatches;
use ppm_cells::pools_fit;

/// How many words the pool of each of so many places has, if the matches name a number in its range
/// and all these pools fit.
pub(crate) fn room_of(
    matches: &ArgMatches<'_>,
    option: NumberOption,
    processors: u32,
) -> Option<u32>
    ensures value { result
        ≡ room_given (number_rule option) processors (rows_of (found_of matches.now)) }
    ensures in_range { IfSome result
        (λ words. IsOfForm (number_rule option).form words × DoPoolsFit processors words) }
{
    let words = number_of(matches, option)?;
    fitting(processors, words)
}

/// The words, if so many processors may have pools of so many.
fn fitting(processors: u32, words: u32) -> Option<u32>
    ensures value { result ≡ fitting_room processors words }
    ensures in_range { IfSome result (λ n. (n ≡ words) × DoPoolsFit processors n) }
{
    if pools_fit(processors, words) {
        Some(words)
    } else {
        None
    }
}

/// How many words the pool of each of so many places has where all words are written out, if the
/// matches name a number in its range and all these pools fit there.
pub(crate) fn saved_room_of(
    matches: &ArgMatches<'_>,
    option: NumberOption,
    processors: u32,
) -> Option<u32>
    ensures value { result
        ≡ saved_room_given (number_rule option) processors (rows_of (found_of matches.now)) }
    ensures in_range { IfSome result
        (λ words. IsOfForm (number_rule option).form words × DoSavedPoolsFit processors words) }
{
    let words = number_of(matches, option)?;
    fitting_saved(processors, words)
}

/// Whether so many processors may have pools of so many words where all words are written out.
fn saved_pools_fit(processors: u32, words: u32) -> bool
    ensures { result ≡ nat_le (processors * words) most_saved_pool_words }
{
    u64::from(processors) * u64::from(words) <= u64::from(MOST_WRITTEN_WORDS)
}

/// The words, if so many processors may have pools of so many where all words are written out.
fn fitting_saved(processors: u32, words: u32) -> Option<u32>
    ensures value { result ≡ fitting_saved_room processors words }
    ensures in_range { IfSome result (λ n. (n ≡ words) × DoSavedPoolsFit processors n) }
{
    if saved_pools_fit(processors, words) {
        Some(words)
    } else {
        None
    }
}
