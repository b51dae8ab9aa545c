//! The rules that a line of a saved text keeps beside its form.
ghost use Rattle.std.specs.Prelude.{◌≡◌, ◌≤◌, ◌^◌, ◌<◌, ◌+◌, length};
ghost use Rattle.std.specs.List.{sum};
ghost use Rattle.ppm_saved.specs.Names.{lengths_of};
ghost use Rattle.ppm_saved_reader.specs.Rules.{is_from_to as from_to, sizes_fit as fit};
ghost use Rattle.ppm_saved_reader.specs.Rules.{is_twice as twice, is_past as past};
ghost use Rattle.ppm_saved_reader.specs.Rules.{do_pools_fit as pools};
ghost use Rattle.ppm_saved_reader.specs.Rules.{is_other_count as other_count};

use crate::first_run::first_run;
use crate::lines::Sizes;
use ppm_pieces::{same_bytes, split_once};
use ppm_saved::NamedLength;
use ppm_words::{ARRAY_LIMIT, PROCESSOR_LIMIT, WORD_LIMIT};

/// The words of all pools together of a machine that may be stopped.
const MOST_SAVED_POOL_WORDS: u64 = 4_194_304;

/// Whether a number is from one to another.
fn is_from_to(least: u64, most: u64, n: u64) -> bool
    ensures { result ≡ from_to least most n }
{
    least <= n && n <= most
}

/// Whether so many processors may have pools of so many words.
fn do_pools_fit(processors: u64, room: u64) -> bool
    ensures { result ≡ pools processors room }
{
    match processors.checked_mul(room) {
        Some(words) => words <= MOST_SAVED_POOL_WORDS,
        None => false,
    }
}

/// Whether a machine of these sizes may be stopped.
pub(crate) fn sizes_fit(sizes: Sizes) -> bool
    ensures { result ≡ fit sizes }
{
    is_from_to(1, u64::from(PROCESSOR_LIMIT), sizes.processors)
        && (is_from_to(64, MOST_SAVED_POOL_WORDS, sizes.room)
            && (is_from_to(2, 4096, sizes.slots) && do_pools_fit(sizes.processors, sizes.room)))
}

/// Whether an array has this name.
pub(crate) fn is_twice(arrays: &[NamedLength], name: &[u8]) -> bool
    ensures { result ≡ twice arrays.now name.now }
{
    let mut left = arrays;
    while let [array, rest @ ..] = left {
        if same_bytes(array.name.as_bytes(), name) {
            return true;
        }
        left = rest;
    }
    false
}

/// Whether an array of so many words is one too many after others of so many words in all, or one
/// with too many words.
pub(crate) fn is_past(arrays: &[NamedLength], words: u64, len: u64) -> bool
    requires words { words ≡ sum (lengths_of arrays.now) }
    requires few { words < 2 ^ 32 }
    ensures { result ≡ past arrays.now len }
{
    if arrays.len() >= ARRAY_LIMIT {
        return true;
    }
    if len > u64::from(WORD_LIMIT) {
        return true;
    }
    words + len > u64::from(WORD_LIMIT)
}

/// Whether lines have another number of words than this: more in front, or fewer in all.
pub(crate) fn is_other_count(count: u64, text: &[u8]) -> bool
    ensures { result ≡ other_count count text.now }
{
    let mut left = text;
    let mut rest_count = count;
    while let Some(((_, times), rest)) = first_run(left) {
        if times > rest_count {
            return true;
        }
        rest_count -= times;
        left = rest;
    }
    // A line that is no run ends the count.
    match split_once(left, b'\n') {
        Some(_) => false,
        None => rest_count > 0,
    }
}
