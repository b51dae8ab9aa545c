//! Small capsules with one register, run with stops: a stop loses the register and keeps the words.

ghost use Rattle.std.specs.Prelude.{◌≡◌};
ghost use Rattle.ppm_strands.specs.Capsule.{store, whole as model_whole};
ghost use Rattle.ppm_strands.specs.Equalities.{numbers};
ghost use Rattle.ppm_test_laws.specs.Sample.{address, words_of};
ghost use Rattle.ppm_test_laws.specs.Stops.{StopsDoNotShow, capsule_of, seen_of, with_stops};
ghost use Rattle.ppm_test_laws.specs.Stops.{words_after};

use crate::sample::{Word, index};
use ppm_strands::conflict_free_is_idempotent;

/// An instruction: the first two are word steps, the last is work on the register, which is 0 at
/// the beginning.
#[derive(Clone, Copy, Debug, PartialEq, Eq)]
pub enum Ask {
    Load(Word),
    Store(Word),
    /// Past 255 the register begins from 0 again.
    Add(u8),
}

/// The register at the end of a capsule, and the words then.
#[derive(Clone, Copy, Debug, PartialEq, Eq)]
pub struct Run {
    pub end: u8,
    pub words: [u8; 4],
}

/// The word that is found.
fn found(word: Word, words: [u8; 4]) -> u8
    ensures value { result ≡ words_of words (address word) }
{
    words[index(word)]
}

/// The words with one stored.
fn stored(word: Word, value: u8, words: [u8; 4]) -> [u8; 4]
    ensures value { words_of result ≡ store numbers (words_of words) (address word) value }
{
    let mut after = words;
    after[index(word)] = value;
    after
}

/// Runs what is left of a capsule to its end.
fn run_whole(rest: &[Ask], register: u8, words: [u8; 4]) -> Run
    ensures whole { seen_of result
        ≡ model_whole numbers (capsule_of rest.now register) (words_of words) }
{
    match rest {
        [] => Run {
            end: register,
            words,
        },
        [Ask::Load(word), rest @ ..] => run_whole(rest, found(*word, words), words),
        [Ask::Store(word), rest @ ..] => run_whole(rest, register, stored(*word, register, words)),
        [Ask::Add(more), rest @ ..] => run_whole(rest, register.wrapping_add(*more), words),
    }
}

/// Runs what is left of a capsule for so many word steps, or to its end: the words then.
fn run_until(rest: &[Ask], steps: u8, register: u8, words: [u8; 4]) -> [u8; 4]
    ensures stopped { words_of result ≡ words_after steps rest.now register words }
{
    match rest {
        [] => words,
        [Ask::Load(word), rest @ ..] => {
            if steps == 0 {
                return words;
            }
            run_until(rest, steps - 1, found(*word, words), words)
        }
        [Ask::Store(word), rest @ ..] => {
            if steps == 0 {
                return words;
            }
            run_until(rest, steps - 1, register, stored(*word, register, words))
        }
        [Ask::Add(more), rest @ ..] => run_until(rest, steps, register.wrapping_add(*more), words),
    }
}

/// Runs a capsule with stops: begun, stopped after as many word steps as the list says next, begun
/// again on the words as they then are, and at last run whole.
pub fn run_with_stops(capsule: &[Ask], stops: &[u8], words: [u8; 4]) -> Run
    ensures stopped { seen_of result ≡ with_stops capsule.now stops.now words }
{
    match stops {
        [] => run_whole(capsule, 0, words),
        [steps, rest @ ..] => run_with_stops(capsule, rest, run_until(capsule, *steps, 0, words)),
    }
}

/// Of a capsule that has no conflict from these words the stops do not show: the law at these
/// capsules, by its contract alone.
pub fn stops_do_not_show()
    ensures { StopsDoNotShow }
{
    conflict_free_is_idempotent::<u8, u8>();
}
