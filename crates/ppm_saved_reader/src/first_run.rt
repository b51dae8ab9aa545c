//! The run that the first line of a text says. A line of a word alone is read byte by byte.
ghost use Rattle.std.specs.Prelude.{◌≡◌, ◌<◌, length, Some, None, IfSome, MatchOption};
ghost use Rattle.ppm_saved_reader.specs.Lines.{first_line, run_in as run};

use crate::lines::run_in;
use ppm_pieces::{is_digit, split_once};

/// Words below this one have 64 bits with one digit more, whatever byte that is.
const TENTH: u64 = 1_844_674_407_370_955_141;

/// The word of a first line that is a number above 0 and not among the last ones of 64 bits, and the text after it.
#[inline(always)]
fn plain_line(text: &[u8]) -> Option<(u64, &[u8])>
    ensures { IfSome result (λ p. first_line run text.now ≡ Some ((Some p.0, 1), p.1.now)) }
{
    let mut word: u64 = 0;
    let mut left = text;
    while let [byte, rest @ ..] = left {
        if *byte == b'\n' {
            if word > 0 {
                return Some((word, rest));
            }
            return None;
        }
        if !is_digit(*byte) {
            return None;
        }
        if word >= TENTH {
            return None;
        }
        word = word * 10 + u64::from(byte.saturating_sub(b'0'));
        // A zero in front.
        if word == 0 {
            return None;
        }
        left = rest;
    }
    None
}

/// The run of any first line, and the text after it.
#[inline(never)]
fn any_line(text: &[u8]) -> Option<((Option<u64>, u64), &[u8])>
    ensures says { MatchOption result
        (first_line run text.now ≡ None)
        (λ p. first_line run text.now ≡ Some (p.0, p.1.now)) }
    ensures shorter { MatchOption result (Unit {0}) (λ p. length p.1.now < length text.now) }
{
    match split_once(text, b'\n') {
        Some((line, rest)) => match run_in(line) {
            Some(said) => Some((said, rest)),
            None => None,
        },
        None => None,
    }
}

/// The run that the first line of a text says: its word, if that has 64 bits, and how often it
/// stands there; and the text after that line.
#[inline(always)]
pub(crate) fn first_run(text: &[u8]) -> Option<((Option<u64>, u64), &[u8])>
    ensures says { MatchOption result
        (first_line run text.now ≡ None)
        (λ p. first_line run text.now ≡ Some (p.0, p.1.now)) }
    ensures shorter { MatchOption result (Unit {0}) (λ p. length p.1.now < length text.now) }
{
    match plain_line(text) {
        Some((word, rest)) => Some(((Some(word), 1), rest)),
        None => any_line(text),
    }
}
