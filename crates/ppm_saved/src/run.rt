//! Runs of equal words.
ghost use Rattle.std.specs.Prelude.{◌≡◌, ◌∷◌, [], ◌<◌, ◌≤◌, ◌==◌, length, MatchOption};
ghost use Rattle.std.specs.List.{prefix_len};
ghost use Rattle.ppm_saved.specs.Runs.{runs_of};

use ppm_pieces::behind;

/// A word, and how often it stands in a row: once at least.
#[derive(Clone, Copy, Debug, PartialEq, Eq)]
pub struct Run {
    pub word: u64,
    pub times: u64,
}

/// How many words are the same as this one, before another comes.
#[tactic(auto, using(crate::proofs::RunLemmas::prefix_le))]
fn front_len(words: &[u64], word: u64) -> usize
    ensures len { result ≡ prefix_len (λ w. w == word) words.now }
    ensures within { result ≤ length words.now }
{
    words.iter().take_while(|w| **w == word).count()
}

/// The first of the longest runs of words, and the words after it; `None` where there are none.
pub(crate) fn first_run(words: &[u64]) -> Option<(Run, &[u64])>
    ensures runs { MatchOption result
        (words.now ≡ [])
        (λ p. runs_of words.now ≡ p.0 ∷ runs_of p.1.now) }
    ensures shorter { MatchOption result (Unit {0}) (λ p. length p.1.now < length words.now) }
{
    match words {
        [] => None,
        [word, rest @ ..] => {
            let more = front_len(rest, *word);
            let run = Run {
                word: *word,
                times: 1 + more as u64,
            };
            Some((run, behind(rest, more)))
        }
    }
}
