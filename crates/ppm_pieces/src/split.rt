//! Cuts bytes at a separator.
ghost use Rattle.std.specs.Prelude.{◌≡◌, ◌∷◌, [], ◌<◌, length, MatchOption, not, ◌==◌, ◌≤◌};
ghost use Rattle.std.specs.Prelude.{Some, None};
ghost use Rattle.std.specs.List.{prefix_len};
ghost use Rattle.ppm_pieces.specs.Pieces.{split, halves_of};

use crate::bytes::behind;

/// How many bytes stand in front of the first separator.
#[tactic(auto, using(crate::proofs::PieceLemmas::prefix_le))]
fn front_len(bytes: &[u8], separator: u8) -> usize
    ensures len { result ≡ prefix_len (λ b. not (b == separator)) bytes.now }
    ensures within { result ≤ length bytes.now }
{
    bytes.iter().take_while(|b| !(**b == separator)).count()
}

/// The bytes in front of the first separator, and those after it.
pub fn split_once(bytes: &[u8], separator: u8) -> Option<(&[u8], &[u8])>
    ensures halves { MatchOption result
        (halves_of separator bytes.now ≡ None)
        (λ p. halves_of separator bytes.now ≡ Some (p.0.now, p.1.now)) }
    ensures pieces { MatchOption result
        (split separator bytes.now ≡ bytes.now ∷ [])
        (λ p. split separator bytes.now ≡ p.0.now ∷ split separator p.1.now) }
    ensures shorter { MatchOption result (Unit {0}) (λ p. length p.1.now < length bytes.now) }
{
    let len = front_len(bytes, separator);
    if len < bytes.len() {
        Some((&bytes[..len], behind(bytes, len + 1)))
    } else {
        None
    }
}
