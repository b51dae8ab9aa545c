//! What the pools of a machine have given out.
ghost use Rattle.std.specs.Prelude.{◌≡◌, ◌<◌};
ghost use Rattle.ppm_cells.specs.Memory.{AreWordsOf};
ghost use Rattle.ppm_following.specs.Room.{given_by as given, larger, most_given as most};

use ppm_cells::{Cell, Shape};

/// How many words the pool of a place has given out.
fn given_by(shape: Shape, words: &[u64], place: u32) -> u64
    requires words { AreWordsOf shape words.now }
    requires place { place < shape.processors }
    ensures { result ≡ given shape words.now place }
{
    let at = shape.address(Cell::RoomCounter { place });
    words[at as usize].saturating_sub(u64::from(shape.pool_at(place)))
}

/// The larger of two numbers.
fn larger(a: u64, b: u64) -> u64
    ensures { result ≡ larger a b }
{
    if a < b { b } else { a }
}

/// The most that a pool has given out.
pub(crate) fn most_given(shape: Shape, words: &[u64]) -> u64
    requires { AreWordsOf shape words.now }
    ensures { result ≡ most shape words.now shape.processors }
{
    let mut most = 0;
    let mut place = 0;
    while place < shape.processors {
        most = larger(most, given_by(shape, words, place));
        place += 1;
    }
    most
}
