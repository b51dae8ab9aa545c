//! Listings that are tried turn by turn and on threads, and their array of four words.
ghost use Rattle.std.specs.Prelude.{◌≡◌, ◌<◌, ◌↔◌, IfOk, IsTrue, length};
ghost use Rattle.std.specs.List.{All};
ghost use Rattle.ppm_words.specs.Inputs.{value_count};

use ppm_code::Code;
use ppm_listing_reader::read_listing;
use ppm_words::{Input, Items, Name, NamedArray};
use std::alloc::Global;
use std::test::Fail;

/// Cuts its array after the first element, and puts 1 and 2 into the first elements of the parts,
/// side by side.
pub const FORK: &str = "ppm 1\nroot 0 0\nproc 0 slots 1 entry 0\nproc 1 slots 2 entry 2\n\
capsule 0 proc 0\nroom 21\nloadslot r0 0\nconst r1 1\nconst r2 2\ncutl r3 r0 r1 1\ncutr r4 r0 r1 1\n\
storenew 11 r3\nstorenew 12 r1\nstorenew 19 r4\nstorenew 20 r2\nfork 1 1 1\ncapsule 1 proc 0\nend\n\
capsule 2 proc 1\nloadslot r0 0\nconst r1 0\nloadslot r2 1\nput r0 r1 r2 1\nend\n";

/// The words of the array with which it begins.
pub const FORKED: [i64; 4] = [0, 0, 7, 4];

/// Adds up its array in a tree of forks, by a call: the first word of each part becomes its sum.
pub const SUM: &str = "ppm 1\nroot 0 0\nproc 0 slots 1 entry 0\nproc 1 slots 5 entry 2\n\
capsule 0 proc 0\nroom 11\nloadslot r0 0\nstorenew 6 r0\ncall 1 1\ncapsule 1 proc 0\nend\n\
capsule 2 proc 1\nloadslot r0 0\nlen r1 r0\nconst r2 1\nlt r3 r2 r1\nbranchz r3 6\nnext 3\nend\n\
capsule 3 proc 1\nloadslot r0 0\nlen r1 r0\nconst r2 2\ndiv r1 r1 r2 1\ncutl r3 r0 r1 1\ncutr r4 r0 r1 1\n\
storecur 1 r3\nstorecur 2 r4\nnext 4\n\
capsule 4 proc 1\nroom 27\nloadslot r0 1\nloadslot r1 2\nstorenew 11 r0\nstorenew 22 r1\nfork 1 1 5\n\
capsule 5 proc 1\nloadslot r0 1\nloadslot r1 2\nconst r2 0\nget r3 r0 r2 1\nget r4 r1 r2 1\nadd r3 r3 r4 1\n\
storecur 3 r3\nnext 6\n\
capsule 6 proc 1\nloadslot r0 1\nconst r1 0\nloadslot r2 3\nput r0 r1 r2 1\nend\n";

/// Whether a code's root names the first array alone.
fn names_first(code: &Code) -> bool
    ensures { IsTrue result ↔ All (λ array. array < 1) code.now.arrays }
{
    code.parts()
        .arrays
        .as_slice()
        .iter()
        .all(|array| *array < 1)
}

/// The code of a listing, if its root names the first array alone.
pub fn code_of(alloc: Global, listing: &str) -> Result<Code, Fail>
    ensures { IfOk result (λ code. All (λ array. array < 1) code.arrays) }
{
    let code = read_listing(alloc, listing.as_bytes()).map_err(|_| "no listing")?;
    if !names_first(&code) {
        return Err("another root")?;
    }
    Ok(code)
}

/// An array of four words.
pub fn four_words(alloc: Global, words: [i64; 4]) -> Result<Input, Fail>
    ensures one { IfOk result (λ input. length input ≡ 1) }
    ensures four { IfOk result (λ input. value_count input ≡ 4) }
{
    let array = NamedArray {
        name: Name::from_bytes(vec![in alloc; b'a']?),
        values: Items::from_vec(vec![in alloc; words[0], words[1], words[2], words[3]]?),
    };
    Ok(Input::from_vec(vec![in alloc; array]?))
}
