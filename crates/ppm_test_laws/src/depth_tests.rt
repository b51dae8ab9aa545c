//! Listings that are run depth first from one array of four values.
ghost use Rattle.std.specs.Prelude.{◌≡◌, ◌↔◌, ◌<◌, IfOk, IfSome, IsTrue, length};
ghost use Rattle.std.specs.List.{All};
ghost use Rattle.ppm_code.specs.Tidy.{IsTidy};

use ppm_code::Code;
use ppm_depth::{DepthRun, depth_first, orders_come_to_one_end, runs_are_there};
use ppm_listing_reader::read_listing;
use ppm_war::tidy;
use ppm_words::{Input, Items, Name, NamedArray, Outcome, Trap};
use std::alloc::Global;
use std::process::Abort;
use std::test::Fail;

/// By a[0] the root does a loop (0), a call (1), a fork (2), or asks for a block and then traps.
/// The procedure for i makes a[3] twice itself and i, and gives 12 / a[i] once 2 * a[i] fits; both
/// values of the fork go into one slot, so that the right one is left.
const CHOOSING: &str = "ppm 1\nroot 0 0\nproc 0 slots 3 entry 0\nproc 1 slots 2 entry 6\n\
capsule 0 proc 0\nloadslot r0 0\nget r2 r0 r1 1\nbranchz r2 9\nconst r3 1\nsub r2 r2 r3 1\nbranchz r2 10\n\
sub r2 r2 r3 1\nbranchz r2 11\nnext 7\nnext 1\nnext 3\nnext 5\n\
capsule 1 proc 0\nloadslot r0 1\nconst r1 1\nadd r0 r0 r1 2\nstorecur 2 r0\nnext 2\n\
capsule 2 proc 0\nloadslot r0 2\nstorecur 1 r0\nconst r1 3\nlt r2 r0 r1\nbranchz r2 6\nnext 1\nend\n\
capsule 3 proc 0\nroom 8\nloadslot r0 0\nstorenew 6 r0\nconst r1 1\nstorenew 7 r1\ncallto 1 4 2\n\
capsule 4 proc 0\nloadslot r0 0\nloadslot r2 2\nput r0 r1 r2 4\nend\n\
capsule 5 proc 0\nroom 21\nloadslot r0 0\nstorenew 11 r0\nstorenew 19 r0\nconst r1 1\nstorenew 12 r1\n\
const r1 2\nstorenew 20 r1\nforkto 1 1 4 2 2\n\
capsule 6 proc 1\nloadslot r0 0\nloadslot r1 1\nconst r2 3\nget r3 r0 r2 8\nadd r3 r3 r3 8\nadd r3 r3 r1 8\n\
put r0 r2 r3 8\nget r4 r0 r1 9\nadd r2 r4 r4 10\nconst r5 12\ndiv r5 r5 r4 11\ngive r5\nend\n\
capsule 7 proc 0\nroom 8\nconst r0 1\ndiv r0 r0 r1 7\ncall 1 4\n";

/// Forks a procedure for a[0] and one for the rest, which put 1 and 2 there: examples/fork.listing.
const FORKING: &str = "ppm 1\nroot 0 0\nproc 0 slots 1 entry 0\nproc 1 slots 2 entry 2\n\
capsule 0 proc 0\nroom 21\nloadslot r0 0\nconst r1 1\nconst r2 2\ncutl r3 r0 r1 1\ncutr r4 r0 r1 1\n\
storenew 11 r3\nstorenew 12 r1\nstorenew 19 r4\nstorenew 20 r2\nfork 1 1 1\ncapsule 1 proc 0\nend\n\
capsule 2 proc 1\nloadslot r0 0\nconst r1 0\nloadslot r2 1\nput r0 r1 r2 1\nend\n";

/// Adds up the array in a tree of forks: the first value of each part becomes its sum.
const SUMMING: &str = "ppm 1\nroot 0 0\nproc 0 slots 1 entry 0\nproc 1 slots 5 entry 2\n\
capsule 0 proc 0\nroom 11\nloadslot r0 0\nstorenew 6 r0\ncall 1 1\ncapsule 1 proc 0\nend\n\
capsule 2 proc 1\nloadslot r0 0\nlen r1 r0\nconst r2 1\nlt r3 r2 r1\nbranchz r3 6\nnext 3\nend\n\
capsule 3 proc 1\nloadslot r0 0\nlen r1 r0\nconst r2 2\ndiv r1 r1 r2 1\ncutl r3 r0 r1 1\ncutr r4 r0 r1 1\n\
storecur 1 r3\nstorecur 2 r4\nnext 4\n\
capsule 4 proc 1\nroom 27\nloadslot r0 1\nloadslot r1 2\nstorenew 11 r0\nstorenew 22 r1\nfork 1 1 5\n\
capsule 5 proc 1\nloadslot r0 1\nloadslot r1 2\nconst r2 0\nget r3 r0 r2 1\nget r4 r1 r2 1\nadd r3 r3 r4 1\n\
storecur 3 r3\nnext 6\n\
capsule 6 proc 1\nloadslot r0 1\nconst r1 0\nloadslot r2 3\nput r0 r1 r2 1\nend\n";

/// Calls itself 100 deep, and adds 1 to a[0] each time.
const CALLING: &str = "ppm 1\nroot 0 0\nproc 0 slots 1 entry 0\nproc 1 slots 4 entry 2\n\
capsule 0 proc 0\nroom 10\nloadslot r0 0\nstorenew 6 r0\nconst r1 100\nstorenew 7 r1\ncall 1 1\n\
capsule 1 proc 0\nend\ncapsule 2 proc 1\nloadslot r0 1\nbranchz r0 3\nnext 3\nend\n\
capsule 3 proc 1\nloadslot r0 0\nconst r1 0\nget r2 r0 r1 1\nconst r3 1\nadd r2 r2 r3 1\nstorecur 2 r2\n\
loadslot r4 1\nsub r4 r4 r3 1\nstorecur 3 r4\nnext 4\n\
capsule 4 proc 1\nloadslot r0 0\nconst r1 0\nloadslot r2 2\nput r0 r1 r2 1\nnext 5\n\
capsule 5 proc 1\nroom 10\nloadslot r0 0\nstorenew 6 r0\nloadslot r1 3\nstorenew 7 r1\ncall 1 6\n\
capsule 6 proc 1\nend\n";

/// What a run is to come to: the values of its array, a trap with its line, or more capsules.
#[derive(Clone, Copy, Debug, PartialEq, Eq)]
enum Want {
    Ended([i64; 4]),
    Trapped(Trap, u32),
    NotWithin,
}

/// Whether a code's root names the first array alone.
fn names_first(code: &Code) -> bool
    ensures { IsTrue result ↔ All (λ array. array < 1) code.now.arrays }
{
    code.parts()
        .arrays
        .as_slice()
        .iter()
        .all(|array| *array < 1)
}

/// The code, if it is tidy and its root names the first array alone.
pub(crate) fn runnable(code: Code) -> Option<Code>
    ensures tidy { IfSome result IsTidy }
    ensures arrays { IfSome result (λ code. All (λ array. array < 1) code.arrays) }
{
    if !tidy(&code) {
        return None;
    }
    if !names_first(&code) {
        return None;
    }
    Some(code)
}

pub(crate) fn input(alloc: Global, values: [i64; 4]) -> Result<Input, Fail>
    ensures { IfOk result (λ input. length input ≡ 1) }
{
    let array = NamedArray {
        name: Name::from_bytes(vec![in alloc; b'a']?),
        values: Items::from_vec(Vec::from_array(alloc, values)?),
    };
    Ok(Input::from_vec(vec![in alloc; array]?))
}

/// What a listing's run from these values comes to within so many capsules.
fn run(alloc: Global, listing: &str, values: [i64; 4], limit: u32) -> Result<DepthRun, Fail> {
    let code = read_listing(alloc, listing.as_bytes()).map_err(|_| "no listing")?;
    let code = runnable(code).ok_or("not to be run")?;
    let input = input(alloc, values)?;
    Ok(depth_first(alloc, &code, &input, u64::from(limit))?)
}

fn is_wanted(outcome: &Outcome, want: Want) -> bool {
    match (outcome, want) {
        (Outcome::Ended(arrays), Want::Ended(values)) => match arrays.as_slice() {
            [array] => array.values.as_slice() == values.as_slice(),
            _ => false,
        },
        (Outcome::Trapped(trap, line), Want::Trapped(wanted, at)) => *trap == wanted && *line == at,
        (Outcome::NotWithin, Want::NotWithin) => true,
        _ => false,
    }
}

/// Runs a listing, with its outcome, its capsules, its forks and its block words.
fn comes_to(
    rt: &impl Abort,
    alloc: Global,
    listing: &str,
    (values, limit): ([i64; 4], u32),
    want: Want,
    counts: (u64, u64, u64),
) -> Result<(), Fail> {
    let run = run(alloc, listing, values, limit)?;
    assert!(rt;
        is_wanted(&run.outcome, want),
        "from {values:?} within {limit}: {run:?}"
    );
    assert_eq!(rt;
        (run.capsules, run.forks, run.pool_words),
        counts,
        "from {values:?} within {limit}"
    );
    Ok(())
}

#[test]
fn runs_come_to_their_ends(rt: HostRuntime) -> Result<(), Fail> {
    let large = 1 << 62;
    let cases = [
        // The loop goes round three times, two capsules each.
        ([0, 1, 1, 1], 7u32, Want::Ended([0, 1, 1, 1]), (7, 0, 9)),
        ([0, 1, 1, 1], 6, Want::NotWithin, (6, 0, 9)),
        ([0, 1, 1, 1], 0, Want::NotWithin, (0, 0, 9)),
        // A call with its value, and with a trap.
        ([1, 4, 1, 1], 4, Want::Ended([3, 4, 1, 3]), (4, 0, 17)),
        ([1, 4, 1, 1], 3, Want::NotWithin, (3, 0, 17)),
        (
            [1, 0, 1, 1],
            9,
            Want::Trapped(Trap::DivZero, 11),
            (3, 0, 17),
        ),
        // A fork: the left branch first, the right value last.
        ([2, 4, 2, 1], 5, Want::Ended([6, 4, 2, 8]), (5, 1, 30)),
        ([2, 4, 2, 1], 4, Want::NotWithin, (4, 1, 30)),
        // The left branch's trap, though the right one runs, else the right one's.
        (
            [2, 0, large, 1],
            9,
            Want::Trapped(Trap::DivZero, 11),
            (4, 1, 30),
        ),
        (
            [2, 0, 2, 1],
            9,
            Want::Trapped(Trap::DivZero, 11),
            (4, 1, 30),
        ),
        (
            [2, 4, large, 1],
            9,
            Want::Trapped(Trap::Overflow, 10),
            (4, 1, 30),
        ),
        ([2, 0, 2, 1], 3, Want::NotWithin, (3, 1, 30)),
        // What is asked for counts, though nothing is built.
        ([3, 1, 1, 1], 2, Want::Trapped(Trap::DivZero, 7), (2, 0, 17)),
    ];
    for (values, limit, want, counts) in cases {
        comes_to(&rt, rt.alloc(), CHOOSING, (values, limit), want, counts)?;
    }
    orders_come_to_one_end();
    runs_are_there();
    Ok(())
}

#[test]
fn forks_and_calls_ask_for_their_blocks(rt: HostRuntime) -> Result<(), Fail> {
    let cases = [
        (FORKING, [0; 4], Want::Ended([1, 2, 0, 0]), (4, 1, 28)),
        // Three forks of 27 words, a call of 11, and the root's frame of 7.
        (
            SUMMING,
            [1, 2, 3, 4],
            Want::Ended([10, 2, 7, 4]),
            (21, 3, 99),
        ),
        // 101 calls of 10 words, and the root's frame of 7.
        (CALLING, [0; 4], Want::Ended([100, 0, 0, 0]), (503, 0, 1017)),
    ];
    for (listing, values, want, counts) in cases {
        comes_to(&rt, rt.alloc(), listing, (values, 1000), want, counts)?;
    }
    Ok(())
}
