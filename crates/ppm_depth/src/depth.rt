//! The depth-first run of a code.
ghost use Rattle.std.specs.Prelude.{◌≡◌, ◌<◌, ◌≤◌, ◌^◌, ◌+◌, IfOk, length};
ghost use Rattle.ppm_code.specs.Tidy.{IsTidy};
ghost use Rattle.ppm_depth.specs.Start.{NamesArrays};
ghost use Rattle.ppm_depth.specs.Run.{IsDepthRun};
ghost use Rattle.ppm_depth.specs.Image.{IsRunOf, outcome_in, word_count};

use crate::frame::Finish;
use crate::image::{root_store, to_arrays};
use crate::strand::{Strand, entry};
use ppm_code::Code;
use ppm_words::{Input, NamedArray, NoMemory, Outcome};
use std::alloc::Global;

/// What a depth-first run came to, and what it counted: the capsules run, the forks that they
/// opened, and the words of the pools, which are the root's frame and all blocks that the capsules
/// asked for.
#[derive(Debug, Drop)]
pub struct DepthRun {
    pub outcome: Outcome,
    pub capsules: u64,
    pub forks: u64,
    pub pool_words: u64,
}

/// What is said of a run that has come to this over the words of arrays.
fn outcome_of(
    alloc: Global,
    arrays: &[NamedArray],
    words: &[u64],
    finish: Option<Finish>,
) -> Result<Outcome, NoMemory>
    requires { word_count arrays.now ≤ length words.now }
    ensures { IfOk result (λ outcome. outcome ≡ outcome_in arrays.now words.now finish) }
{
    match finish {
        Some(Finish::Gave(_)) => Ok(Outcome::Ended(to_arrays(alloc, arrays, words)?)),
        Some(Finish::Trapped(trap, line)) => Ok(Outcome::Trapped(trap, line)),
        None => Ok(Outcome::NotWithin),
    }
}

/// What is said of a strand that has come to this, over the words of arrays, with its counts; its
/// root's frame has so many words.
pub fn depth_run(
    alloc: Global,
    arrays: &[NamedArray],
    strand: &Strand,
    frame_words: u64,
    finish: Option<Finish>,
) -> Result<DepthRun, NoMemory>
    requires words { word_count arrays.now ≤ length strand.now.store.words.items }
    requires room { frame_words + strand.now.counts.block_words < 2 ^ 64 }
    ensures { IfOk result (IsRunOf arrays.now strand.now frame_words finish) }
{
    let outcome = outcome_of(alloc, arrays, &strand.store.words, finish)?;
    Ok(DepthRun {
        outcome,
        capsules: strand.counts.capsules,
        forks: strand.counts.forks,
        pool_words: frame_words + strand.counts.block_words,
    })
}

/// Runs a code depth first from an input, with a stack of its own: at most `capsules` capsules, up
/// to 2^40. `NotWithin` exactly where more would be run; the counts are then those of the first so
/// many.
pub fn depth_first(
    alloc: Global,
    code: &Code,
    input: &Input,
    capsules: u64,
) -> Result<DepthRun, NoMemory>
    requires tidy { IsTidy code.now }
    requires arrays { NamesArrays code.now input.now }
    requires few { capsules ≤ 2 ^ 40 }
    ensures run { IfOk result (IsDepthRun code.now input.now capsules) }
{
    let arrays = input.arrays();
    let store = root_store(alloc, code, arrays)?;
    let frame_words = store.blocks.len() as u64;
    let mut strand = Strand::new(alloc, store);
    let root = entry(code, code.parts().root, 0);
    let finish = strand.run(code, root, capsules)?;
    let run = depth_run(alloc, arrays, &strand, frame_words, finish)?;
    Ok(run)
}
