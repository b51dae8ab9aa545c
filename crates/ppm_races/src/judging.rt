//! Whether a code has races with its input.
ghost use Rattle.std.specs.Prelude.{◌≤◌, ◌^◌, IfOk};
ghost use Rattle.ppm_code.specs.Tidy.{IsTidy};
ghost use Rattle.ppm_depth.specs.Start.{NamesArrays};
ghost use Rattle.ppm_races.specs.Judged.{IsJudged};
ghost use Rattle.ppm_races.specs.Verdicts.{IsVerdict};
ghost use Rattle.ppm_races.specs.Walks.{HasBegun};

use crate::naming::race_of;
use crate::race::Race;
use crate::walk::{Meeting, Told, Walk};
use ppm_code::Code;
use ppm_depth::{DepthRun, Strand, depth_run, entry, root_store};
use ppm_words::{Input, NoMemory};
use std::alloc::Global;

/// What is said of a code with its input.
#[derive(Debug, Drop)]
pub enum Verdict {
    /// No two branches of a fork meet on an array word that one of them writes, and this is the
    /// depth-first run.
    Calm(DepthRun),
    /// Two do, and this is the first race of that run.
    Races(Race),
    /// The run takes more capsules, and in those that were run no two branches meet. Nothing is
    /// said of the others.
    NotWithin,
}

/// What a walk tells: a verdict, but the first capsule that meets another one is told as it was
/// found.
#[derive(Debug, Drop)]
pub enum Judged {
    Calm(DepthRun),
    Meets(Meeting),
    NotWithin,
}

/// A walk that is about to begin: its strand stands at the root's frame, the first of the stack.
pub(crate) fn begin(alloc: Global, code: &Code, input: &Input) -> Result<Walk, NoMemory>
    requires arrays { NamesArrays code.now input.now }
    ensures { IfOk result (HasBegun code.now input.now) }
{
    let store = root_store(alloc, code, input.arrays())?;
    let words = store.words.len();
    let strand = Strand::new(alloc, store);
    let walk = Walk::new(alloc, strand, words)?;
    Ok(walk)
}

/// Makes the depth-first run, at most so many capsules of it, until one meets another.
fn judge(alloc: Global, code: &Code, input: &Input, capsules: u64) -> Result<Judged, NoMemory>
    requires tidy { IsTidy code.now }
    requires arrays { NamesArrays code.now input.now }
    requires few { capsules ≤ 2 ^ 40 }
    ensures { IfOk result (IsJudged code.now input.now capsules) }
{
    let mut walk = begin(alloc, code, input)?;
    let frame_words = walk.strand.store.blocks.len() as u64;
    let root = entry(code, code.parts().root, 0);
    let told = walk.run(code, root, capsules)?;
    match told {
        Told::Ended(finish) => {
            let arrays = input.arrays();
            let run = depth_run(alloc, arrays, &walk.strand, frame_words, Some(finish))?;
            Ok(Judged::Calm(run))
        }
        Told::Meets(meeting) => Ok(Judged::Meets(meeting)),
        Told::Next(_) => Ok(Judged::NotWithin),
    }
}

/// Whether two branches of a fork of a code meet on an array word, with this input: the depth-first
/// run is made, at most so many capsules of it, up to 2^40. Each array word takes 16 bytes for it.
/// The capsules of a race are looked up by two more such runs, up to theirs.
pub fn races(alloc: Global, code: &Code, input: &Input, capsules: u64) -> Result<Verdict, NoMemory>
    requires tidy { IsTidy code.now }
    requires arrays { NamesArrays code.now input.now }
    requires few { capsules ≤ 2 ^ 40 }
    ensures verdict { IfOk result (IsVerdict code.now input.now capsules) }
{
    let judged = judge(alloc, code, input, capsules)?;
    match judged {
        Judged::Calm(run) => Ok(Verdict::Calm(run)),
        Judged::Meets(meeting) => {
            let race = race_of(alloc, code, input, meeting)?;
            Ok(Verdict::Races(race))
        }
        Judged::NotWithin => Ok(Verdict::NotWithin),
    }
}
