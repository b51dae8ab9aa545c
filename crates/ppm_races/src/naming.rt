//! The capsules of a race, by their numbers in the code: the depth-first run is made again up to
//! each.
ghost use Rattle.std.specs.Prelude.{◌≡◌, ◌≤◌, ◌^◌, IfOk};
ghost use Rattle.ppm_code.specs.Tidy.{IsTidy};
ghost use Rattle.ppm_depth.specs.Start.{NamesArrays};
ghost use Rattle.ppm_races.specs.Judged.{IsMeetingWith, IsVisitTo, MomentWith};
ghost use Rattle.ppm_races.specs.Verdicts.{IsRaceWith};

use crate::judging::begin;
use crate::race::{Opener, Race, Touching, Visit};
use crate::stamps::is_written;
use crate::walk::{Meeting, Told};
use ppm_code::Code;
use ppm_depth::entry;
use ppm_words::{Input, NoMemory};
use std::alloc::Global;

/// The capsule with a number in the run, from 1 on, and whether it writes an array word.
fn visit_of(
    alloc: Global,
    code: &Code,
    input: &Input,
    run: u64,
    word: u64,
) -> Result<Visit, NoMemory>
    requires tidy { IsTidy code.now }
    requires arrays { NamesArrays code.now input.now }
    requires first { 1 ≤ run }
    requires few { run ≤ 2 ^ 40 }
    requires there { MomentWith code.now input.now run }
    ensures { IfOk result (IsVisitTo code.now input.now run word) }
{
    let mut walk = begin(alloc, code, input)?;
    let root = entry(code, code.parts().root, 0);
    let told = walk.run(code, root, run - 1)?;
    match told {
        Told::Next(frame) => {
            let _ = walk.advance(code, frame)?;
            let writes = is_written(&walk.log, word);
            Ok(Visit {
                run,
                capsule: frame.capsule,
                writes,
            })
        }
        Told::Ended(_) => unreachable!(),
        Told::Meets(_) => unreachable!(),
    }
}

/// The race of a capsule that meets another one, with the numbers of its capsules in the code.
pub(crate) fn race_of(
    alloc: Global,
    code: &Code,
    input: &Input,
    meeting: Meeting,
) -> Result<Race, NoMemory>
    requires tidy { IsTidy code.now }
    requires arrays { NamesArrays code.now input.now }
    requires few { meeting.run ≤ 2 ^ 40 }
    requires meets { IsMeetingWith code.now input.now meeting }
    ensures race { IfOk result (IsRaceWith code.now input.now) }
    ensures run { IfOk result (λ race. race.right.run ≡ meeting.run) }
{
    // The limits of a code are known by this call, so the cast fits.
    let _ = code.parts();
    let met = meeting.met;
    let word = met.touch.word;
    let opener = visit_of(alloc, code, input, met.fork.start - 1, word)?;
    let left = visit_of(alloc, code, input, met.left, word)?;
    Ok(Race {
        word,
        fork: Opener {
            run: opener.run,
            capsule: opener.capsule,
        },
        left,
        right: Touching {
            run: meeting.run,
            capsule: meeting.capsule,
            at: met.touch.at as u32,
            writes: met.touch.writes,
        },
    })
}
