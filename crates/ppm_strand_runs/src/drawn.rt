//! Runs of schedules that are drawn at random.
ghost use Rattle.std.specs.Prelude.{◌≡◌, ◌≤◌, ◌%◌, ◌^◌, IfOk};
ghost use Rattle.ppm_words.specs.Inputs.{IsInput};
ghost use Rattle.ppm_depth.specs.Start.{NamesArrays};
ghost use Rattle.ppm_plan.specs.Draws.{seeded};
ghost use Rattle.ppm_racy.specs.Code.{plain_code};
ghost use Rattle.ppm_strand_runs.specs.Correct.{AreSteps};
ghost use Rattle.ppm_strand_runs.specs.Draws.{step_of as step_by, steps_drawn, TellsDrawn};

use crate::run::StrandRun;
use crate::running::run_strands;
use ppm_plan::{StrandAct, StrandItem};
use ppm_racy::RacyCode;
use ppm_words::{NamedArray, NoMemory};
use rand_core::SeedableRng;
use rand_core::utils::NextWord;
use rand_xoshiro::Xoshiro256PlusPlus;
use std::alloc::Global;

/// The run of a drawn schedule, and the number of this schedule, from 0.
#[derive(Debug, Drop)]
pub struct DrawnRun {
    pub number: u32,
    pub run: StrandRun,
}

/// The step that a word says.
fn step_of(strands: u32, word: u64) -> StrandItem
    requires { 1 ≤ strands }
    ensures { result ≡ step_by (word % strands) }
{
    let strand = (word % u64::from(strands)) as u32;
    StrandItem {
        act: StrandAct::Step { strand },
        times: 1,
    }
}

/// Draws so many steps.
fn draw(
    alloc: Global,
    words: Xoshiro256PlusPlus,
    strands: u32,
    count: u32,
) -> Result<Vec<StrandItem>, NoMemory>
    requires { 1 ≤ strands }
    ensures { IfOk result (λ items. items.items ≡ steps_drawn strands count words) }
{
    let mut words = words;
    let mut items = Vec::new(alloc);
    let mut left = count;
    while left > 0 {
        let word = words.next_word();
        items.push(step_of(strands, word))?;
        left -= 1;
    }
    Ok(items)
}

/// The schedule of `count` steps that a seed draws: each step is of a strand below `strands`, which
/// is 1 at least.
pub fn drawn_steps(
    alloc: Global,
    seed: u64,
    strands: u32,
    count: u32,
) -> Result<Vec<StrandItem>, NoMemory>
    requires { 1 ≤ strands }
    ensures drawn { IfOk result (λ items. items.items ≡ steps_drawn strands count (seeded seed)) }
    ensures steps { IfOk result (λ items. AreSteps items.items) }
{
    let words = Xoshiro256PlusPlus::seed_from_u64(seed);
    let items = draw(alloc, words, strands, count)?;
    Ok(items)
}

/// What is drawn: so many schedules with so many steps each, of strands below `strands`, by seeds
/// from `seed` on.
#[derive(Clone, Copy, Debug, PartialEq, Eq)]
pub struct Draws {
    pub runs: u32,
    pub seed: u32,
    pub strands: u32,
    pub steps: u32,
}

/// The first of the runs of drawn schedules in which something falls; each run ends after so many
/// turns at the latest. `None` where nothing falls in any of them.
pub fn first_drawn_fall(
    alloc: Global,
    code: &RacyCode,
    input: &[NamedArray],
    draws: Draws,
    turns: u64,
) -> Result<Option<DrawnRun>, NoMemory>
    requires named { NamesArrays (plain_code code.now) input.now }
    requires input { IsInput input.now }
    requires strands { 1 ≤ draws.strands }
    requires few { turns ≤ 2 ^ 63 }
    ensures { IfOk result (TellsDrawn code.now input.now draws.seed draws.strands draws.steps turns draws.runs) }
{
    let mut number = 0;
    while number < draws.runs {
        let seed = u64::from(draws.seed) + u64::from(number);
        let schedule = drawn_steps(alloc, seed, draws.strands, draws.steps)?;
        let run = run_strands(alloc, code, input, &schedule, turns)?;
        if run.fall.is_some() {
            return Ok(Some(DrawnRun { number, run }));
        }
        number += 1;
    }
    Ok(None)
}
