//! The sweep of a code on an input: its depth-first run first, and then the replays of a schedule
//! without a fault and with faults, under each takeover that is asked.
ghost use Rattle.std.specs.Prelude.{◌≡◌, ◌<◌, IfOk, length, map};
ghost use Rattle.ppm_cli.specs.Words.{AreSwept};
ghost use Rattle.ppm_cli.specs.declared.takeover.SweptTakeovers.TheVariants as asked;
ghost use Rattle.ppm_code.specs.Tidy.{IsTidy};
ghost use Rattle.ppm_core.specs.Machine.{seen};
ghost use Rattle.ppm_depth.specs.Run.{IsWithin};
ghost use Rattle.ppm_depth.specs.Start.{NamesArrays};
ghost use Rattle.ppm_loading.specs.Loading.{OpensRun};
ghost use Rattle.ppm_sweep_command.specs.Halts.{Finds, IfDiffers, IsAnswerOf, IsHaltOf, IsTold};
ghost use Rattle.ppm_sweep_command.specs.Halts.{counts_in, is_not_within};
ghost use Rattle.ppm_outcomes.specs.Replays.{sizes_of as replay_sizes};
ghost use Rattle.ppm_sweep_command.specs.Sweeps.{AllAgree, AllOf, CodeHas, FirstDiffers, FirstOf};
ghost use Rattle.ppm_sweep_command.specs.Sweeps.{draws_of, replay_options, sum_of, sweeping_of};

use ppm_answers::{Answer, Difference, Sweep};
use ppm_cells::Takeover;
use ppm_cli::{SweepOptions, SweptTakeovers};
use ppm_code::Code;
use ppm_core::{Machine, code_copy};
use ppm_depth::{DepthRun, depth_first};
use ppm_loading::{Sizes, array_count, load_code, store_told};
use ppm_outcomes::replay_came;
use ppm_plan::{Schedule, texts_read_as_written};
use ppm_sweep::{
    Differing, Draws, Stop, Sweeping, Tally, Window, schedules_are_written, sweep, sweeps_are_fair,
    write_schedule,
};
use ppm_war::untidy;
use ppm_words::{Input, Items, NoMemory as OutOfMemory, Outcome};
use std::alloc::Global;

/// The most that is counted of anything under one takeover, where both are asked.
const MOST: u64 = 1 << 62;

/// Why a sweep stops.
#[derive(Drop)]
pub(crate) enum Halt {
    /// A replay came to something else.
    Differs(Difference),
    /// Memory was refused.
    NoMemory,
}

/// What is answered where a code on an input is swept over a base schedule.
pub(crate) fn swept_code(
    alloc: Global,
    options: SweepOptions,
    schedule: &Schedule,
    code: &Code,
    input: &Input,
) -> Result<Answer, OutOfMemory>
    requires options { AreSwept options }
    requires processors { schedule.now.processors ≡ options.processors }
    requires names { NamesArrays code.now input.now }
    ensures { IfOk result (CodeHas options schedule.now.items code.now input.now) }
{
    match untidy(code) {
        Some(store) => Ok(Answer::Untidy(store_told(code, array_count(input), store))),
        None => tidy_answer(alloc, options, schedule, code, input),
    }
}

/// That of a tidy code: its depth-first run comes first.
fn tidy_answer(
    alloc: Global,
    options: SweepOptions,
    schedule: &Schedule,
    code: &Code,
    input: &Input,
) -> Result<Answer, OutOfMemory>
    requires options { AreSwept options }
    requires processors { schedule.now.processors ≡ options.processors }
    requires names { NamesArrays code.now input.now }
    requires tidy { IsTidy code.now }
    ensures { IfOk result (CodeHas options schedule.now.items code.now input.now) }
{
    let depth = depth_first(alloc, code, input, options.capsules)?;
    if goes_on(&depth.outcome) {
        return Ok(Answer::NotWithinCapsules(options.capsules));
    }
    match swept_all(alloc, options, schedule, code, input, &depth) {
        Ok(counts) => Ok(Answer::Swept(counts)),
        Err(halt) => answer_of(halt),
    }
}

/// The answer of a sweep that stops.
fn answer_of(halt: Halt) -> Result<Answer, OutOfMemory>
    ensures { IsAnswerOf halt result }
{
    match halt {
        Halt::Differs(difference) => Ok(Answer::Differs(difference)),
        Halt::NoMemory => Err(OutOfMemory),
    }
}

/// Whether a depth-first run takes more capsules than it may.
fn goes_on(outcome: &Outcome) -> bool
    ensures { result ≡ is_not_within outcome.now }
{
    match outcome {
        Outcome::Ended(_) => false,
        Outcome::Trapped(_, _) => false,
        Outcome::NotWithin => true,
    }
}

/// The counts of the sweeps under the takeovers that are asked, one after the other, where all
/// replays come to what the depth-first run comes to.
fn swept_all(
    alloc: Global,
    options: SweepOptions,
    schedule: &Schedule,
    code: &Code,
    input: &Input,
    run: &DepthRun,
) -> Result<Sweep, Halt>
    requires options { AreSwept options }
    requires processors { schedule.now.processors ≡ options.processors }
    requires names { NamesArrays code.now input.now }
    requires within { IsWithin code.now input.now options.capsules run.now }
    ensures { Finds (AllOf options schedule.now.items code.now input.now run.now.outcome options.takeover)
        (FirstOf options schedule.now.items code.now input.now run.now.outcome options.takeover) result }
{
    match options.takeover {
        SweptTakeovers::ByPlaces => {
            swept_under(
                alloc,
                options,
                Takeover::ByPlaces,
                schedule,
                code,
                input,
                run,
            )
        }
        SweptTakeovers::ByEntries => {
            swept_under(
                alloc,
                options,
                Takeover::ByEntries,
                schedule,
                code,
                input,
                run,
            )
        }
        SweptTakeovers::Both => swept_both(alloc, options, schedule, code, input, run),
    }
}

/// Those under both takeovers, by places first.
fn swept_both(
    alloc: Global,
    options: SweepOptions,
    schedule: &Schedule,
    code: &Code,
    input: &Input,
    run: &DepthRun,
) -> Result<Sweep, Halt>
    requires options { AreSwept options }
    requires processors { schedule.now.processors ≡ options.processors }
    requires names { NamesArrays code.now input.now }
    requires within { IsWithin code.now input.now options.capsules run.now }
    ensures { Finds (AllOf options schedule.now.items code.now input.now run.now.outcome asked.Both)
        (FirstOf options schedule.now.items code.now input.now run.now.outcome asked.Both) result }
{
    let places = swept_under(
        alloc,
        options,
        Takeover::ByPlaces,
        schedule,
        code,
        input,
        run,
    )?;
    let entries = swept_under(
        alloc,
        options,
        Takeover::ByEntries,
        schedule,
        code,
        input,
        run,
    )?;
    together(places, entries)
}

/// Two counts together. More than 2^62 of anything are as if memory were wanting.
fn together(first: Sweep, second: Sweep) -> Result<Sweep, Halt>
    ensures { Finds (λ counts. counts ≡ sum_of first second) (λ d. ⊥) result }
{
    if first.runs > MOST || first.met > MOST || first.acts > MOST {
        return Err(Halt::NoMemory);
    }
    if second.runs > MOST || second.met > MOST || second.acts > MOST {
        return Err(Halt::NoMemory);
    }
    if first.left > MOST || second.left > MOST {
        return Err(Halt::NoMemory);
    }
    Ok(Sweep {
        runs: first.runs + second.runs,
        met: first.met + second.met,
        acts: first.acts + second.acts,
        left: first.left + second.left,
    })
}

/// The counts of the sweep under one takeover, where all its replays come to what the depth-first
/// run comes to.
fn swept_under(
    alloc: Global,
    options: SweepOptions,
    takeover: Takeover,
    schedule: &Schedule,
    code: &Code,
    input: &Input,
    run: &DepthRun,
) -> Result<Sweep, Halt>
    requires options { AreSwept options }
    requires processors { schedule.now.processors ≡ options.processors }
    requires names { NamesArrays code.now input.now }
    requires within { IsWithin code.now input.now options.capsules run.now }
    ensures { Finds (AllAgree options schedule.now.items code.now input.now run.now.outcome takeover)
        (FirstDiffers options schedule.now.items code.now input.now run.now.outcome takeover) result }
{
    // These laws say that each schedule of the sweep may be obeyed, and is read back from its text;
    // the calls do nothing.
    sweeps_are_fair();
    schedules_are_written();
    texts_read_as_written();
    // What the types of these keep is known once their parts were seen.
    let _ = code.parts();
    let _ = input.arrays();
    let _ = schedule.items();
    let keeper = schedule.keeper();
    let Ok(machine) = opened(alloc, options, takeover, code, input, keeper) else {
        return Err(Halt::NoMemory);
    };
    let sweeping = sweeping_by(options, keeper);
    match sweep(alloc, &machine, schedule, sweeping, &run.outcome) {
        Ok(tally) => Ok(counts_of(tally)),
        Err(stop) => Err(halted(alloc, takeover, stop, input, options.turns)),
    }
}

/// The machine with which all replays under a takeover begin.
fn opened(
    alloc: Global,
    options: SweepOptions,
    takeover: Takeover,
    code: &Code,
    input: &Input,
    keeper: u32,
) -> Result<Machine, OutOfMemory>
    requires options { AreSwept options }
    requires keeper { keeper < options.processors }
    requires names { NamesArrays code.now input.now }
    ensures { IfOk result (λ machine. OpensRun (replay_sizes (replay_options options takeover)) code.now input.now keeper (seen machine)) }
{
    let copy = code_copy(alloc, code)?;
    let machine = load_code(alloc, sizes_of(options, takeover), copy, input, keeper)?;
    Ok(machine)
}

/// The machine's sizes, as the options say them, with a takeover.
fn sizes_of(options: SweepOptions, takeover: Takeover) -> Sizes
    ensures { result ≡ replay_sizes (replay_options options takeover) }
{
    Sizes {
        processors: options.processors,
        room: options.room,
        slots: options.slots,
        takeover,
    }
}

/// How the sweep is made, as the options say it, with the keeper of its base schedule.
fn sweeping_by(options: SweepOptions, keeper: u32) -> Sweeping
    requires { AreSwept options }
    ensures { result ≡ sweeping_of options keeper }
{
    Sweeping {
        keeper,
        turns: options.turns,
        faults: options.faults,
        window: Window {
            from: options.from,
            acts: options.acts,
        },
        drawn: drawn(options.runs as u32, options.seed as u32),
    }
}

/// What is drawn of the window, if anything is.
fn drawn(runs: u32, seed: u32) -> Option<Draws>
    ensures { result ≡ draws_of runs seed }
{
    if runs == 0 {
        return None;
    }
    Some(Draws { runs, seed })
}

/// The counts of a sweep, as an answer tells them.
fn counts_of(tally: Tally) -> Sweep
    ensures { result ≡ counts_in tally }
{
    Sweep {
        runs: tally.runs,
        met: tally.met,
        acts: tally.acts,
        left: tally.left,
    }
}

/// Why a sweep under a takeover stops, as an answer tells it.
fn halted(alloc: Global, takeover: Takeover, stop: Stop, input: &Input, turns: u64) -> Halt
    requires lengths { IfDiffers stop (λ d. (seen d.machine).array_lengths ≡ map (λ a. length a.values) input.now) }
    ensures { IsHaltOf takeover turns input.now stop result }
{
    match stop {
        Stop::Differs(differing) => match told(alloc, takeover, &differing, input, turns) {
            Ok(difference) => Halt::Differs(difference),
            Err(OutOfMemory) => Halt::NoMemory,
        },
        Stop::NoMemory => Halt::NoMemory,
    }
}

/// A replay that came to something else, as an answer tells it.
fn told(
    alloc: Global,
    takeover: Takeover,
    differing: &Differing,
    input: &Input,
    turns: u64,
) -> Result<Difference, OutOfMemory>
    requires lengths { (seen differing.now.machine).array_lengths ≡ map (λ a. length a.values) input.now }
    ensures { IfOk result (IsTold takeover turns input.now differing.now) }
{
    let schedule = write_schedule(alloc, &differing.items)?;
    let came = replay_came(alloc, &differing.machine, input.arrays(), turns)?;
    Ok(Difference {
        takeover,
        schedule: Items::from_vec(schedule),
        came,
    })
}
