//! The acts before which the first fault of a schedule is put.
ghost use Rattle.std.specs.Prelude.{◌≡◌, ◌<◌, ◌≤◌, ◌+◌, ◌^◌, IfOk};
ghost use Rattle.ppm_core.specs.Machine.{seen};
ghost use Rattle.ppm_sweep.specs.Windows.{act_at, act_count, drawn as drawn_among, made_in, windows_for};

use crate::options::{Draws, Sweeping, Window};
use ppm_core::Machine;
use ppm_following::follow;
use ppm_plan::Schedule;
use ppm_words::NoMemory;
use rand_core::SeedableRng;
use rand_core::utils::NextWord;
use rand_xoshiro::Xoshiro256PlusPlus;
use std::alloc::Global;

/// The act with a number, alone.
fn one_act(number: u64) -> Window
    ensures { result ≡ act_at number }
{
    Window {
        from: number,
        acts: 1,
    }
}

/// Draws acts among so many from a number on.
fn draw(alloc: Global, from: u64, among: u64, draws: Draws) -> Result<Vec<Window>, NoMemory>
    requires some { 0 < among }
    requires few { from + among ≤ 2 ^ 62 }
    ensures { IfOk result (λ windows. windows.items ≡ drawn_among from among draws) }
{
    let mut words = Xoshiro256PlusPlus::seed_from_u64(u64::from(draws.seed));
    let mut windows = Vec::new(alloc);
    let mut left = draws.runs;
    while left > 0 {
        let word = words.next_word();
        windows.push(one_act(from + word % among))?;
        left -= 1;
    }
    Ok(windows)
}

/// The acts that are drawn from a window, where the base run makes so many acts.
fn drawn(alloc: Global, window: Window, acts: u64, draws: Draws) -> Result<Vec<Window>, NoMemory>
    requires few { acts ≤ 2 ^ 62 }
    ensures { IfOk result (λ windows. windows.items ≡ drawn_among window.from (made_in window acts) draws) }
{
    let among = window.made(acts);
    if among == 0 {
        return Ok(Vec::new(alloc));
    }
    draw(alloc, window.from, among, draws)
}

/// How many acts the run of a schedule makes.
fn acts_made(
    alloc: Global,
    machine: &Machine,
    schedule: &Schedule,
    turns: u64,
) -> Result<u64, NoMemory>
    requires processors { schedule.now.processors ≡ (seen machine.now).shape.processors }
    requires turns { turns ≤ 2 ^ 40 }
    requires fresh { (seen machine.now).turns ≡ 0 }
    ensures acts { IfOk result (λ acts. acts ≡ act_count (seen machine.now) schedule.now.items turns) }
    ensures few { IfOk result (λ acts. acts ≤ turns) }
{
    let mut machine = machine.copy(alloc)?;
    follow(&mut machine, schedule, turns);
    Ok(machine.turns())
}

/// The windows of a sweep: the one that is asked, or the acts that are drawn from it.
pub(crate) fn windows(
    alloc: Global,
    machine: &Machine,
    schedule: &Schedule,
    sweeping: Sweeping,
) -> Result<Vec<Window>, NoMemory>
    requires processors { schedule.now.processors ≡ (seen machine.now).shape.processors }
    requires turns { sweeping.turns ≤ 2 ^ 40 }
    requires fresh { (seen machine.now).turns ≡ 0 }
    ensures { IfOk result (λ windows. windows.items ≡ windows_for (seen machine.now) schedule.now.items sweeping) }
{
    match sweeping.drawn {
        Some(draws) => {
            let acts = acts_made(alloc, machine, schedule, sweeping.turns)?;
            drawn(alloc, sweeping.window, acts, draws)
        }
        None => {
            let mut windows = Vec::new(alloc);
            windows.push(sweeping.window)?;
            Ok(windows)
        }
    }
}
