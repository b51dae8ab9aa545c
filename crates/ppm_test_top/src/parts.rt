//! Runs that are stopped and resumed more than once: the saved text that one part leaves is what the
//! next one reads.
ghost use Rattle.std.specs.Prelude.{◌≡◌, ◌≤◌, ◌^◌, IfOk};
ghost use Rattle.ppm_cells.specs.declared.shape.Takeover.TheVariants.{ByPlaces};

use crate::sources::{FIRST, SUM};
use crate::texts::stopped;
use crate::told::{PLAIN, is_run, is_run_alone};
use ppm_answers::Status;
use ppm_core::Machine;
use ppm_following::follow;
use ppm_plan::{Schedule, read_schedule};
use ppm_saved::{Renewed, Saved, renew, write_saved};
use ppm_saved_reader::read_saved;
use ppm_words::NoMemory;
use std::alloc::Global;
use std::test::Fail;

/// The state of a saved text.
fn state_of(alloc: Global, text: &[u8]) -> Result<Saved, Fail>
    ensures { IfOk result (λ saved. saved.shape.takeover ≡ ByPlaces) }
{
    match read_saved(alloc, text) {
        Ok(saved) => Ok(saved),
        Err(_) => Err(Fail::from("no state")),
    }
}

/// The saved text after so many acts of fresh processors, by a schedule, from the state of a text.
fn stopped_again(alloc: Global, text: &[u8], schedule: &str, acts: u64) -> Result<Vec<u8>, Fail>
    requires { acts ≤ 2 ^ 40 }
{
    let saved = state_of(alloc, text)?;
    let processors = saved.shape.processors;
    let schedule = read_schedule(alloc, schedule.as_bytes(), processors).map_err(
        |_| "no schedule",
    )?;
    Ok(leg(alloc, saved, &schedule, acts).map_err(|_| "memory")?)
}

/// The saved text after so many acts of fresh processors, by a schedule, from a state.
fn leg(alloc: Global, saved: Saved, schedule: &Schedule, acts: u64) -> Result<Vec<u8>, NoMemory>
    requires by_places { saved.shape.takeover ≡ ByPlaces }
    requires processors { schedule.now.processors ≡ saved.shape.processors }
    requires acts { acts ≤ 2 ^ 40 }
{
    let Renewed { image, code, names } = renew(saved, schedule.keeper());
    let mut machine = Machine::load(alloc, image, code)?;
    follow(&mut machine, schedule, acts);
    let text = write_saved(
        alloc,
        machine.code(),
        machine.shape(),
        &names,
        machine.words(),
    )?;
    Ok(text)
}

#[test]
fn what_is_stopped_again_is_resumed(rt: HostRuntime) -> Result<(), Fail> {
    let alloc = rt.alloc();
    let first = stopped(&rt, alloc, SUM, "3", "256", "60")?;
    for acts in [0, 7, 41, 120] {
        let second = stopped_again(alloc, &first, "0!s,1*5,1!h", acts)?;
        is_run(
            &rt,
            alloc,
            &second,
            "0@3s,2@4h",
            "a 10 2 7 4\n",
            Status::Ended,
        )?;
        let third = stopped_again(alloc, &second, "2*9,0!h,2>1*30", 50)?;
        is_run(
            &rt,
            alloc,
            &third,
            "1@0h,0@20h",
            "a 10 2 7 4\n",
            Status::Ended,
        )?;
    }
    Ok(())
}

#[test]
fn one_is_stopped_after_each_act(rt: HostRuntime) -> Result<(), Fail> {
    let alloc = rt.alloc();
    for acts in 0..80u64 {
        let after = format!(in alloc; "{acts}")?;
        let text = stopped(&rt, alloc, FIRST, "1", "64", &after)?;
        is_run_alone(&rt, alloc, &text, PLAIN, "a 5 7\n", Status::Ended)?;
    }
    Ok(())
}
