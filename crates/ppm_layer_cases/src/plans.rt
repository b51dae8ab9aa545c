//! Plans and schedules: their keeper, their faults and items, and which item is refused.
ghost use Rattle.std.specs.Prelude.{IfOk};
ghost use Rattle.std.specs.Int.{IsInRange};

use crate::said::{Said, number_at};
use ppm_plan::{
    Fault as Struck, Plan, PlanError, Schedule, ScheduleItem, ScheduledAct, read_plan,
    read_schedule,
};
use ppm_sheets::{Call, Fault};
use std::alloc::Global;

/// For how many processors a plan is, which the second word gives.
fn processors(call: &Call) -> Result<u32, Fault>
    ensures { IfOk result (IsInRange 1 64) }
{
    let count = number_at(call, 1)?;
    if count < 1 || count > 64 {
        return Err(Fault::Line("a plan is for 1 to 64 processors"));
    }
    Ok(count)
}

/// The plan that a call reads, or why it is none.
fn plan_of(alloc: Global, call: &Call) -> Result<Result<Plan, PlanError>, Fault> {
    let count = processors(call)?;
    Ok(read_plan(alloc, &call.input, count))
}

/// The schedule that a call reads, or why it is none.
fn schedule_of(alloc: Global, call: &Call) -> Result<Result<Schedule, PlanError>, Fault> {
    let count = processors(call)?;
    Ok(read_schedule(alloc, &call.input, count))
}

/// What is said of a plan or a schedule that is refused: the number, and the error.
fn refused(alloc: Global, error: PlanError) -> Result<Said, Fault> {
    let number = error.number();
    Ok(Said::Refused(format!(in alloc; "{number} {error:?}\n")?))
}

/// The word of a fault.
fn fault_word(fault: Struck) -> &'static str {
    if fault.is_hard() { "hard" } else { "soft" }
}

/// `plan N`: the keeper of a plan for so many processors.
pub(crate) fn plan(alloc: Global, call: &Call) -> Result<Said, Fault> {
    match plan_of(alloc, call)? {
        Ok(plan) => {
            let keeper = plan.keeper();
            Said::of_text(alloc, &format!(in alloc; "keeper {keeper}\n")?)
        }
        Err(error) => refused(alloc, error),
    }
}

/// `fault N C T`: which fault processor C has at its turn T.
pub(crate) fn fault(alloc: Global, call: &Call) -> Result<Said, Fault> {
    let processor = number_at(call, 2)?;
    let turn = number_at(call, 3)?;
    match plan_of(alloc, call)? {
        Ok(plan) => {
            let word = match plan.at(processor, turn) {
                Some(fault) => fault_word(fault),
                None => "none",
            };
            Said::of_text(alloc, &format!(in alloc; "{word}\n")?)
        }
        Err(error) => refused(alloc, error),
    }
}

/// `next N C T`: the first turn of processor C from turn T on for which it has a fault.
pub(crate) fn next_fault(alloc: Global, call: &Call) -> Result<Said, Fault> {
    let processor = number_at(call, 2)?;
    let from = number_at(call, 3)?;
    match plan_of(alloc, call)? {
        Ok(plan) => match plan.next_fault(processor, from) {
            Some(turn) => Said::of_text(alloc, &format!(in alloc; "turn {turn}\n")?),
            None => Said::of_text(alloc, "none\n"),
        },
        Err(error) => refused(alloc, error),
    }
}

/// `schedule N`: the keeper of a schedule for so many processors, and how many acts it has.
pub(crate) fn schedule(alloc: Global, call: &Call) -> Result<Said, Fault> {
    match schedule_of(alloc, call)? {
        Ok(schedule) => {
            let keeper = schedule.keeper();
            let acts = schedule.act_count();
            Said::of_text(alloc, &format!(in alloc; "keeper {keeper} acts {acts}\n")?)
        }
        Err(error) => refused(alloc, error),
    }
}

/// `items N`: the items of a schedule for so many processors, a line each.
pub(crate) fn items(alloc: Global, call: &Call) -> Result<Said, Fault> {
    match schedule_of(alloc, call)? {
        Ok(schedule) => {
            let mut text = Vec::new(alloc);
            for item in schedule.items() {
                push_item(alloc, &mut text, *item)?;
            }
            Ok(Said::Out(text))
        }
        Err(error) => refused(alloc, error),
    }
}

/// Puts the line of an item after others.
fn push_item(alloc: Global, text: &mut Vec<u8>, item: ScheduleItem) -> Result<(), Fault> {
    let times = item.times;
    let line = match item.act {
        ScheduledAct::Step {
            processor,
            victim: None,
        } => format!(in alloc; "step {processor} times {times}\n")?,
        ScheduledAct::Step {
            processor,
            victim: Some(victim),
        } => format!(in alloc; "step {processor} victim {victim} times {times}\n")?,
        ScheduledAct::Fails { processor, fault } => {
            let word = fault_word(fault);
            format!(in alloc; "{word} fault {processor} times {times}\n")?
        }
    };
    text.extend_from_slice(line.as_bytes())?;
    Ok(())
}
