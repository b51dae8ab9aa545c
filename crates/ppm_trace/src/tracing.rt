//! A trace.
ghost use Rattle.std.specs.Prelude.{◌≡◌, ◌≤◌, ◌+◌, ◌^◌, IfOk, OnOk};
ghost use Rattle.ppm_choice.specs.Schedules.{schedule_turns};
ghost use Rattle.ppm_core.specs.Machine.{seen};
ghost use Rattle.ppm_core.specs.Situation.{run_on};
ghost use Rattle.ppm_trace.specs.Json.{trace_as, trace_events};
ghost use Rattle.ppm_trace.specs.Picture.{trace_picture};
ghost use Rattle.ppm_trace.specs.Trace.{trace_text};

use crate::counts::Counts;
use crate::ends::{push_head, push_tail};
use crate::hearing::follow_heard;
use crate::picture::picture;
use crate::tale::{Excerpt, Tale};
use crate::teller::Teller;
use ppm_core::Machine;
use ppm_lines::{Form, Only, push_json_head, push_json_tail};
use ppm_naming::Names;
use ppm_plan::Schedule;
use ppm_words::NoMemory;
use std::alloc::Global;

/// The trace of a run as lines: a line for each act that is told and shown.
fn trace_lines(
    alloc: Global,
    machine: &mut Machine,
    schedule: &Schedule,
    names: &Names,
    only: Only,
    from: u64,
    acts: u64,
) -> Result<Vec<u8>, NoMemory>
    requires processors { schedule.now.processors ≡ (seen machine.old).shape.processors }
    requires acts { from + acts ≤ 2 ^ 40 }
    requires few { (seen machine.old).turns ≤ 2 ^ 61 }
    ensures text { IfOk result (λ text. text.items
        ≡ trace_text names.now only from (seen machine.old)
        (schedule_turns (seen machine.old).shape (seen machine.old).code (seen machine.old).state schedule.now.items (from + acts))) }
    ensures made { OnOk result (seen machine.new ≡ run_on (seen machine.old)
        (schedule_turns (seen machine.old).shape (seen machine.old).code (seen machine.old).state schedule.now.items (from + acts))) }
{
    let mut tale = Tale {
        text: Vec::new(alloc),
        strokes: Vec::new(alloc),
        counts: Counts::none(),
    };
    push_head(&mut tale.text, &machine.shape(), from)?;
    let excerpt = Excerpt {
        form: Some(Form::Lines(only)),
        from,
    };
    let teller = Teller { names, excerpt };
    follow_heard(alloc, machine, schedule, from + acts, &teller, &mut tale)?;
    push_tail(alloc, &mut tale.text, tale.counts, machine.finish_word())?;
    Ok(tale.text)
}

/// The trace of a run in the trace event format: the events of each act that is told.
fn trace_json(
    alloc: Global,
    machine: &mut Machine,
    schedule: &Schedule,
    names: &Names,
    from: u64,
    acts: u64,
) -> Result<Vec<u8>, NoMemory>
    requires processors { schedule.now.processors ≡ (seen machine.old).shape.processors }
    requires acts { from + acts ≤ 2 ^ 40 }
    requires few { (seen machine.old).turns ≤ 2 ^ 61 }
    ensures text { IfOk result (λ text. text.items
        ≡ trace_events names.now from (seen machine.old)
        (schedule_turns (seen machine.old).shape (seen machine.old).code (seen machine.old).state schedule.now.items (from + acts))) }
    ensures made { OnOk result (seen machine.new ≡ run_on (seen machine.old)
        (schedule_turns (seen machine.old).shape (seen machine.old).code (seen machine.old).state schedule.now.items (from + acts))) }
{
    let mut tale = Tale {
        text: Vec::new(alloc),
        strokes: Vec::new(alloc),
        counts: Counts::none(),
    };
    push_json_head(&mut tale.text, machine.processors())?;
    let excerpt = Excerpt {
        form: Some(Form::Events),
        from,
    };
    let teller = Teller { names, excerpt };
    follow_heard(alloc, machine, schedule, from + acts, &teller, &mut tale)?;
    push_json_tail(&mut tale.text)?;
    Ok(tale.text)
}

/// The trace of a run as a picture.
fn trace_svg(
    alloc: Global,
    machine: &mut Machine,
    schedule: &Schedule,
    names: &Names,
    from: u64,
    acts: u64,
) -> Result<Vec<u8>, NoMemory>
    requires processors { schedule.now.processors ≡ (seen machine.old).shape.processors }
    requires acts { from + acts ≤ 2 ^ 40 }
    requires few { (seen machine.old).turns ≤ 2 ^ 61 }
    ensures text { IfOk result (λ text. text.items
        ≡ trace_picture names.now from (seen machine.old)
        (schedule_turns (seen machine.old).shape (seen machine.old).code (seen machine.old).state schedule.now.items (from + acts))) }
    ensures made { OnOk result (seen machine.new ≡ run_on (seen machine.old)
        (schedule_turns (seen machine.old).shape (seen machine.old).code (seen machine.old).state schedule.now.items (from + acts))) }
{
    let mut tale = Tale {
        text: Vec::new(alloc),
        strokes: Vec::new(alloc),
        counts: Counts::none(),
    };
    let excerpt = Excerpt {
        form: Some(Form::Picture),
        from,
    };
    let teller = Teller { names, excerpt };
    follow_heard(alloc, machine, schedule, from + acts, &teller, &mut tale)?;
    let shape = machine.shape();
    let text = picture(alloc, &shape, names, from, &tale, machine.finish_word())?;
    Ok(text)
}

/// Makes the run of a schedule, of `from` and `acts` acts at most, and answers its trace in this
/// form: from act `from` on, counted since the machine was loaded. `Err` only where memory is
/// refused.
pub fn trace(
    alloc: Global,
    machine: &mut Machine,
    schedule: &Schedule,
    names: &Names,
    form: Form,
    from: u64,
    acts: u64,
) -> Result<Vec<u8>, NoMemory>
    requires processors { schedule.now.processors ≡ (seen machine.old).shape.processors }
    requires acts { from + acts ≤ 2 ^ 40 }
    requires few { (seen machine.old).turns ≤ 2 ^ 61 }
    ensures text { IfOk result (λ text. text.items
        ≡ trace_as names.now form from (seen machine.old)
        (schedule_turns (seen machine.old).shape (seen machine.old).code (seen machine.old).state schedule.now.items (from + acts))) }
    ensures made { OnOk result (seen machine.new ≡ run_on (seen machine.old)
        (schedule_turns (seen machine.old).shape (seen machine.old).code (seen machine.old).state schedule.now.items (from + acts))) }
{
    match form {
        Form::Lines(only) => trace_lines(alloc, machine, schedule, names, only, from, acts),
        Form::Events => trace_json(alloc, machine, schedule, names, from, acts),
        Form::Picture => trace_svg(alloc, machine, schedule, names, from, acts),
    }
}
