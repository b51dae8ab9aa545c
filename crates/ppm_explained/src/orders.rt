//! `explain` of a plan or a schedule.
ghost use Rattle.std.specs.Prelude.{◌≡◌, IfErr, IfOk, true};
ghost use Rattle.std.specs.Int.{IsInRange};
ghost use Rattle.ppm_plan.specs.Correct.{is_of_text, SomeAccepted};
ghost use Rattle.ppm_plan.specs.Forms.{plan_form, schedule_form};
ghost use Rattle.ppm_ports.specs.Ports.{Port, port};
ghost use Rattle.ppm_ports.specs.Outside.{ports};
ghost use Rattle.ppm_answers.specs.Reading.{IsUnread, TextMay};
ghost use Rattle.ppm_cli.specs.Words.{AreExplained};
ghost use Rattle.ppm_explained.specs.Orders.{AreToldWhy, IsDisorderly, IsOrderly, IsRefusedFor};
ghost use Rattle.ppm_explained.specs.Orders.{OrdersHave};

use crate::laws::orders_have_one_answer;
use ppm_answers::{Answer, Refused, Status, deliver};
use ppm_cli::{ExplainOptions, ExplainedOrders};
use ppm_notes::orders_notes;
use ppm_plan::{PlanError, read_plan, read_schedule};
use ppm_ports::Sink;
use ppm_words::{Items, NoMemory};
use std::alloc::Global;

/// Judges a plan or a schedule for so many processors as `run` and `replay` do: `ok` is written on
/// `out` where it may be obeyed; else the line of its refusal is written on `err`, and after it the
/// item at fault with a mark under it, and what the refusal means. It reads nothing.
pub fn explain_orders_command<K: Sink, E: Sink>(
    alloc: Global,
    options: ExplainOptions,
    text: &[u8],
    out: &mut K,
    err: &mut E,
) -> Status
    requires options { AreExplained options }
    // An answer that the command's causes allow is delivered, and its rows hold, whatever source there
    // is that is not read.
    ensures { (source : Port) → IsUnread source → AreToldWhy options text.now (ports source
        (port K.written K.fault_count out.old out.new) (port E.written E.fault_count err.old err.new)) result }
{
    // The rows rest on this law; the call does nothing.
    orders_have_one_answer();
    let answer = orders_answer(alloc, options, text);
    deliver(alloc, &answer, out, err)
}

/// What is said of a plan or a schedule.
fn orders_answer(alloc: Global, options: ExplainOptions, text: &[u8]) -> Answer
    requires options { AreExplained options }
    ensures { TextMay (OrdersHave options) text.now result }
{
    match judge(alloc, options.orders, options.processors, text) {
        Ok(()) => Answer::Accepted,
        Err(error) => error_answer(alloc, options, text, error),
    }
}

/// Why a plan may not be obeyed by so many processors, if it may not.
fn judge_plan(alloc: Global, processors: u32, text: &[u8]) -> Result<(), PlanError>
    requires range { IsInRange 1 64 processors }
    ensures ok { IfOk result (λ done. SomeAccepted plan_form text.now processors) }
    ensures err { IfErr result (λ e. is_of_text e ≡ true → IsRefusedFor plan_form processors text.now e) }
{
    match read_plan(alloc, text, processors) {
        Ok(_) => Ok(()),
        Err(error) => Err(error),
    }
}

/// Why a schedule may not be obeyed by so many processors, if it may not.
fn judge_schedule(alloc: Global, processors: u32, text: &[u8]) -> Result<(), PlanError>
    requires range { IsInRange 1 64 processors }
    ensures ok { IfOk result (λ done. SomeAccepted schedule_form text.now processors) }
    ensures err { IfErr result (λ e. is_of_text e ≡ true → IsRefusedFor schedule_form processors text.now e) }
{
    match read_schedule(alloc, text, processors) {
        Ok(_) => Ok(()),
        Err(error) => Err(error),
    }
}

/// Why a plan or a schedule may not be obeyed by so many processors, if it may not.
fn judge(
    alloc: Global,
    orders: ExplainedOrders,
    processors: u32,
    text: &[u8],
) -> Result<(), PlanError>
    requires range { IsInRange 1 64 processors }
    ensures ok { IfOk result (λ done. IsOrderly orders processors text.now) }
    ensures err { IfErr result (λ e. is_of_text e ≡ true → IsDisorderly orders processors text.now e) }
{
    match orders {
        ExplainedOrders::Plan => judge_plan(alloc, processors, text),
        ExplainedOrders::Schedule => judge_schedule(alloc, processors, text),
    }
}

/// What is said of a plan or a schedule that may not be obeyed, unless memory was refused.
fn error_answer(alloc: Global, options: ExplainOptions, text: &[u8], error: PlanError) -> Answer
    requires refused { is_of_text error ≡ true
        → IsDisorderly options.orders options.processors text.now error }
    ensures { TextMay (OrdersHave options) text.now result }
{
    match error {
        PlanError::NoMemory => Answer::NoMemory,
        PlanError::BadItem(_)
        | PlanError::NoSuchProcessor(_)
        | PlanError::TooManyFaults
        | PlanError::AllKilled => refused_answer(alloc, options, text, error),
    }
}

/// What is said of a plan or a schedule that is refused for this error.
fn refused_answer(alloc: Global, options: ExplainOptions, text: &[u8], error: PlanError) -> Answer
    requires refused { IsDisorderly options.orders options.processors text.now error }
    ensures { TextMay (OrdersHave options) text.now result }
{
    match orders_notes(alloc, options.orders, options.processors, text, error) {
        Ok(notes) => Answer::Explained(Refused::Plan(error.number()), Items::from_vec(notes)),
        Err(NoMemory) => Answer::NoMemory,
    }
}
