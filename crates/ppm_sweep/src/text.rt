//! The text of a schedule.
ghost use Rattle.std.specs.Prelude.{◌≡◌, ◌++◌, ◌∷◌, [], OnOk, IfOk};
ghost use Rattle.ppm_plan.specs.Items.{act_text, letter_of as letter_by, victim_text};
ghost use Rattle.ppm_sweep.specs.Text.{SchedulesAreWritten};
ghost use Rattle.ppm_sweep.specs.Text.{item_text, items_text, schedule_text};

use ppm_pieces::push_number;
use ppm_plan::{Fault, ScheduleItem, ScheduledAct};
use ppm_words::NoMemory;
use std::alloc::Global;

/// The letter of a fault.
fn letter_of(fault: Fault) -> u8
    ensures { result ≡ letter_by fault }
{
    match fault {
        Fault::Soft => 115,
        Fault::Hard => 104,
    }
}

/// Appends a victim after its sign, where one is stated.
fn push_victim(text: &mut Vec<u8>, victim: Option<u32>) -> Result<(), NoMemory>
    ensures { OnOk result (text.new.items ≡ text.old.items ++ victim_text victim) }
{
    if let Some(victim) = victim {
        text.push(62)?;
        push_number(text, u64::from(victim))?;
    }
    Ok(())
}

/// Appends an act.
fn push_act(text: &mut Vec<u8>, act: ScheduledAct) -> Result<(), NoMemory>
    ensures { OnOk result (text.new.items ≡ text.old.items ++ act_text act) }
{
    match act {
        ScheduledAct::Step { processor, victim } => {
            push_number(text, u64::from(processor))?;
            push_victim(text, victim)?;
            Ok(())
        }
        ScheduledAct::Fails { processor, fault } => {
            push_number(text, u64::from(processor))?;
            text.push(33)?;
            text.push(letter_of(fault))?;
            Ok(())
        }
    }
}

/// Appends an item.
fn push_item(text: &mut Vec<u8>, item: ScheduleItem) -> Result<(), NoMemory>
    ensures { OnOk result (text.new.items ≡ text.old.items ++ item_text item) }
{
    push_act(text, item.act)?;
    if item.times == 1 {
        return Ok(());
    }
    text.push(42)?;
    push_number(text, u64::from(item.times))?;
    Ok(())
}

/// The text of a schedule: its items with commas between them, or `none`.
pub fn write_schedule(alloc: Global, items: &[ScheduleItem]) -> Result<Vec<u8>, NoMemory>
    ensures { IfOk result (λ text. text.items ≡ schedule_text items.now) }
{
    let [first, others @ ..] = items else {
        let none = Vec::from_slice(alloc, b"none")?;
        return Ok(none);
    };
    let mut text = Vec::new(alloc);
    push_item(&mut text, *first)?;
    let mut left = others;
    while let [item, rest @ ..] = left {
        text.push(44)?;
        push_item(&mut text, *item)?;
        left = rest;
    }
    Ok(text)
}

/// The text of a schedule is read back as its items.
pub fn schedules_are_written()
    ensures law { SchedulesAreWritten }
{}
