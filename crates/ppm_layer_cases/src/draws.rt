//! What is drawn at random or made by a rule: victims, plans, and the source of an example.
use crate::said::{Said, number_at};
use ppm_plan::{PlanItem, Victims, make_source, seeded_plan};
use ppm_sheets::{Call, Fault};
use rand_core::SeedableRng;
use rand_core::utils::NextWord;
use rand_xoshiro::Xoshiro256PlusPlus;
use std::alloc::Global;

/// `drawn SEED N COUNT`: the items of a plan for N processors, a line each.
pub(crate) fn drawn(alloc: Global, call: &Call) -> Result<Said, Fault> {
    let seed = number_at(call, 1)?;
    let processors = number_at(call, 2)?;
    let count = number_at(call, 3)?;
    if processors < 1 || processors > 64 {
        return Err(Fault::Line("a plan is for 1 to 64 processors"));
    }
    if count > 4096 {
        return Err(Fault::Line("a plan has 4096 items at most"));
    }
    let Ok(plan) = seeded_plan(alloc, seed, processors, count) else {
        return Err(Fault::NoMemory);
    };
    let mut text = Vec::new(alloc);
    for item in plan.items() {
        push_item(alloc, &mut text, *item)?;
    }
    Ok(Said::Out(text))
}

/// Puts the line of an item after others, as a plan has it.
fn push_item(alloc: Global, text: &mut Vec<u8>, item: PlanItem) -> Result<(), Fault> {
    let PlanItem {
        processor,
        turn,
        fault,
    } = item;
    let letter = if fault.is_hard() { "h" } else { "s" };
    let line = format!(in alloc; "{processor}@{turn}{letter}\n")?;
    text.extend_from_slice(line.as_bytes())?;
    Ok(())
}

/// `victims SEED C N COUNT`: the first victims of processor C among N, a line each.
pub(crate) fn victims(alloc: Global, call: &Call) -> Result<Said, Fault> {
    let seed = number_at(call, 1)?;
    let processor = number_at(call, 2)?;
    let processors = number_at(call, 3)?;
    let count = number_at(call, 4)?;
    if processors < 1 || processors > 64 {
        return Err(Fault::Line("there are 1 to 64 processors"));
    }
    if processor >= processors {
        return Err(Fault::Line("there is no such processor"));
    }
    let mut victims = Victims::new(seed, processor, processors);
    let mut text = String::new(alloc);
    for _ in 0..count {
        let victim = victims.next();
        text.push_str(&format!(in alloc; "{victim}\n")?)?;
    }
    Said::of_text(alloc, &text)
}

/// `random SEED COUNT`: the first words that are drawn, a line each.
pub(crate) fn random(alloc: Global, call: &Call) -> Result<Said, Fault> {
    let seed = number_at(call, 1)?;
    let count = number_at(call, 2)?;
    let mut words = Xoshiro256PlusPlus::seed_from_u64(u64::from(seed));
    let mut text = String::new(alloc);
    for _ in 0..count {
        let word = words.next_word();
        text.push_str(&format!(in alloc; "{word}\n")?)?;
    }
    Said::of_text(alloc, &text)
}

/// `source SIZE SEED`: the source of the example with so many values.
pub(crate) fn source(alloc: Global, call: &Call) -> Result<Said, Fault> {
    let size = number_at(call, 1)?;
    let seed = number_at(call, 2)?;
    if size < 1 || size > 4096 {
        return Err(Fault::Line("an example has 1 to 4096 values"));
    }
    match make_source(alloc, size, seed) {
        Ok(text) => Ok(Said::Out(text)),
        Err(_) => Err(Fault::NoMemory),
    }
}
