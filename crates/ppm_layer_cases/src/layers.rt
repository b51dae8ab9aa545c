//! The layers, by the first word of a call.
use crate::answers::answer;
use crate::commands::command;
use crate::draws::{drawn, random, source, victims};
use crate::listings::{listing, saved};
use crate::plans::{fault, items, next_fault, plan, schedule};
use crate::said::Said;
use crate::steps::step;
use crate::texts::{text, tree};
use ppm_sheets::{Call, Fault, Shown, Unmade};
use std::alloc::Global;

/// What the layer of a call's first word shows, or why there is no such call.
pub(crate) fn tried(alloc: Global, call: &Call) -> Result<Shown, Unmade> {
    let shown = shown(alloc, call)?;
    Ok(shown)
}

/// What the layer of a call's first word shows.
fn shown(alloc: Global, call: &Call) -> Result<Shown, Fault> {
    let first = match call.words.first() {
        Some(first) => first.as_str(),
        None => "",
    };
    if first == "answer" {
        return answer(alloc, call);
    }
    said(alloc, first, call)?.shown(alloc)
}

/// What the layer of a first word says; without such a layer the words are those of a command.
fn said(alloc: Global, first: &str, call: &Call) -> Result<Said, Fault> {
    match first {
        "plan" => plan(alloc, call),
        "fault" => fault(alloc, call),
        "next" => next_fault(alloc, call),
        "schedule" => schedule(alloc, call),
        "items" => items(alloc, call),
        "drawn" => drawn(alloc, call),
        "victims" => victims(alloc, call),
        "random" => random(alloc, call),
        "source" => source(alloc, call),
        "text" => text(alloc, &call.input),
        "tree" => tree(alloc, &call.input),
        "listing" => listing(alloc, &call.input),
        "saved" => saved(alloc, &call.input),
        "step" => step(alloc, call),
        _ => command(alloc, &call.words),
    }
}
