//! Which frames and fork blocks are shown, as a mark for each address.
ghost use Rattle.std.specs.Prelude.{◌≡◌, [], ◌∷◌, IfOk, false, length, replicate, slice_get};
ghost use Rattle.ppm_cells.specs.Cells.{word_count};
ghost use Rattle.ppm_show.specs.Paths.{AreMoreMarked, IsClosed, is_unset, to_mark as still_to_mark};
ghost use Rattle.ppm_show.specs.Routes.{branches, leads_to as end_leads_to, marks_of, on_routes};
ghost use Rattle.ppm_show.specs.Routes.{route, shown_blocks};

use crate::routes::{begun_at, leads_to, left_lasts, right_lasts};
use ppm_lines::Scene;
use ppm_words::NoMemory;
use std::alloc::Global;

/// Marks the address, if there is such a word.
fn mark(marks: &mut Vec<bool>, at: u64)
    ensures { AreMoreMarked (at ∷ []) marks.old.items marks.new.items }
{
    let at = at as usize;
    if at < marks.len() {
        marks[at] = true;
    }
}

/// Whether there is such a word that isn't marked.
fn is_unmarked(marks: &[bool], at: u32) -> bool
    ensures { result ≡ is_unset (slice_get marks.now at) }
{
    match marks.get(at as usize) {
        None => false,
        Some(is_marked) => !*is_marked,
    }
}

/// The address, if it has still to be marked.
fn to_mark(marks: &[bool], from: Option<u32>) -> Option<u32>
    ensures { result ≡ still_to_mark marks.now from }
{
    let Some(at) = from else {
        return None;
    };
    if is_unmarked(marks, at) {
        Some(at)
    } else {
        None
    }
}

/// Marks a route, as far as it isn't marked: what is marked has the rest of its route marked too.
fn mark_route(marks: &mut Vec<bool>, scene: &Scene, from: Option<u32>)
    requires count { length marks.old.items ≡ word_count scene.now.shape }
    requires closed { IsClosed (end_leads_to scene.now) marks.old.items }
    ensures closed { IsClosed (end_leads_to scene.now) marks.new.items }
    ensures marked { AreMoreMarked (route scene.now from) marks.old.items marks.new.items }
{
    let mut next = from;
    for step in 0..scene.word_count() {
        let Some(at) = to_mark(marks, next) else {
            return;
        };
        mark(marks, u64::from(at));
        next = leads_to(scene, at);
    }
}

/// The marks of all that lies on a route.
fn route_marks(alloc: Global, scene: &Scene) -> Result<Vec<bool>, NoMemory>
    ensures { IfOk result (λ marks. AreMoreMarked (on_routes scene.now)
        (replicate (word_count scene.now.shape) false) marks.items) }
{
    let count = scene.word_count();
    let mut marks = Vec::from_elem(alloc, false, count as usize)?;
    for at in 0..count {
        mark_route(&mut marks, scene, begun_at(scene, at));
    }
    Ok(marks)
}

/// Marks the frames of the branches of a fork block that aren't over.
fn mark_branches(marks: &mut Vec<bool>, scene: &Scene, block: u32)
    ensures { AreMoreMarked (branches scene.now block) marks.old.items marks.new.items }
{
    if !scene.is_fork_block(block) {
        return;
    }
    if left_lasts(scene, block) {
        mark(marks, u64::from(block) + 5);
    }
    if right_lasts(scene, block) {
        let offset = scene.word_at(u64::from(block) + 4);
        mark(marks, u64::from(block).saturating_add(offset));
    }
}

/// The marks of all frames and fork blocks that are shown.
pub(crate) fn shown_marks(alloc: Global, scene: &Scene) -> Result<Vec<bool>, NoMemory>
    ensures { IfOk result (λ marks. marks.items ≡ marks_of scene.now (shown_blocks scene.now)) }
{
    let on_route = route_marks(alloc, scene)?;
    let mut marks = Vec::from_slice(alloc, &on_route)?;
    for at in 0..scene.word_count() {
        if on_route[at as usize] {
            mark_branches(&mut marks, scene, at);
        }
    }
    Ok(marks)
}
