//! What is counted in a run on threads.
ghost use Rattle.std.specs.Prelude.{◌≡◌, ◌<◌, ◌≤◌, if◌then◌else◌};
ghost use Rattle.std.specs.List.{list_any};
ghost use Rattle.ppm_plan.specs.Faults.{is_at as is_item_at};
ghost use Rattle.ppm_following.specs.Room.{given_by as given, larger, most_given as most};
ghost use Rattle.ppm_outcomes.specs.RunCounts.{counts_told};
ghost use Rattle.ppm_outcomes.specs.Strikes.{fault_count};

use ppm_answers::RunCounts;
use ppm_cells::Cell;
use ppm_plan::PlanItem;
use ppm_table::{ActCounts, Closed};

/// Whether an item is of this turn of a processor.
fn is_at(processor: u32, turn: u32, item: PlanItem) -> bool
    ensures { result ≡ is_item_at processor turn item }
{
    item.processor == processor && item.turn == turn
}

/// Whether some of these items is.
fn is_any_at(processor: u32, turn: u32, items: &[PlanItem]) -> bool
    ensures { result ≡ list_any (is_item_at processor turn) items.now }
{
    let mut left = items;
    while let [item, rest @ ..] = left {
        if is_at(processor, turn, *item) {
            return true;
        }
        left = rest;
    }
    false
}

/// One for an item whose turn none of the others has.
fn one_of(item: PlanItem, others: &[PlanItem]) -> usize
    ensures value { result ≡ (if list_any (is_item_at item.processor item.turn) others.now then 0 else 1) }
    ensures few { result ≤ 1 }
{
    if is_any_at(item.processor, item.turn, others) {
        0
    } else {
        1
    }
}

/// For how many turns of processors the items of a plan have a fault.
fn planned_faults(items: &[PlanItem]) -> u64
    ensures { result ≡ fault_count items.now }
{
    let mut count: usize = 0;
    let mut left = items;
    while let [item, rest @ ..] = left {
        count += one_of(*item, rest);
        left = rest;
    }
    count as u64
}

/// How many words the pool of a place has given out.
fn given_by(closed: &Closed, place: u32) -> u64
    requires { place < closed.now.shape.processors }
    ensures { result ≡ given closed.now.shape closed.now.words place }
{
    let shape = closed.shape();
    let at = shape.address(Cell::RoomCounter { place });
    closed
        .word(at)
        .saturating_sub(u64::from(shape.pool_at(place)))
}

/// The larger of two numbers.
fn larger(a: u64, b: u64) -> u64
    ensures { result ≡ larger a b }
{
    if a < b { b } else { a }
}

/// The most that a pool has given out.
fn most_given(closed: &Closed) -> u64
    ensures { result ≡ most closed.now.shape closed.now.words closed.now.shape.processors }
{
    let processors = closed.shape().processors;
    let mut most = 0;
    let mut place = 0;
    while place < processors {
        most = larger(most, given_by(closed, place));
        place += 1;
    }
    most
}

/// The counts of a run by the items of a plan, in which the processors together counted these acts,
/// and whose words were closed so.
pub fn run_counts(counts: ActCounts, items: &[PlanItem], closed: &Closed) -> RunCounts
    ensures { result ≡ counts_told counts (fault_count items.now) closed.now.shape closed.now.words }
{
    RunCounts {
        acts: counts.acts,
        work: counts.work,
        looks: counts.acts.saturating_sub(counts.work),
        forks: counts.forks,
        takes: counts.takes,
        stolen: counts.stolen,
        takeovers: counts.takeovers,
        soft: counts.soft,
        hard: counts.hard,
        missed: planned_faults(items)
            .saturating_sub(counts.soft)
            .saturating_sub(counts.hard),
        room: most_given(closed),
    }
}
