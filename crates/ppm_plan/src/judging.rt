//! Whether items may be obeyed by so many processors.
ghost use Rattle.std.specs.Prelude.{◌≡◌, ◌<◌, ◌≤◌, ◌^◌, ℕ, MatchOption, IfOk, IfErr, false, true};
ghost use Rattle.std.specs.Prelude.{length};
ghost use Rattle.std.specs.List.{list_any};
ghost use Rattle.ppm_plan.specs.Refusals.{first_at, is_killed as killed, IsKeeper, MayBeObeyed};
ghost use Rattle.ppm_plan.specs.Refusals.{MayNotBeObeyed};

use crate::item::Item;
use crate::plan_error::PlanError;

/// The most items of a plan or a schedule.
pub const ITEM_LIMIT: usize = 4096;

/// The first item that names a processor which is not there, from 1.
fn first_outside<T: Item>(items: &[T], processors: u32) -> Option<u64>
    requires { length items.now < 2 ^ 63 }
    ensures { result ≡ first_at (T.form.is_outside processors) 1 items.now }
{
    let mut number: u64 = 1;
    let mut left = items;
    while let [item, rest @ ..] = left {
        if item.is_outside(processors) {
            return Some(number);
        }
        number += 1;
        left = rest;
    }
    None
}

/// Whether some item kills the processor.
fn is_killed<T: Item>(items: &[T], processor: u32) -> bool
    ensures { result ≡ killed T.form processor items.now }
{
    let mut left = items;
    while let [item, rest @ ..] = left {
        if item.kills(processor) {
            return true;
        }
        left = rest;
    }
    false
}

/// The least processor that no item kills, among so many.
fn least_spared<T: Item>(items: &[T], processors: u32) -> Option<u32>
    ensures { MatchOption result
        ((c : ℕ) → c < processors → killed T.form c items.now ≡ true)
        (λ keeper. IsKeeper T.form items.now keeper × (keeper < processors)) }
{
    let mut processor = 0;
    while processor < processors {
        if !is_killed(items, processor) {
            return Some(processor);
        }
        processor += 1;
    }
    None
}

/// The keeper, if the items may be obeyed by so many processors.
pub(crate) fn keeper_of<T: Item>(items: &Vec<T>, processors: u32) -> Result<u32, PlanError>
    ensures keeper { IfOk result (MayBeObeyed T.form processors items.now.items) }
    ensures refused { IfErr result (MayNotBeObeyed T.form processors items.now.items) }
{
    if let Some(number) = first_outside(items, processors) {
        return Err(PlanError::NoSuchProcessor(number));
    }
    if items.len() > ITEM_LIMIT {
        return Err(PlanError::TooManyFaults);
    }
    match least_spared(items, processors) {
        Some(keeper) => Ok(keeper),
        None => Err(PlanError::AllKilled),
    }
}
