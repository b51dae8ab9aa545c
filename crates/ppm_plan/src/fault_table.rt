//! The faults of a plan as a table by processor and turn, so that no look at a turn goes through
//! all items.
ghost use Rattle.std.specs.Prelude.{◌≡◌, IfOk, OnOk, ℕ};
ghost use Rattle.std.specs.BTreeMap.{get};
ghost use Rattle.ppm_plan.specs.Faults.{fault_at, IsLeastFrom};
ghost use Rattle.ppm_plan.specs.Tables.{by_turn, graver as graver_of, with_item, Shows};
ghost use Rattle.ppm_plan.specs.Tables.{IsFirstFrom};

use crate::fault::Fault;
use crate::plan_item::PlanItem;
use ppm_words::NoMemory;
use std::alloc::Global;
use std::collections::BTreeMap;

/// The fault of each turn that has one, by processor and turn.
pub(crate) type FaultTable = BTreeMap<(u32, u32), Fault>;

/// The graver of a fault that was met, if any, and a further one.
fn graver(met: Option<Fault>, fault: Fault) -> Fault
    ensures { result ≡ graver_of met fault }
{
    match met {
        Some(Fault::Hard) => Fault::Hard,
        Some(Fault::Soft) => fault,
        None => fault,
    }
}

/// The fault of a turn of a processor.
pub(crate) fn look_up(table: &FaultTable, processor: u32, turn: u32) -> Option<Fault>
    ensures { result ≡ get by_turn table.now (processor, turn) }
{
    table.get(&(processor, turn)).copied()
}

/// The first key of a table from a key on.
fn first_from(table: &FaultTable, from: (u32, u32)) -> Option<(u32, u32)>
    ensures { IsFirstFrom table.now from result }
{
    match table.range(from..).next() {
        Some((key, _)) => Some(*key),
        None => None,
    }
}

/// The least turn of a processor, from a turn on, that has a fault.
pub(crate) fn next_turn(table: &FaultTable, processor: u32, from: u32) -> Option<u32>
    ensures { IsLeastFrom (λ turn. get by_turn table.now (processor, turn)) from result }
{
    match first_from(table, (processor, from)) {
        Some((owner, turn)) => { if owner == processor { Some(turn) } else { None } }
        None => None,
    }
}

/// Puts an item more into a table.
fn put(table: &mut FaultTable, item: PlanItem) -> Result<(), NoMemory>
    ensures { OnOk result ((processor turn : ℕ)
        → get by_turn table.new (processor, turn)
        ≡ with_item (get by_turn table.old (processor, turn)) item processor turn) }
{
    let met = look_up(table, item.processor, item.turn);
    table.insert((item.processor, item.turn), graver(met, item.fault))?;
    Ok(())
}

/// The table of some items.
pub(crate) fn table_of(alloc: Global, items: &[PlanItem]) -> Result<FaultTable, NoMemory>
    ensures { IfOk result (λ table. Shows table items.now) }
{
    let mut table: FaultTable = BTreeMap::new(alloc);
    let mut left = items;
    while let [item, rest @ ..] = left {
        put(&mut table, *item)?;
        left = rest;
    }
    Ok(table)
}
