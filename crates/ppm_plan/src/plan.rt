//! Fault plans.
ghost use Rattle.std.specs.Prelude.{◌≡◌, ◌≤◌, ◌<◌, IfOk, IfErr};
ghost use Rattle.std.specs.Int.{IsInRange};
ghost use Rattle.ppm_plan.specs.Forms.{plan_form};
ghost use Rattle.ppm_plan.specs.Refusals.{IsAccepted, IsRefused, IsKeeper};
ghost use Rattle.ppm_plan.specs.Faults.{fault_at, IsNextFault};

use crate::fault::Fault;
use crate::fault_table::{FaultTable, look_up, next_turn, table_of};
use crate::judging::keeper_of;
use crate::plan_error::PlanError;
use crate::plan_item::PlanItem;
use crate::reading::read_items;
use ppm_words::NoMemory;
use std::alloc::Global;
use std::marker::Model;

/// A fault plan: which faults befall which turns of which processors. Some processor has no hard
/// fault. It is seen as the number of processors for which it is, and its items in the order of the
/// text.
#[derive(Debug, Drop)]
pub struct Plan {
    items: Vec<PlanItem>,
    faults: FaultTable,
    processors: u32,
    keeper: u32,
}

impl Model for Plan {
    ghost use Rattle.std.specs.Prelude.{◌<◌};
    ghost use Rattle.ppm_plan.specs.Forms.{plan_form};
    ghost use Rattle.ppm_plan.specs.Refusals.{IsKeeper};
    ghost use Rattle.ppm_plan.specs.Tables.{Shows};
    ghost use Rattle.ppm_plan.specs.Schedules.{Planned};

    ghost Value = { Planned };

    ghost view = { λ p. record { processors = p.processors; items = p.items.items } };

    ghost invariant = { λ p. IsKeeper plan_form p.items.items p.keeper × (p.keeper < p.processors) × Shows p.faults p.items.items };
}

impl Plan {
    /// The plan of these items, whose keeper is known.
    pub(crate) fn with_keeper(
        alloc: Global,
        items: Vec<PlanItem>,
        processors: u32,
        keeper: u32,
    ) -> Result<Plan, NoMemory>
        requires kept { IsKeeper plan_form items.items keeper }
        requires below { keeper < processors }
        ensures items { IfOk result (λ plan. plan.items ≡ items.items) }
        ensures processors { IfOk result (λ plan. plan.processors ≡ processors) }
    {
        let faults = table_of(alloc, &items)?;
        Ok(Plan {
            items,
            faults,
            processors,
            keeper,
        })
    }

    /// The fault of a turn of a processor, both from 0. Of two items for one turn a hard one wins.
    /// The time grows as the logarithm of the number of items.
    pub fn at(&self, processor: u32, turn: u32) -> Option<Fault>
        ensures { result ≡ fault_at self.now.items processor turn }
    {
        look_up(&self.faults, processor, turn)
    }

    /// The least turn of a processor, from a turn on, for which it has a fault, both from 0; `None`
    /// where there is none. The time grows as the logarithm of the number of items.
    pub fn next_fault(&self, processor: u32, from: u32) -> Option<u32>
        ensures { IsNextFault self.now.items processor from result }
    {
        next_turn(&self.faults, processor, from)
    }

    /// For how many processors it is.
    pub fn processors(&self) -> u32
        ensures { result ≡ self.now.processors }
    {
        self.processors
    }

    /// The least processor without a hard fault.
    pub fn keeper(&self) -> u32
        ensures keeper { IsKeeper plan_form self.now.items result }
        ensures below { result < self.now.processors }
    {
        self.keeper
    }

    /// The items, in the order of the text.
    pub fn items(&self) -> &[PlanItem]
        ensures { result.now ≡ self.now.items }
    {
        &self.items
    }
}

/// The plan that a text says for `processors` processors, from 1 to 64: `none`, or items `c@ts`
/// (processor c, its turn t from 0, a soft fault) or `c@th` (a hard one) with commas between them.
/// `Err` with the one reason why it is none.
pub fn read_plan(alloc: Global, text: &[u8], processors: u32) -> Result<Plan, PlanError>
    requires { IsInRange 1 64 processors }
    ensures plan { IfOk result (λ plan. IsAccepted plan_form text.now processors plan.items) }
    ensures processors { IfOk result (λ plan. plan.processors ≡ processors) }
    ensures refused { IfErr result (IsRefused plan_form text.now processors) }
{
    let items: Vec<PlanItem> = read_items(alloc, text)?;
    let keeper = keeper_of(&items, processors)?;
    let plan = Plan::with_keeper(alloc, items, processors, keeper)?;
    Ok(plan)
}
