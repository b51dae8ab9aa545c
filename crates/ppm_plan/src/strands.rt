//! Schedules of strands.
ghost use Rattle.std.specs.Prelude.{IfOk, IfErr};
ghost use Rattle.ppm_plan.specs.Refusals.{IsAccepted, IsRefused};
ghost use Rattle.ppm_plan.specs.Strands.{strand_form};

use crate::judging::keeper_of;
use crate::plan_error::PlanError;
use crate::reading::read_items;
use crate::strand_item::StrandItem;
use std::alloc::Global;

/// The schedule of strands that a text says: `none`, or items with commas between them. An item is
/// a step `c` of strand c, perhaps with `*n` after it (n from 1 to 268,435,456), or a soft fault
/// `c!s`. A strand may be forked later, so any number below 2^32 names one. `Err` with the one
/// reason why the text is none: its first item that is not of the form, or more than 4,096 items.
pub fn read_strands(alloc: Global, text: &[u8]) -> Result<Vec<StrandItem>, PlanError>
    ensures items { IfOk result (λ items. IsAccepted strand_form text.now 1 items.items) }
    ensures refused { IfErr result (IsRefused strand_form text.now 1) }
{
    let items: Vec<StrandItem> = read_items(alloc, text)?;
    let _ = keeper_of(&items, 1)?;
    Ok(items)
}
