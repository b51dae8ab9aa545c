//! Plans drawn at random.
ghost use Rattle.std.specs.Prelude.{◌≡◌, ◌≤◌, IfOk, OnOk, zero};
ghost use Rattle.std.specs.Int.{IsInRange};
ghost use Rattle.ppm_plan.specs.Draws.{seeded, items_drawn, item_drawn, fault_drawn as drawn};

use crate::fault::Fault;
use crate::plan::Plan;
use crate::plan_item::PlanItem;
use ppm_words::NoMemory;
use rand_core::SeedableRng;
use rand_core::utils::NextWord;
use rand_xoshiro::Xoshiro256PlusPlus;
use std::alloc::Global;

/// Hard for one word in eight, but never of processor 0.
fn fault_drawn(processor: u32, word: u64) -> Fault
    ensures { result ≡ drawn processor word }
{
    if word % 8 == 0 && !(processor == 0) {
        Fault::Hard
    } else {
        Fault::Soft
    }
}

/// The fault that three words give.
fn item_of(processors: u32, u: u64, v: u64, z: u64) -> PlanItem
    requires { IsInRange 1 64 processors }
    ensures { result ≡ item_drawn processors u v z }
{
    let processor = (u % u64::from(processors)) as u32;
    PlanItem {
        processor,
        turn: (v % 65536) as u32,
        fault: fault_drawn(processor, z),
    }
}

/// Draws so many items.
fn draw(
    alloc: Global,
    words: Xoshiro256PlusPlus,
    processors: u32,
    count: u32,
) -> Result<Vec<PlanItem>, NoMemory>
    requires { IsInRange 1 64 processors }
    ensures { IfOk result (λ items. items.items ≡ items_drawn processors count words) }
{
    let mut words = words;
    let mut items = Vec::new(alloc);
    let mut left = count;
    while left > 0 {
        let u = words.next_word();
        let v = words.next_word();
        let z = words.next_word();
        items.push(item_of(processors, u, v, z))?;
        left -= 1;
    }
    Ok(items)
}

/// A plan of `count` faults, at most 4,096, that the seed `seed` draws for `processors` processors,
/// from 1 to 64: each of a processor at one of its first 65,536 turns, one in eight hard unless it
/// is processor 0, which is the keeper.
pub fn seeded_plan(alloc: Global, seed: u32, processors: u32, count: u32) -> Result<Plan, NoMemory>
    requires range { IsInRange 1 64 processors }
    requires most { count ≤ 4096 }
    ensures items { IfOk result (λ plan. plan.items ≡ items_drawn processors count (seeded seed)) }
    ensures processors { IfOk result (λ plan. plan.processors ≡ processors) }
{
    let words = Xoshiro256PlusPlus::seed_from_u64(u64::from(seed));
    let items = draw(alloc, words, processors, count)?;
    Plan::with_keeper(alloc, items, processors, 0)
}
