//! The items of plans.
ghost use Rattle.std.specs.Prelude.{◌≡◌};
ghost use Rattle.ppm_plan.specs.Items.{plan_item_of, ended_by as ended_by_letter};
ghost use Rattle.ppm_plan.specs.Items.{timed_by as timed_by_letter};

use crate::fault::Fault;
use crate::item::Item;
use ppm_pieces::{number, split_once};

/// A fault at one turn of a processor.
#[derive(Clone, Copy, Debug, PartialEq, Eq)]
pub struct PlanItem {
    /// The processor, from 0.
    pub processor: u32,
    /// Which of its turns, from 0.
    pub turn: u32,
    /// What befalls it there.
    pub fault: Fault,
}

/// The number in front of a letter that ends the bytes.
fn ended_by(letter: u8, bytes: &[u8]) -> Option<u32>
    ensures { result ≡ ended_by_letter letter bytes.now }
{
    match split_once(bytes, letter) {
        Some((digits, behind)) => match behind {
            [] => number(digits),
            [_, ..] => None,
        },
        None => None,
    }
}

/// The item of a processor whose turn and letter are written so.
fn timed_by(processor: Option<u32>, bytes: &[u8]) -> Option<PlanItem>
    ensures { result ≡ timed_by_letter processor bytes.now }
{
    let processor = processor?;
    if let Some(turn) = ended_by(b's', bytes) {
        return Some(PlanItem {
            processor,
            turn,
            fault: Fault::Soft,
        });
    }
    match ended_by(b'h', bytes) {
        Some(turn) => Some(PlanItem {
            processor,
            turn,
            fault: Fault::Hard,
        }),
        None => None,
    }
}

impl Item for PlanItem {
    ghost use Rattle.ppm_plan.specs.Forms.{plan_form};

    ghost form = { plan_form };

    fn read(piece: &[u8]) -> Option<PlanItem> {
        match split_once(piece, b'@') {
            Some((processor, behind)) => timed_by(number(processor), behind),
            None => None,
        }
    }

    fn is_outside(&self, processors: u32) -> bool {
        !(self.processor < processors)
    }

    fn kills(&self, processor: u32) -> bool {
        self.fault.is_hard() && self.processor == processor
    }
}
