//! How a place is taken over from a dead processor.
ghost use Rattle.std.specs.Prelude.{◌≡◌, ◌↔◌, ◌<◌, IsTrue};
ghost use Rattle.ppm_cells.specs.Holder.{IsHolder};
ghost use Rattle.ppm_cells.specs.HoldChange.{CanRise, bid_of, TakesOver, IsKept};

use crate::holder::Holder;

/// Whether the tag is below the last one, 2^58 - 1: a bid asks for this.
pub fn holder_can_rise(seen: Holder) -> bool
    ensures { IsTrue result ↔ CanRise seen }
{
    seen.tag < (1 << 58) - 1
}

/// What the holder word becomes when the processor `own`, below 64, takes the place over.
pub fn bid(seen: Holder, own: u32) -> Holder
    requires own { own < 64 }
    requires tag { CanRise seen }
    ensures value { result ≡ bid_of seen own }
    ensures lawful { TakesOver own seen result }
    ensures fits { IsHolder result }
{
    Holder {
        tag: seen.tag + 1,
        processor: own,
    }
}

/// Whether the processor `own`, below 64, holds the place by the bid in its message: the holder
/// word is that bid still.
pub fn kept(message: Holder, now: Holder, own: u32) -> bool
    requires own { own < 64 }
    ensures exactly { IsTrue result ↔ IsKept message now own }
{
    message.tag == now.tag && message.processor == now.processor && now.processor == own
}
