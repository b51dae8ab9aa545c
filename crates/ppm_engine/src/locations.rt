//! Where the locations of a capsule lie.
ghost use Rattle.std.specs.Prelude.{◌≡◌, ◌<◌, true};
ghost use Rattle.ppm_cells.specs.Cells.{address, word_count};
ghost use Rattle.ppm_code.specs.Locations.{location_of};
ghost use Rattle.ppm_step.specs.Facts.{IsHome};
ghost use Rattle.ppm_step.specs.Frames.{cell_of};
ghost use Rattle.ppm_step.specs.There.{is_there};

use ppm_cells::{Cell, Shape};
use ppm_code::{FrameWord, Location};
use ppm_step::Home;

/// The address of a location that is there.
#[inline(always)]
pub fn address_of(shape: &Shape, home: &Home, location: Location) -> u32
    requires home { IsHome home.now }
    requires there { is_there shape.now (cell_of home.now (location_of location)) ≡ true }
    ensures value { result ≡ address shape.now (cell_of home.now (location_of location)) }
    ensures within { result < word_count shape.now }
{
    let _ = shape.slots;
    match location {
        Location::Frame(FrameWord::Slot(slot)) => home.frame + 6 + slot,
        Location::Frame(FrameWord::Value) => home.frame + 4,
        Location::New(offset) => home.block + offset,
        Location::Array(index) => shape.address(Cell::ArrayWord {
            index: index as u32,
        }),
    }
}
