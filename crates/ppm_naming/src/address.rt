//! The cell of each address.
ghost use Rattle.std.specs.Prelude.{◌≡◌, ◌<◌, ◌≤◌};
ghost use Rattle.ppm_cells.specs.Cells.{place_size as size_of_place};
ghost use Rattle.ppm_naming.specs.Addresses.{addressed as cell_of, in_place as cell_in_place};
ghost use Rattle.ppm_naming.specs.Addresses.{in_places as cell_in_places};

use ppm_cells::{Cell, Shape};

/// The words of a place.
fn place_size(shape: &Shape) -> u32
    ensures value { result ≡ size_of_place shape.now }
    ensures some { 5 ≤ result }
{
    5 + shape.slots + shape.room
}

/// The cell of a place that lies so far from its first word, at this address.
fn in_place(shape: &Shape, place: u32, offset: u32, at: u32) -> Cell
    ensures { result ≡ cell_in_place shape.now place offset at }
{
    match offset {
        0 => Cell::RestartWord { place },
        1 => Cell::MessageWord { place },
        2 => Cell::HolderWord { place },
        3 => Cell::Top { place },
        4 => Cell::RoomCounter { place },
        _ => {
            let slot = offset - 5;
            if slot < shape.slots {
                Cell::EntryWord { place, slot }
            } else {
                Cell::BlockWord { address: at }
            }
        }
    }
}

/// The cell that lies so far from the first word of the first place.
fn in_places(shape: &Shape, far: u32, at: u32) -> Cell
    ensures { result ≡ cell_in_places shape.now far at }
{
    let size = place_size(shape);
    in_place(shape, far / size, far % size, at)
}

/// The cell that has this address, from 0. An address past the last word is that of an array word
/// past the arrays.
pub fn addressed(shape: &Shape, at: u32) -> Cell
    ensures { result ≡ cell_of shape.now at }
{
    if at == 0 {
        return Cell::FinishWord;
    }
    if at < 1 + shape.processors {
        return Cell::CarryWord { processor: at - 1 };
    }
    if at < 1 + 2 * shape.processors {
        return Cell::DeadWord {
            processor: at - (1 + shape.processors),
        };
    }
    let arrays_at = shape.arrays_at();
    if at < arrays_at {
        return in_places(shape, at - (1 + 2 * shape.processors), at);
    }
    Cell::ArrayWord {
        index: at - arrays_at,
    }
}
