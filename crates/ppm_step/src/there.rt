//! Whether what a word names is there.
ghost use Rattle.std.specs.Prelude.{◌≡◌, ◌<◌, true};
ghost use Rattle.ppm_cells.specs.Cells.{address, word_count};
ghost use Rattle.ppm_cells.specs.Restart.{restart_word};
ghost use Rattle.ppm_step.specs.There.{is_there, kind_is_there, bottom_is_there, restart_is_there};

use ppm_cells::{Cell, Restart, RestartKind, Shape};

/// Whether the cell is one of the shape's.
#[inline(always)]
pub fn cell_is_there(shape: &Shape, cell: Cell) -> bool
    ensures { result ≡ is_there shape.now cell }
{
    match cell {
        Cell::FinishWord => true,
        Cell::CarryWord { processor } | Cell::DeadWord { processor } => processor
            < shape.processors,
        Cell::RestartWord { place }
        | Cell::MessageWord { place }
        | Cell::HolderWord { place }
        | Cell::Top { place }
        | Cell::RoomCounter { place } => place < shape.processors,
        Cell::EntryWord { place, slot } => place < shape.processors && slot < shape.slots,
        Cell::BlockWord { address } => address < shape.word_count(),
        Cell::ArrayWord { index } => index < shape.arrays,
    }
}

/// Whether what the kind names is there.
#[inline(always)]
fn kind_there(shape: &Shape, kind: RestartKind) -> bool
    ensures { result ≡ kind_is_there shape.now kind }
{
    match kind {
        RestartKind::Run { frame, copy } => frame < shape.word_count() && copy < 2,
        RestartKind::Bump { block }
        | RestartKind::Push1 { block }
        | RestartKind::Push2 { block }
        | RestartKind::Unwind { frame: block }
        | RestartKind::Arrive { block, .. }
        | RestartKind::Join { block, .. }
        | RestartKind::Pop2 { block } => block < shape.word_count(),
        RestartKind::Pop1 | RestartKind::Seek => true,
        RestartKind::Steal { victim, slot } | RestartKind::Check { victim, slot } => {
            victim < shape.processors && slot < shape.slots
        }
        RestartKind::Take { victim, dead } => victim < shape.processors && dead < shape.processors,
        RestartKind::Take2 { victim } => victim < shape.processors,
    }
}

/// Whether the restart names what is there: its bottom, and what its kind names.
#[inline(always)]
pub fn restart_there(shape: &Shape, restart: Restart) -> bool
    ensures { result ≡ restart_is_there shape.now restart }
{
    restart.bottom >= 1 && restart.bottom < shape.slots && kind_there(shape, restart.kind)
}

/// The address of a cell that is there.
#[inline(always)]
pub fn address(shape: &Shape, cell: Cell) -> u32
    requires { is_there shape.now cell ≡ true }
    ensures value { result ≡ address shape.now cell }
    ensures within { result < word_count shape.now }
{
    match cell {
        Cell::BlockWord { address } => address,
        Cell::FinishWord
        | Cell::CarryWord { .. }
        | Cell::DeadWord { .. }
        | Cell::RestartWord { .. }
        | Cell::MessageWord { .. }
        | Cell::HolderWord { .. }
        | Cell::Top { .. }
        | Cell::RoomCounter { .. }
        | Cell::EntryWord { .. }
        | Cell::ArrayWord { .. } => shape.address(cell),
    }
}

/// The word of a restart that names what is there.
#[inline(always)]
pub fn restart_word(shape: &Shape, restart: Restart) -> u64
    requires { restart_is_there shape.now restart ≡ true }
    ensures { result ≡ restart_word restart }
{
    // The proof needs its limits.
    let _ = shape.word_count();
    restart.pack()
}
