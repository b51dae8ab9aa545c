//! How words are written.
ghost use Rattle.std.specs.Prelude.{◌≡◌};
ghost use Rattle.ppm_naming.specs.Cells.{kind_of as kind_by};

use ppm_cells::Cell;

/// How a word is written.
#[derive(Clone, Copy, Debug, PartialEq, Eq)]
pub enum WordKind {
    /// In decimal.
    Number,
    /// In decimal, as the signed number that it stands for.
    Signed,
    /// As which branch of a fork came first to its join.
    Order,
    /// As a restart word.
    Restart,
    /// As an entry of a deque.
    Entry,
    /// As who carries a place.
    Holder,
    /// As nothing, as an entry, or as who carries a place.
    Message,
    /// As where the end of a block leads.
    Link,
    /// As how a run or a strand ended.
    Finish,
}

/// How the word of a cell is written. What a word of a block is, its cell does not say: it is
/// `Signed`.
pub fn kind_of(cell: Cell) -> WordKind
    ensures { result ≡ kind_by cell }
{
    match cell {
        Cell::FinishWord => WordKind::Finish,
        Cell::RestartWord { .. } => WordKind::Restart,
        Cell::MessageWord { .. } => WordKind::Message,
        Cell::HolderWord { .. } => WordKind::Holder,
        Cell::EntryWord { .. } => WordKind::Entry,
        Cell::CarryWord { .. }
        | Cell::DeadWord { .. }
        | Cell::Top { .. }
        | Cell::RoomCounter { .. } => WordKind::Number,
        Cell::BlockWord { .. } | Cell::ArrayWord { .. } => WordKind::Signed,
    }
}
