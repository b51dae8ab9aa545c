//! The words of the machine by name.
ghost use Rattle.std.specs.Prelude.{◌≡◌, ◌+◌, ◌^◌, ◌<◌};
ghost use Rattle.ppm_cells.specs.Blocks.{left_frame};

/// A word of the machine. Processors, places, slots and array words count from 0.
#[derive(Clone, Copy, Debug, PartialEq, Eq)]
pub enum Cell {
    /// How the run ended.
    FinishWord,
    /// The place that a processor carries.
    CarryWord { processor: u32 },
    /// Whether a processor is dead: 1, else 0.
    DeadWord { processor: u32 },
    /// Where a place goes on.
    RestartWord { place: u32 },
    /// The entry or the bid that a place is after.
    MessageWord { place: u32 },
    /// Who carries a place.
    HolderWord { place: u32 },
    /// The first slot of a place's deque that may hold a job.
    Top { place: u32 },
    /// The first word of a place's pool that is not taken yet.
    RoomCounter { place: u32 },
    /// An entry of a place's deque.
    EntryWord { place: u32, slot: u32 },
    /// A word of a block, by its address.
    BlockWord { address: u32 },
    /// A word of the arrays.
    ArrayWord { index: u32 },
}

impl Cell {
    ghost use Rattle.std.specs.Prelude.{◌≡◌, ◌+◌, ◌^◌, ◌<◌};
    ghost use Rattle.ppm_cells.specs.Blocks as blocks;

    /// What came of a frame.
    #[inline(always)]
    pub fn outcome_word(frame: u32) -> Cell
        requires { frame + 1 < 2 ^ 32 }
        ensures { result ≡ blocks.outcome_word frame }
    {
        Cell::BlockWord { address: frame + 1 }
    }

    /// The header of a frame with this copy, 0 or 1.
    #[inline(always)]
    pub fn header_word(frame: u32, copy: u32) -> Cell
        requires { frame + 2 + copy < 2 ^ 32 }
        ensures { result ≡ blocks.header_word frame copy }
    {
        Cell::BlockWord {
            address: header_at(frame, copy),
        }
    }

    /// The value that a frame is given.
    #[inline(always)]
    pub fn value_word(frame: u32) -> Cell
        requires { frame + 4 < 2 ^ 32 }
        ensures { result ≡ blocks.value_word frame }
    {
        Cell::BlockWord { address: frame + 4 }
    }

    /// The slot that the value of a frame goes to.
    #[inline(always)]
    pub fn target_word(frame: u32) -> Cell
        requires { frame + 5 < 2 ^ 32 }
        ensures { result ≡ blocks.target_word frame }
    {
        Cell::BlockWord { address: frame + 5 }
    }

    /// A slot of a frame, from 0.
    #[inline(always)]
    pub fn slot_word(frame: u32, slot: u32) -> Cell
        requires { frame + 6 + slot < 2 ^ 32 }
        ensures { result ≡ blocks.slot_word frame slot }
    {
        Cell::BlockWord {
            address: frame + 6 + slot,
        }
    }

    /// Which branch of a fork block came first to its join.
    #[inline(always)]
    pub fn order_word(block: u32) -> Cell
        requires { block + 1 < 2 ^ 32 }
        ensures { result ≡ blocks.order_word block }
    {
        Cell::BlockWord { address: block + 1 }
    }

    /// What came of the left branch.
    #[inline(always)]
    pub fn left_outcome_word(block: u32) -> Cell
        requires { block + 2 < 2 ^ 32 }
        ensures { result ≡ blocks.left_outcome_word block }
    {
        Cell::BlockWord { address: block + 2 }
    }

    /// What came of the right branch.
    #[inline(always)]
    pub fn right_outcome_word(block: u32) -> Cell
        requires { block + 3 < 2 ^ 32 }
        ensures { result ≡ blocks.right_outcome_word block }
    {
        Cell::BlockWord { address: block + 3 }
    }

    /// How far after a fork block's first word the right branch's frame lies.
    #[inline(always)]
    pub fn offset_word(block: u32) -> Cell
        requires { block + 4 < 2 ^ 32 }
        ensures { result ≡ blocks.offset_word block }
    {
        Cell::BlockWord { address: block + 4 }
    }
}

/// The address of the header of a frame with this copy, 0 or 1.
#[inline(always)]
pub fn header_at(frame: u32, copy: u32) -> u32
    requires { frame + 2 + copy < 2 ^ 32 }
    ensures { result ≡ frame + 2 + copy }
{
    frame + 2 + copy
}

/// The left branch's frame in a fork block.
#[inline(always)]
pub fn left_frame(block: u32) -> u32
    requires { block + 5 < 2 ^ 32 }
    ensures { result ≡ left_frame block }
{
    block + 5
}
