//! What an instruction does with the registers as they are.
use crate::location::Location;
use crate::register::Register;
use ppm_words::Trap;

/// A step for which words in memory are needed.
#[derive(Clone, Copy, Debug, PartialEq, Eq)]
pub enum Step {
    /// The word at a location goes into a register.
    Loads(Location, Register),
    /// A word goes to a location.
    Stores(Location, u64),
    /// A new block is asked for, of this many words.
    Asks(u32),
}

/// How a capsule ends. Capsules and procedures are numbers of the code, slots those of the frame.
#[derive(Clone, Copy, Debug, PartialEq, Eq)]
pub enum End {
    /// The frame goes on with another capsule.
    Next {
        capsule: u32,
    },
    /// The frame is over.
    Finish,
    /// The frame is over by a trap, in this line of the source.
    Trap {
        trap: Trap,
        line: u32,
    },
    /// The procedure is called in a new frame; then the frame goes on with a capsule, and with the
    /// value that was given in a slot, if one is named.
    Call {
        procedure: u32,
        capsule: u32,
        to: Option<u32>,
    },
    /// Two procedures are run side by side in new frames; then the frame goes on as after a call.
    Fork {
        left: u32,
        right: u32,
        capsule: u32,
        left_to: Option<u32>,
        right_to: Option<u32>,
    },
}

/// What an instruction does with the registers as they are.
#[derive(Clone, Copy, Debug, PartialEq, Eq)]
pub enum Act {
    /// A register takes a word.
    Sets(Register, u64),
    /// Nothing, and the next instruction follows.
    Passes,
    /// An instruction follows.
    Jumps(u32),
    /// A step, and the next instruction follows.
    Steps(Step),
    /// The capsule ends.
    Ends(End),
}
