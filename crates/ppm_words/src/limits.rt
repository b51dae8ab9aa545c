//! The limits of a program, of its code and of a machine: the one home of each that several layers
//! speak of.

/// The bytes of a name, at most.
pub const NAME_LIMIT: usize = 32;

/// The arrays of a program, at most.
pub const ARRAY_LIMIT: usize = 64;

/// The words of all its arrays together, at most.
pub const WORD_LIMIT: u32 = 4_194_304;

/// The procedures of a program, each `each` counted with them, and those of a code, at most.
pub const PROCEDURE_LIMIT: u32 = 1_024;

/// The parameters of a procedure and the arguments of a call, at most.
pub const PARAMETER_LIMIT: u32 = 12;

/// The nodes in the expressions of one statement, at most.
pub const NODE_LIMIT: u32 = 48;

/// The constructs that are open at a place of a text, at most.
pub const DEPTH_LIMIT: u32 = 32;

/// The capsules of a code, at most.
pub const CAPSULE_LIMIT: u32 = 65_535;

/// The processors of a machine, and so its places and its watchers, at most.
pub const PROCESSOR_LIMIT: u32 = 64;

/// The words that one capsule may ask for, at most.
pub const ROOM_LIMIT: u32 = 1_048_576;

/// The entries of a deque, at most.
pub const ENTRY_LIMIT: u32 = 65_536;

/// The work turns that a processor may make, the acts of a replay, and how often an item of a
/// schedule is done, at most.
pub const TURN_LIMIT: u32 = 268_435_456;
