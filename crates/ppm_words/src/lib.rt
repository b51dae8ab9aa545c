//! Words of 64 bits, and the types that several layers speak of.
//! Model: names, items and inputs are lists; words stand for numbers (`specs/TwosComplement`).
//! Contract: a number goes into a word and comes back; names and inputs keep their limits.
//! Stands on `std`; all layers above stand on it.
//! After two's complement for the words; the limits are the language's.
#![tactic(auto)]

mod event;
mod idle;
mod input;
mod items;
mod limits;
mod name;
mod named_array;
mod no_memory;
mod outcome;
mod trap;
mod value;

pub use event::Event;
pub use idle::Idle;
pub use input::Input;
pub use items::Items;
pub use limits::{
    ARRAY_LIMIT, CAPSULE_LIMIT, DEPTH_LIMIT, ENTRY_LIMIT, NAME_LIMIT, NODE_LIMIT, PARAMETER_LIMIT,
    PROCEDURE_LIMIT, PROCESSOR_LIMIT, ROOM_LIMIT, TURN_LIMIT, WORD_LIMIT,
};
pub use name::Name;
pub use named_array::NamedArray;
pub use no_memory::NoMemory;
pub use outcome::Outcome;
pub use trap::Trap;
pub use value::{of_word, to_word};
