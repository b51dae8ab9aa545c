//! The compiler: from the tree of a program to its code.
//! Model: the code of a tree (`ppm_cut_code`, `specs/Routines`); counts along a tree have bounds of
//! their own (`specs/Counts`).
//! Contract: `cut` gives the code of an admitted program within the bounds, or memory was refused.
//! Stands on `ppm_cut_code` and `ppm_code`; `ppm_loading` and `ppm_commands` call it. A translation
//! with absolute numbers, which are counted before the capsules are made; this project's.
#![tactic(auto)]

mod arguments;
mod body;
mod callees;
mod calling;
mod counts;
mod cutting;
mod draft;
mod each;
mod expression;
mod free;
mod instrs;
mod layout;
mod maker;
mod register;
mod simple;
mod size;
mod slots;

pub use cutting::cut;
