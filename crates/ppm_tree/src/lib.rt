//! The tree of a program of the language, its limits and its serial meaning.
//! Model: a tree without pointers (`specs/Tree.antt`) within limits (`specs/Limits.antt`); a
//! big-step relation says what a run of it spends and how it ends (`specs/Meaning.antt`,
//! `specs/Program.antt`).
//! Contract: laws of the meaning (`specs/Correct.antt`, `specs/Begun.antt`), and operators
//! (`specs/Values.antt`).
//! Stands on `ppm_words`; the front end, the interpreter and the compiler stand on it.
//! The meaning is a natural (big-step) semantics after Kahn; the language is this project's.
#![tactic(auto)]

mod laws;
mod mode;
mod named;
mod operator;
mod program;
mod tree;

pub use laws::{divide_towards_zero, end_whole, have_one_end, none_is_stuck, spend_their_turns};
pub use mode::Mode;
pub use named::Named;
pub use operator::{Operator, apply, negate};
pub use program::Program;
pub use tree::{Argument, Array, ArrayInput, Expr, Give, Parameter, Proc, Side, Stmt, Tree};
