//! Bytes cut at a separator and compared, and numbers in decimal.
//! Model: a text is the list of its pieces (`specs/Pieces`), a number its one spelling
//! (`specs/Numbers`).
//! Contract: a text is cut at its first separator; what is no spelling of a number is none; each
//! number is spelled in one way.
//! Stands on `itoa`; `ppm_plan`, `ppm_listing_reader` and `ppm_saved_reader` read by it, and
//! `ppm_saved`, `ppm_naming` and others write numbers by it.
//! After `split_once` of Rust's slices; that leading zeros and signs are refused is this project's.
#![tactic(auto)]

mod bytes;
mod decimal;
mod laws;
mod split;

pub use bytes::{behind, same_bytes};
pub use decimal::{is_digit, is_numeral, number, push_number, value};
pub use laws::numerals_are_decimals;
pub use split::split_once;
