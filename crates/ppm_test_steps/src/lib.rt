//! Trials of the words of the machine, and of what a capsule does where it begins and ends.
//! Model: none; all of it is tests, by what was worked out by hand.
//! Contract: none.
//! Stands on `ppm_cells` and `ppm_step`, whose tests these are: a crate with tests is proved twice.
//! After the rules of words and of capsules; the rows are cases of `ppm_layer_cases`.
#![tactic(auto)]

#[cfg(test)]
mod ends;
#[cfg(test)]
mod entering;
#[cfg(test)]
mod packings;
#[cfg(test)]
mod small;
