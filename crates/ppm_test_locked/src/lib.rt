//! Trials of the lock: threads that make turns under one, processors that obey plans there, and a
//! limit that is met.
//! Model: none; all of it is tests, by what was worked out by hand.
//! Contract: none.
//! Stands on `ppm_locked`, `ppm_core`, `ppm_choice` and `ppm_plan`, and on `ppm_test_turns` for
//! listings.
//! After the rules of turns, of plans and of limits.
#![tactic(auto)]

#[cfg(test)]
mod locks;
