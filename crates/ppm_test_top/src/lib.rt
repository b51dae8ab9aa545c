//! Trials by the top call that no sheet can say: watchers that meet or keep what they are told, event
//! by event; runs that are stopped more than once; accepted capsules that are stopped anywhere; and the
//! laws, each called once.
//! Model: none; all of it is tests, by what one processor does alone, by rules of obedience, and by
//! what was worked out by hand or by another program.
//! Contract: none.
//! Stands on `ppm_top`, and on `ppm_test_threads` for what processors are told. What a command shows
//! stands in the sheets of `ppm_cases`.
//! After the rules of the commands and their texts, of plans and of saved texts.
#![tactic(auto)]

#[cfg(test)]
mod callers;
#[cfg(test)]
mod calls;
#[cfg(test)]
mod examples;
#[cfg(test)]
mod laws;
#[cfg(test)]
mod parts;
#[cfg(test)]
mod sources;
#[cfg(test)]
mod stops;
#[cfg(test)]
mod texts;
#[cfg(test)]
mod told;
#[cfg(test)]
mod wakes;
#[cfg(test)]
mod watching;
