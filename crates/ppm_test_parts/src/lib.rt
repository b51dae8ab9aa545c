//! Trials of low crates by values worked out by hand, each in the file of its crate's name.
//! Model: none; all of it is tests.
//! Contract: none.
//! Stands on the crates whose tests these are: a crate with tests is proved twice.
//! After the rules of the language, of capsules, of words and of RAMs.
#![tactic(auto)]

#[cfg(test)]
mod case;
#[cfg(test)]
mod choice;
#[cfg(test)]
mod deque;
#[cfg(test)]
mod expected;
#[cfg(test)]
mod hold;
#[cfg(test)]
mod join;
#[cfg(test)]
mod layout;
#[cfg(test)]
mod naming;
#[cfg(test)]
mod pieces;
#[cfg(test)]
mod ports;
#[cfg(test)]
mod program;
#[cfg(test)]
mod program_faults;
#[cfg(test)]
mod program_limits;
#[cfg(test)]
mod ram;
#[cfg(test)]
mod ram_code;
#[cfg(test)]
mod text;
#[cfg(test)]
mod tree;
#[cfg(test)]
mod war;
#[cfg(test)]
mod words;
