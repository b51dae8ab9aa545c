//! In which turns changes were made.
ghost use Rattle.std.specs.Prelude.{◌≡◌, ◌++◌, OnOk};
ghost use Rattle.ppm_strand_runs.specs.Made.{count_by, count_in, made_in, made_now, turn_by};

use ppm_interleaving::{Machine, Strand};
use ppm_words::NoMemory;

/// A change that the capsule of a strand made, and the turn in which it did. `number` says which of
/// the capsule's changes it is, from 0. Turns count from 1.
#[derive(Clone, Copy, Debug, PartialEq, Eq)]
pub struct Made {
    pub strand: usize,
    pub number: usize,
    pub turn: u64,
}

/// How many changes the capsule of a strand has made since it last began.
fn count_of(strand: &Strand) -> usize
    ensures { result ≡ count_by strand.now }
{
    match strand {
        Strand::Running(running) => running.settled.len() + running.since.len(),
        Strand::Waiting(_) | Strand::Tells(_) | Strand::Over(_) => 0,
    }
}

/// That of the strand with a number.
pub(crate) fn made_count(machine: &Machine, strand: u32) -> usize
    ensures { result ≡ count_in machine.now.strands.items strand }
{
    match machine.strands.get(strand as usize) {
        Some(found) => count_of(found),
        None => 0,
    }
}

/// Notes the change that a strand made in a turn, if its capsule has made more than before.
pub(crate) fn push_made(
    made: &mut Vec<Made>,
    turn: u64,
    strand: u32,
    had: usize,
    has: usize,
) -> Result<(), NoMemory>
    ensures { OnOk result (made.new.items ≡ made.old.items ++ made_now turn strand had has) }
{
    if had >= has {
        return Ok(());
    }
    made.push(Made {
        strand: strand as usize,
        number: had,
        turn,
    })?;
    Ok(())
}

/// The turn of a note, if it is of this change, or else another one.
fn turn_or(made: Made, strand: usize, number: usize, other: u64) -> u64
    ensures { result ≡ turn_by made strand number other }
{
    if made.strand == strand && made.number == number {
        made.turn
    } else {
        other
    }
}

/// The turn that the last of these notes tells of a change; 0 where none does.
pub(crate) fn made_turn(made: &[Made], strand: usize, number: usize) -> u64
    ensures { result ≡ made_in made.now strand number 0 }
{
    let mut turn = 0;
    let mut left = made;
    while let Some((first, rest)) = left.split_first() {
        turn = turn_or(*first, strand, number, turn);
        left = rest;
    }
    turn
}
