//! Runs of strands, turn by turn.
ghost use Rattle.std.specs.Prelude.{◌≡◌, ◌+◌, ◌<◌, ◌^◌, ◌++◌, ◌&&◌, nat_lt, is_none, OnOk};
ghost use Rattle.ppm_interleaving.specs.Shows.{finish_in};
ghost use Rattle.ppm_strand_runs.specs.Run.{done_in, AddsTurn, SeesTurn};

use crate::done::{Done, Fall};
use crate::made::{Made, made_count, made_turn, push_made};
use ppm_interleaving::{Deed, Machine, Turn};
use ppm_racy::RacyCode;
use ppm_words::NoMemory;
use std::alloc::Global;

/// A run of strands so far: the strands and the words, how many turns were made, all deeds in their
/// order, the changes that capsules made, of which the last with a number is that of the capsule
/// under way, and the first change that did not stand after one of the turns.
#[derive(Debug, Drop)]
pub struct StrandRun {
    pub machine: Machine,
    pub turns: u64,
    pub done: Vec<Done>,
    pub made: Vec<Made>,
    pub fall: Option<Fall>,
}

/// Appends a deed, if there is one.
fn push_done(
    done: &mut Vec<Done>,
    turn: u64,
    strand: u32,
    deed: Option<Deed>,
) -> Result<(), NoMemory>
    ensures { OnOk result (done.new.items ≡ done.old.items ++ done_in turn strand deed) }
{
    match deed {
        Some(deed) => {
            done.push(Done { turn, strand, deed })?;
            Ok(())
        }
        None => Ok(()),
    }
}

/// The first change that did not stand, once a turn more was made, which is the last of so many.
fn first_fall(
    machine: &Machine,
    made: &[Made],
    fall: Option<Fall>,
    turn: u64,
    strand: u32,
    deed: Option<Deed>,
) -> Option<Fall>
    ensures { SeesTurn machine.now made.now fall turn strand deed result }
{
    match fall {
        Some(fall) => Some(fall),
        None => match machine.fallen() {
            Some(fallen) => Some(Fall {
                fallen,
                made: made_turn(made, fallen.strand, fallen.number),
                turn,
                strand,
                deed,
            }),
            None => None,
        },
    }
}

impl StrandRun {
    /// Whether the root's strand is not over, and fewer turns were made than so many.
    pub(crate) fn goes_on(&self, turns: u64) -> bool
        ensures { result
            ≡ (nat_lt self.now.turns turns && is_none (finish_in self.now.machine.strands.items 0)) }
    {
        self.turns < turns && self.machine.finish().is_none()
    }

    /// Makes a turn.
    pub(crate) fn make(
        &mut self,
        alloc: Global,
        code: &RacyCode,
        turn: Turn,
    ) -> Result<(), NoMemory>
        requires { self.old.turns + 1 < 2 ^ 64 }
        ensures adds { OnOk result (AddsTurn code.now turn self.old self.new) }
        ensures turns { OnOk result (self.new.turns ≡ self.old.turns + 1) }
    {
        let who = turn.strand();
        let had = made_count(&self.machine, who);
        let deed = self.machine.turn(alloc, code, turn)?;
        let has = made_count(&self.machine, who);
        self.turns += 1;
        push_made(&mut self.made, self.turns, who, had, has)?;
        push_done(&mut self.done, self.turns, who, deed)?;
        self.fall = first_fall(&self.machine, &self.made, self.fall, self.turns, who, deed);
        Ok(())
    }
}
