//! The listener that tells a run.
ghost use Rattle.std.specs.Prelude.{◌≤◌, ◌*◌};
ghost use Rattle.ppm_trace.specs.Counts.{total};
ghost use Rattle.ppm_trace.specs.Telling.{HasTold};
ghost use Rattle.ppm_trace.specs.TellingLaws.{none_told, told_both};

use crate::listener::Listener;
use crate::tale::{Excerpt, Tale, tell};
use ppm_core::Machine;
use ppm_naming::Names;
use ppm_step::Turn;
use ppm_words::NoMemory;
use std::alloc::Global;

/// Tells an excerpt of a run by these names.
#[derive(Clone, Copy)]
pub(crate) struct Teller<'a> {
    pub names: &'a Names,
    pub excerpt: Excerpt,
}

impl Listener for Teller<'_> {
    type Notes = Tale;

    // A turn has two marks at most.
    ghost listens = { λ t m tale. total tale.counts ≤ 3 * m.turns };

    ghost heard = { λ t m turns a b. HasTold t.names.now t.excerpt m turns a b };

    fn hear(
        &self,
        alloc: Global,
        notes: &mut Tale,
        machine: &Machine,
        turn: Turn,
    ) -> Result<(), NoMemory> {
        tell(alloc, machine, notes, self.names, self.excerpt, turn)?;
        Ok(())
    }

    ghost rest = { λ t m a. none_told t.names.now t.excerpt m a };

    ghost on = { λ t m first more a b c d e. told_both t.names.now t.excerpt m first more a b c d e };
}
