//! Ends that build another block than one to which a path comes.
ghost use Rattle.std.specs.Prelude.{◌≡◌, ◌↔◌, ◌<◌, ◌≤◌, IsTrue, MatchOption, Some, length};
ghost use Rattle.ppm_code.specs.Limits.{instr_limit};
ghost use Rattle.ppm_war.specs.Search.{IsFirst};
ghost use Rattle.ppm_gaps.specs.Gaps.{HasOneBlock, IsFirstOther};
ghost use Rattle.ppm_gaps.specs.Blocks.{HasOther, IsFirstStopBeside};
ghost use Rattle.ppm_gaps.specs.Stops.{StaysWithin, built};
ghost use Rattle.ppm_filled.specs.Filled.{builder_at};

use crate::stops::{Block, block_of, first_stop};
use ppm_code::Instr;

/// An end, at `other`, that builds a block, while a path comes to the end at `stop`, which builds
/// another one or none. Places count from 0.
#[derive(Clone, Copy, Debug, PartialEq, Eq)]
pub struct OtherBlock {
    pub other: u32,
    pub stop: u32,
}

/// The first stop that builds something else than this, which the end at a place builds.
fn stop_besides(instrs: &[Instr], other: usize, block: Block) -> Option<OtherBlock>
    requires most { length instrs.now ≤ instr_limit }
    requires closed { StaysWithin instrs.now }
    requires there { other < length instrs.now }
    requires builds { builder_at instrs.now other ≡ built (Some block) }
    ensures { MatchOption result (HasOther instrs.now other → ⊥)
        (IsFirstStopBeside instrs.now other) }
{
    match first_stop(instrs, None, Some(block), 0) {
        Some(stop) => Some(OtherBlock {
            other: other as u32,
            stop,
        }),
        None => None,
    }
}

/// The end at a place, if it builds a block and a path comes to a stop that builds something else,
/// with the first such stop.
fn other_by(instrs: &[Instr], other: usize) -> Option<OtherBlock>
    requires most { length instrs.now ≤ instr_limit }
    requires closed { StaysWithin instrs.now }
    requires there { other < length instrs.now }
    ensures { MatchOption result (HasOther instrs.now other → ⊥)
        (IsFirstStopBeside instrs.now other) }
{
    match block_of(&instrs[other]) {
        Some(block) => stop_besides(instrs, other, block),
        None => None,
    }
}

/// Whether it does.
fn is_other_by(instrs: &[Instr], other: usize) -> bool
    requires most { length instrs.now ≤ instr_limit }
    requires closed { StaysWithin instrs.now }
    requires there { other < length instrs.now }
    ensures { IsTrue result ↔ HasOther instrs.now other }
{
    match other_by(instrs, other) {
        Some(_) => true,
        None => false,
    }
}

/// The first such end.
fn first_builder(instrs: &[Instr]) -> Option<u32>
    requires most { length instrs.now ≤ instr_limit }
    requires closed { StaysWithin instrs.now }
    ensures { IsFirst (HasOther instrs.now) result }
{
    let mut other = 0;
    while other < instrs.len() {
        if is_other_by(instrs, other) {
            return Some(other as u32);
        }
        other += 1;
    }
    None
}

/// The first two ends that build different blocks: of the least that builds one, and the least
/// other stop.
pub(crate) fn first_other(instrs: &[Instr]) -> Option<OtherBlock>
    requires most { length instrs.now ≤ instr_limit }
    requires closed { StaysWithin instrs.now }
    ensures { MatchOption result (HasOneBlock instrs.now) (IsFirstOther instrs.now) }
{
    match first_builder(instrs) {
        Some(other) => other_by(instrs, other as usize),
        None => None,
    }
}
