//! Where a place goes on.
ghost use Rattle.std.specs.Prelude.{◌≡◌, ◌↔◌, ◌^◌, ◌<◌, IfSome};
ghost use Rattle.ppm_cells.specs.Fields.{number_of, Fit, bits};
ghost use Rattle.ppm_cells.specs.Exact.{IsWhatPacksTo};
ghost use Rattle.ppm_cells.specs.Restart.{address_fields, kind_number, kind_with, restart_read};
ghost use Rattle.ppm_cells.specs.Restart.{restart_word, restart_of, IsRestart};

use crate::field::{bits_of, joined};
use crate::side::Side;

/// A restart word: the capsule with which its place goes on, and the bottom of its deque, below
/// 2^27.
#[derive(Clone, Copy, Debug, PartialEq, Eq)]
pub struct Restart {
    pub kind: RestartKind,
    pub bottom: u32,
}

/// The capsules. Frames and blocks are addresses below 2^28, victims and processors are below 64,
/// slots below 65,536, and a copy is 0 or 1.
#[derive(Clone, Copy, Debug, PartialEq, Eq)]
pub enum RestartKind {
    /// Runs the capsule whose number stands in this copy of the frame's header.
    Run { frame: u32, copy: u32 },
    /// Raises the room counter past a block that is built.
    Bump { block: u32 },
    /// Makes the entry above the bottom local.
    Push1 { block: u32 },
    /// Makes the entry at the bottom a job.
    Push2 { block: u32 },
    /// Goes back over the link of a frame that is over.
    Unwind { frame: u32 },
    /// Marks that a branch has come to its join.
    Arrive { block: u32, side: Side },
    /// Asks whether the other branch has come.
    Join { block: u32, side: Side },
    /// Gets the job below the bottom back.
    Pop1,
    /// Empties the entry above the one that was got back.
    Pop2 { block: u32 },
    /// Looks for a job in the deque of a victim.
    Seek,
    /// Takes the job that the message names.
    Steal { victim: u32, slot: u32 },
    /// Asks whether the job was taken by this place.
    Check { victim: u32, slot: u32 },
    /// Bids for a place whose processor is dead.
    Take { victim: u32, dead: u32 },
    /// Asks whether the bid was won.
    Take2 { victim: u32 },
}

impl RestartKind {
    /// The kind's number, from 1 to 14.
    #[inline(always)]
    fn number(self) -> u64
        ensures value { result ≡ kind_number self }
        ensures bound { result < 2 ^ 5 }
    {
        match self {
            RestartKind::Run { .. } => 1,
            RestartKind::Bump { .. } => 2,
            RestartKind::Push1 { .. } => 3,
            RestartKind::Push2 { .. } => 4,
            RestartKind::Unwind { .. } => 5,
            RestartKind::Arrive { .. } => 6,
            RestartKind::Join { .. } => 7,
            RestartKind::Pop1 => 8,
            RestartKind::Pop2 { .. } => 9,
            RestartKind::Seek => 10,
            RestartKind::Steal { .. } => 11,
            RestartKind::Check { .. } => 12,
            RestartKind::Take { .. } => 13,
            RestartKind::Take2 { .. } => 14,
        }
    }

    /// The address, of 32 bits.
    #[tactic(auto, unfolding(crate::specs::Fields::number_of))]
    #[inline(always)]
    fn address(self) -> u64
        requires { Fit (address_fields self) }
        ensures value { result ≡ number_of (address_fields self) }
        ensures bound { result < 2 ^ 32 }
    {
        match self {
            RestartKind::Run { frame, copy } => joined(u64::from(copy), 28, u64::from(frame)),
            RestartKind::Arrive { block, side } | RestartKind::Join { block, side } => {
                joined(u64::from(side.number()), 28, u64::from(block))
            }
            RestartKind::Bump { block }
            | RestartKind::Push1 { block }
            | RestartKind::Push2 { block }
            | RestartKind::Unwind { frame: block }
            | RestartKind::Pop2 { block } => u64::from(block),
            RestartKind::Pop1 | RestartKind::Seek => 0,
            RestartKind::Steal { victim, slot } | RestartKind::Check { victim, slot } => {
                joined(u64::from(victim), 16, u64::from(slot))
            }
            RestartKind::Take { victim, dead } => joined(u64::from(victim), 6, u64::from(dead)),
            RestartKind::Take2 { victim } => u64::from(victim),
        }
    }

    /// The kind with a number, in an address whose unused bits are not looked at.
    fn with(number: u64, address: u64) -> Option<RestartKind>
        ensures value { result ≡ kind_with number address }
        ensures fits { IfSome result (λ kind. Fit (address_fields kind)) }
    {
        let block = bits_of(address, 0, 28) as u32;
        let copy = bits_of(address, 28, 1) as u32;
        let side = Side::with(bits_of(address, 28, 1));
        let slot = bits_of(address, 0, 16) as u32;
        let victim = bits_of(address, 16, 6) as u32;
        let kind = match number {
            1 => RestartKind::Run { frame: block, copy },
            2 => RestartKind::Bump { block },
            3 => RestartKind::Push1 { block },
            4 => RestartKind::Push2 { block },
            5 => RestartKind::Unwind { frame: block },
            6 => RestartKind::Arrive { block, side },
            7 => RestartKind::Join { block, side },
            8 => RestartKind::Pop1,
            9 => RestartKind::Pop2 { block },
            10 => RestartKind::Seek,
            11 => RestartKind::Steal { victim, slot },
            12 => RestartKind::Check { victim, slot },
            13 => RestartKind::Take {
                victim: bits_of(address, 6, 6) as u32,
                dead: bits_of(address, 0, 6) as u32,
            },
            14 => RestartKind::Take2 {
                victim: bits_of(address, 0, 6) as u32,
            },
            _ => return None,
        };
        Some(kind)
    }
}

/// The restart in a word's fields, whatever its unused bits are.
fn read(word: u64) -> Option<Restart>
    ensures value { result ≡ restart_read word }
    ensures fits { IfSome result IsRestart }
{
    let kind = RestartKind::with(bits_of(word, 59, 5), bits_of(word, 0, 32))?;
    let bottom = bits_of(word, 32, 27) as u32;
    Some(Restart { kind, bottom })
}

impl Restart {
    /// The word of the restart.
    #[tactic(auto, unfolding(crate::specs::Fields::number_of))]
    #[inline(always)]
    pub fn pack(&self) -> u64
        requires { IsRestart self.now }
        ensures { result ≡ restart_word self.now }
    {
        joined(
            joined(self.kind.number(), 27, u64::from(self.bottom)),
            32,
            self.kind.address(),
        )
    }

    /// The restart that a word stands for; `None` exactly for a word that no restart packs to.
    #[tactic(auto, unfolding(crate::specs::Exact::unpacked))]
    pub fn unpack(word: u64) -> Option<Restart>
        ensures value { result ≡ restart_of word }
        ensures exactly { IsWhatPacksTo restart_word IsRestart word result }
        ensures fits { IfSome result IsRestart }
    {
        let restart = read(word)?;
        (restart.pack() == word).then_some(restart)
    }
}
