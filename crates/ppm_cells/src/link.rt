//! Where a block's strand goes back to.
ghost use Rattle.std.specs.Prelude.{◌≡◌, ◌↔◌, ◌^◌, ◌<◌, IfSome};
ghost use Rattle.ppm_cells.specs.Fields.{number_of, Fit, bits};
ghost use Rattle.ppm_cells.specs.Exact.{IsWhatPacksTo};
ghost use Rattle.ppm_cells.specs.Link.{link_address, link_number, link_with, link_read};
ghost use Rattle.ppm_cells.specs.Link.{link_word, link_of, IsLink};

use crate::field::{bits_of, joined};
use crate::side::Side;

/// The first word of a frame or a fork block: where its end leads, and its size in words, below
/// 2^28.
#[derive(Clone, Copy, Debug, PartialEq, Eq)]
pub struct Link {
    pub kind: LinkKind,
    pub size: u32,
}

/// Where the end of a block leads. Frames and blocks are addresses below 2^28, a copy is 0 or 1.
#[derive(Clone, Copy, Debug, PartialEq, Eq)]
pub enum LinkKind {
    /// A frame whose end is the run's.
    Root,
    /// A frame that was called: the caller goes on here.
    Call { frame: u32, copy: u32 },
    /// The frame of this branch of a fork block.
    Branch { side: Side, block: u32 },
    /// A fork block: the parent goes on here.
    Fork { frame: u32, copy: u32 },
}

impl LinkKind {
    /// The kind's number, from 1 to 5.
    fn number(self) -> u64
        ensures value { result ≡ link_number self }
        ensures bound { result < 2 ^ 3 }
    {
        match self {
            LinkKind::Root => 1,
            LinkKind::Call { .. } => 2,
            LinkKind::Branch {
                side: Side::Left,
                ..
            } => 3,
            LinkKind::Branch {
                side: Side::Right,
                ..
            } => 4,
            LinkKind::Fork { .. } => 5,
        }
    }

    /// The address and above it the copy, 29 bits.
    #[tactic(auto, unfolding(crate::specs::Fields::number_of))]
    fn address(self) -> u64
        requires { Fit (link_address self) }
        ensures value { result ≡ number_of (link_address self) }
        ensures bound { result < 2 ^ 29 }
    {
        match self {
            LinkKind::Root => 0,
            LinkKind::Call { frame, copy } | LinkKind::Fork { frame, copy } => {
                joined(u64::from(copy), 28, u64::from(frame))
            }
            LinkKind::Branch { block, .. } => u64::from(block),
        }
    }

    /// The kind with a number, in an address with its copy whose unused bits are not looked at.
    fn with(number: u64, address: u64) -> Option<LinkKind>
        ensures value { result ≡ link_with number address }
        ensures fits { IfSome result (λ kind. Fit (link_address kind)) }
    {
        let block = bits_of(address, 0, 28) as u32;
        let copy = bits_of(address, 28, 1) as u32;
        match number {
            1 => Some(LinkKind::Root),
            2 => Some(LinkKind::Call { frame: block, copy }),
            3 => Some(LinkKind::Branch {
                side: Side::Left,
                block,
            }),
            4 => Some(LinkKind::Branch {
                side: Side::Right,
                block,
            }),
            5 => Some(LinkKind::Fork { frame: block, copy }),
            _ => None,
        }
    }
}

/// The link in a word's fields, whatever its unused bits are.
fn read(word: u64) -> Option<Link>
    ensures value { result ≡ link_read word }
    ensures fits { IfSome result IsLink }
{
    let kind = LinkKind::with(bits_of(word, 57, 3), bits_of(word, 0, 29))?;
    let size = bits_of(word, 29, 28) as u32;
    Some(Link { kind, size })
}

impl Link {
    /// The word of the link.
    #[tactic(auto, unfolding(crate::specs::Fields::number_of))]
    pub fn pack(&self) -> u64
        requires { IsLink self.now }
        ensures { result ≡ link_word self.now }
    {
        joined(
            joined(self.kind.number(), 28, u64::from(self.size)),
            29,
            self.kind.address(),
        )
    }

    /// The link that a word stands for; `None` exactly for a word that no link packs to.
    #[tactic(auto, unfolding(crate::specs::Exact::unpacked))]
    pub fn unpack(word: u64) -> Option<Link>
        ensures value { result ≡ link_of word }
        ensures exactly { IsWhatPacksTo link_word IsLink word result }
        ensures fits { IfSome result IsLink }
    {
        let link = read(word)?;
        (link.pack() == word).then_some(link)
    }
}
