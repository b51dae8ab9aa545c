//! The stores of the end of a capsule.
ghost use Rattle.std.specs.Prelude.{◌≡◌, ◌+◌, ◌^◌, ◌<◌, ◌≤◌};
ghost use Rattle.ppm_cells.specs.declared.cell.Cell.TheVariants.{BlockWord};
ghost use Rattle.ppm_cells.specs.declared.finish.Finish.TheVariants.{Ended};
ghost use Rattle.ppm_code.specs.Sizes.{frame_size};
ghost use Rattle.ppm_code.specs.Strands.{entry_of};
ghost use Rattle.ppm_step.specs.Frames.{put, link, target_of};
ghost use Rattle.ppm_step.specs.Points.{outcome_word};
ghost use Rattle.ppm_step.specs.declared.content.Content.TheVariants.{ANumber, AFinish};

use crate::content::Content;
use ppm_cells::{Cell, Finish, Link, LinkKind, RestartKind, Side, header_at, left_frame};
use ppm_code::{Code, End};

/// A store of the end of a capsule.
#[derive(Clone, Copy, Debug, PartialEq, Eq)]
pub struct Put {
    pub cell: Cell,
    pub content: Content,
}

/// A frame with the copy of its header that is in use, and its new block, 0 until it asks for one.
#[derive(Clone, Copy, Debug, PartialEq, Eq)]
pub struct Home {
    pub frame: u32,
    pub copy: u32,
    pub block: u32,
}

/// The words of a frame of a procedure.
#[inline(always)]
fn size_of(code: &Code, procedure: u32) -> u32
    ensures value { result ≡ frame_size code.now procedure }
    ensures bound { result ≤ 31 }
{
    match code.parts().procedures.as_slice().get(procedure as usize) {
        Some(found) => 6 + found.slots,
        None => 6,
    }
}

/// The capsule with which a procedure begins.
#[inline(always)]
fn entry_of(code: &Code, procedure: u32) -> u32
    ensures { result ≡ entry_of code.now procedure }
{
    match code.parts().procedures.as_slice().get(procedure as usize) {
        Some(found) => found.entry,
        None => 0,
    }
}

/// A store of a number.
#[inline(always)]
fn store(cell: Cell, number: u64) -> Put
    ensures { result ≡ put cell (ANumber number) }
{
    Put {
        cell,
        content: Content::ANumber(number),
    }
}

/// A store of the link of a block, or of a frame in one.
#[inline(always)]
fn store_link(address: u32, kind: LinkKind, size: u32) -> Put
    ensures { result ≡ put (BlockWord address) (link kind size) }
{
    Put {
        cell: Cell::BlockWord { address },
        content: Content::ALink(Link { kind, size }),
    }
}

/// A store of the outcome with which a frame begins.
#[inline(always)]
fn store_ended(frame: u32) -> Put
    requires { frame + 1 < 2 ^ 32 }
    ensures { result ≡ put (outcome_word frame) (AFinish Ended) }
{
    Put {
        cell: Cell::outcome_word(frame),
        content: Content::AFinish(Finish::Ended),
    }
}

/// The target word of a slot.
#[inline(always)]
fn target_of(to: Option<u32>) -> u64
    ensures { result ≡ target_of to }
{
    match to {
        None => 0,
        Some(slot) => u64::from(slot) + 1,
    }
}

impl Home {
    ghost use Rattle.std.specs.Prelude.{◌≡◌, ◌+◌, ◌^◌, ◌<◌, slice_get, IfSome, Some};
    ghost use Rattle.ppm_cells.specs.declared.restart.RestartKind.TheVariants.{Run};
    ghost use Rattle.ppm_step.specs.Points.{header_word};
    ghost use Rattle.ppm_code.specs.Sizes.{frame_size};
    ghost use Rattle.ppm_cells.specs.declared.link.LinkKind.TheVariants.{Branch};
    ghost use Rattle.ppm_step.specs.Contents.{IsContent};
    ghost use Rattle.ppm_step.specs.Facts.{IsEnd, IsHome};
    ghost use Rattle.ppm_step.specs.Frames.{puts, call_puts, fork_puts, fork_to_puts, fork_puts_by};
    ghost use Rattle.ppm_step.specs.Frames.{installed, goes_on, other_copy, target_of, IsNext};

    /// The copy that is not in use.
    #[inline(always)]
    fn other(&self) -> u32
        requires { IsHome self.now }
        ensures { result ≡ other_copy self.now.copy }
    {
        1 - self.copy
    }

    /// The address of the header that is not in use.
    #[inline(always)]
    pub fn header(&self) -> u32
        requires { IsHome self.now }
        ensures value { BlockWord result ≡ header_word self.now.frame (other_copy self.now.copy) }
        ensures bound { result < 2 ^ 28 + 4 }
    {
        header_at(self.frame, self.other())
    }

    /// The frame goes on with the other copy of its header.
    #[inline(always)]
    pub fn goes_round(&self) -> RestartKind
        requires { IsHome self.now }
        ensures { result ≡ Run self.now.frame (other_copy self.now.copy) }
    {
        RestartKind::Run {
            frame: self.frame,
            copy: self.other(),
        }
    }

    /// The frame is to go on with a capsule.
    #[inline(always)]
    fn goes_on(&self, capsule: u32) -> Put
        requires { IsHome self.now }
        ensures { result ≡ goes_on self.now capsule }
    {
        store(
            Cell::header_word(self.frame, self.other()),
            u64::from(capsule),
        )
    }

    /// The n-th store of a call.
    #[inline(always)]
    fn call_put(
        &self,
        code: &Code,
        procedure: u32,
        capsule: u32,
        to: Option<u32>,
        n: usize,
    ) -> Option<Put>
        requires { IsHome self.now }
        ensures value { result ≡ slice_get (call_puts code.now self.now procedure capsule to) n }
        ensures fits { IfSome result (λ p. IsContent p.content) }
        ensures few { IfSome result (λ p. n < 11) }
    {
        let caller = LinkKind::Call {
            frame: self.frame,
            copy: self.other(),
        };
        match (n, to) {
            (0, _) => Some(store_link(self.block, caller, size_of(code, procedure))),
            (1, _) => Some(store_ended(self.block)),
            (2, _) => {
                let header = Cell::header_word(self.block, 0);
                Some(store(header, u64::from(entry_of(code, procedure))))
            }
            (3, None) | (4, Some(_)) => Some(self.goes_on(capsule)),
            (3, Some(slot)) => { Some(store(Cell::target_word(self.block), u64::from(slot) + 1)) }
            _ => None,
        }
    }

    /// The link of a branch's frame.
    #[inline(always)]
    fn branch(&self, side: Side) -> LinkKind
        ensures { result ≡ Branch side self.now.block }
    {
        LinkKind::Branch {
            side,
            block: self.block,
        }
    }

    /// The n-th store of a fork without targets.
    #[inline(always)]
    fn fork_put(&self, code: &Code, left: u32, right: u32, capsule: u32, n: usize) -> Option<Put>
        requires { IsHome self.now }
        ensures value { result
            ≡ slice_get (fork_puts code.now self.now left right capsule (self.now.block + (5 + frame_size code.now left))) n }
        ensures fits { IfSome result (λ p. IsContent p.content) }
        ensures few { IfSome result (λ p. n < 11) }
    {
        let left_at = left_frame(self.block);
        let offset = 5 + size_of(code, left);
        let right_at = self.block + offset;
        let parent = LinkKind::Fork {
            frame: self.frame,
            copy: self.other(),
        };
        match n {
            0 => Some(store_link(self.block, parent, offset + size_of(code, right))),
            1 => Some(store(Cell::offset_word(self.block), u64::from(offset))),
            2 => Some(store_link(left_at, self.branch(Side::Left), size_of(code, left))),
            3 => Some(store_ended(left_at)),
            4 => {
                let header = Cell::header_word(left_at, 0);
                Some(store(header, u64::from(entry_of(code, left))))
            }
            5 => Some(store_link(right_at, self.branch(Side::Right), size_of(code, right))),
            6 => Some(store_ended(right_at)),
            7 => {
                let header = Cell::header_word(right_at, 0);
                Some(store(header, u64::from(entry_of(code, right))))
            }
            8 => Some(self.goes_on(capsule)),
            _ => None,
        }
    }

    /// The n-th store of a fork with targets.
    #[inline(always)]
    fn fork_to_put(
        &self,
        code: &Code,
        left: u32,
        right: u32,
        capsule: u32,
        targets: (Option<u32>, Option<u32>),
        n: usize,
    ) -> Option<Put>
        requires { IsHome self.now }
        ensures value { result
            ≡ slice_get (fork_to_puts code.now self.now left right capsule (self.now.block + (5 + frame_size code.now left))
            (target_of targets.0) (target_of targets.1)) n }
        ensures fits { IfSome result (λ p. IsContent p.content) }
        ensures few { IfSome result (λ p. n < 11) }
    {
        let left_at = left_frame(self.block);
        let offset = 5 + size_of(code, left);
        let right_at = self.block + offset;
        let parent = LinkKind::Fork {
            frame: self.frame,
            copy: self.other(),
        };
        match n {
            0 => Some(store_link(self.block, parent, offset + size_of(code, right))),
            1 => Some(store(Cell::offset_word(self.block), u64::from(offset))),
            2 => Some(store_link(left_at, self.branch(Side::Left), size_of(code, left))),
            3 => Some(store_ended(left_at)),
            4 => {
                let header = Cell::header_word(left_at, 0);
                Some(store(header, u64::from(entry_of(code, left))))
            }
            5 => Some(store(Cell::target_word(left_at), target_of(targets.0))),
            6 => Some(store_link(right_at, self.branch(Side::Right), size_of(code, right))),
            7 => Some(store_ended(right_at)),
            8 => {
                let header = Cell::header_word(right_at, 0);
                Some(store(header, u64::from(entry_of(code, right))))
            }
            9 => Some(store(Cell::target_word(right_at), target_of(targets.1))),
            10 => Some(self.goes_on(capsule)),
            _ => None,
        }
    }

    /// The n-th store of a fork of two procedures, left and right, with targets if one is named.
    #[inline(always)]
    fn fork_put_by(
        &self,
        code: &Code,
        procedures: (u32, u32),
        capsule: u32,
        targets: (Option<u32>, Option<u32>),
        n: usize,
    ) -> Option<Put>
        requires { IsHome self.now }
        ensures value { result
            ≡ slice_get (fork_puts_by code.now self.now procedures.0 procedures.1 capsule targets.0 targets.1) n }
        ensures fits { IfSome result (λ p. IsContent p.content) }
        ensures few { IfSome result (λ p. n < 11) }
    {
        let (left, right) = procedures;
        match targets {
            (None, None) => self.fork_put(code, left, right, capsule, n),
            (Some(_), None) => self.fork_to_put(code, left, right, capsule, targets, n),
            (None, Some(_)) => self.fork_to_put(code, left, right, capsule, targets, n),
            (Some(_), Some(_)) => self.fork_to_put(code, left, right, capsule, targets, n),
        }
    }

    /// The n-th store of an end; `None` after the last one.
    #[inline(always)]
    fn put(&self, code: &Code, end: End, n: usize) -> Option<Put>
        requires home { IsHome self.now }
        requires end { IsEnd end }
        ensures value { result ≡ slice_get (puts code.now self.now end) n }
        ensures fits { IfSome result (λ p. IsContent p.content) }
        ensures few { IfSome result (λ p. n < 11) }
    {
        match end {
            End::Next { capsule } => if n == 0 {
                Some(self.goes_on(capsule))
            } else {
                None
            },
            End::Finish => None,
            End::Trap { trap, line } => if n == 0 {
                Some(Put {
                    cell: Cell::outcome_word(self.frame),
                    content: Content::AFinish(Finish::Trapped { trap, line }),
                })
            } else {
                None
            },
            End::Call {
                procedure,
                capsule,
                to,
            } => self.call_put(code, procedure, capsule, to, n),
            End::Fork {
                left,
                right,
                capsule,
                left_to,
                right_to,
            } => self.fork_put_by(code, (left, right), capsule, (left_to, right_to), n),
        }
    }

    /// The n-th store of an end, which comes next; `None` where the restart word does.
    #[tactic(auto, using(crate::proofs::StoringLemmas::ending_by))]
    #[inline(always)]
    pub fn coming_put(&self, code: &Code, end: End, n: usize) -> Option<Put>
        requires home { IsHome self.now }
        requires end { IsEnd end }
        ensures next { IsNext code.now self.now end n result }
        ensures few { IfSome result (λ p. n < 11) }
        ensures fits { IfSome result (λ p. IsContent p.content) }
    {
        self.put(code, end, n)
    }

    /// Does what `put` does, as a function of its own, for callers that seldom store.
    #[inline(never)]
    pub fn next_put(&self, code: &Code, end: End, n: usize) -> Option<Put>
        requires home { IsHome self.now }
        requires end { IsEnd end }
        ensures next { IsNext code.now self.now end n result }
        ensures few { IfSome result (λ p. n < 11) }
        ensures fits { IfSome result (λ p. IsContent p.content) }
    {
        self.coming_put(code, end, n)
    }

    /// What an end installs.
    #[inline(always)]
    pub fn installed(&self, end: End) -> RestartKind
        requires { IsHome self.now }
        ensures { result ≡ installed self.now end }
    {
        match end {
            End::Next { .. } => self.goes_round(),
            End::Finish | End::Trap { .. } => RestartKind::Unwind { frame: self.frame },
            End::Call { .. } | End::Fork { .. } => RestartKind::Bump { block: self.block },
        }
    }
}
