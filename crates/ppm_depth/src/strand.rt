//! The one strand of a depth-first run: a stack of blocks, and the frames that wait.
ghost use Rattle.std.specs.Prelude.{[], ◌≡◌, ◌<◌, ◌≤◌, ◌^◌, ◌+◌, IfOk, OnOk, length};
ghost use Rattle.ppm_strands.specs.Run.{none, plus};
ghost use Rattle.ppm_code.specs.Code.{EndFits, IsCode};
ghost use Rattle.ppm_code.specs.Limits.{room_limit};
ghost use Rattle.ppm_code.specs.Sizes.{procedure_at, size_at};
ghost use Rattle.ppm_code.specs.Strands.{instrs_of as instrs_in_code};
ghost use Rattle.ppm_code.specs.Tidy.{IsTidy};
ghost use Rattle.ppm_depth.specs.Moves.{AreSlotsThere, IsSlotThere, entry_at, gone_on, joined};
ghost use Rattle.ppm_depth.specs.Moves.{resumed};
ghost use Rattle.ppm_depth.specs.Moves.{counts_by, now_after, stack_after, waiting_after};
ghost use Rattle.ppm_depth.specs.Moves.{with_slot};
ghost use Rattle.ppm_depth.specs.Moves.{stack_gone_on, stack_joined, stack_resumed};
ghost use Rattle.ppm_depth.specs.Moves.{waiting_resumed, pending};
ghost use Rattle.ppm_depth.specs.Stack.{Strands};
ghost use Rattle.ppm_depth.specs.Start.{words_of};
ghost use Rattle.ppm_depth.specs.Turns.{AreFew, HasCome, ShowsTree, Turns, counts_of};
ghost use Rattle.ppm_depth.specs.declared.frame.Now.TheVariants.{At};

use crate::capsule::{Done, block_words, instrs_of, run_capsule};
use crate::frame::{Finish, For, Frame, Now, Waiting};
use crate::store::{Place, Store};
use ppm_code::{Code, End, frame_size};
use ppm_words::NoMemory;
use std::alloc::Global;

/// What a run has counted so far, but for the root's frame.
#[derive(Clone, Copy, Debug, PartialEq, Eq)]
pub struct Counts {
    pub capsules: u64,
    pub forks: u64,
    pub block_words: u64,
}

/// The strand: the words that it works on, the frames that wait, the outermost first, and its
/// counts.
#[derive(Drop)]
pub struct Strand {
    pub store: Store,
    pub waiting: Vec<Waiting>,
    pub counts: Counts,
}

/// The frame of a procedure that begins at a word of the stack.
pub fn entry(code: &Code, procedure: u32, base: usize) -> Frame
    requires { procedure < length code.now.procedures }
    ensures value { result ≡ entry_at code.now procedure base }
    ensures code { IsCode code.now }
{
    let parts = code.parts();
    Frame {
        base,
        capsule: parts.procedures.as_slice()[procedure as usize].entry,
    }
}

/// Puts a value into a slot of a frame, if one is named.
fn take_in(blocks: &mut Vec<u64>, frame: Frame, to: Option<u32>, value: u64)
    requires { IsSlotThere frame to (length blocks.old.items) }
    ensures { blocks.new.items ≡ with_slot frame to value blocks.old.items }
{
    if let Some(slot) = to {
        blocks[frame.base + (6 + slot as usize)] = value;
    }
}

/// How a frame goes on once its callee or its right branch is over.
fn go_on(blocks: &mut Vec<u64>, frame: Frame, to: Option<u32>, finish: Finish) -> Now
    requires { IsSlotThere frame to (length blocks.old.items) }
    ensures now { result ≡ gone_on frame finish }
    ensures blocks { blocks.new.items ≡ stack_gone_on frame to finish blocks.old.items }
{
    match finish {
        Finish::Trapped(..) => Now::Over(finish),
        Finish::Gave(value) => {
            take_in(blocks, frame, to, value);
            Now::At(frame)
        }
    }
}

impl Strand {
    /// A strand with nothing counted, where no frame waits.
    pub fn new(alloc: Global, store: Store) -> Self
        ensures store { result.store ≡ store }
        ensures waiting { result.waiting.items ≡ [] }
        ensures counts { counts_of result.counts ≡ none }
        ensures few { AreFew result.counts }
    {
        Strand {
            store,
            waiting: Vec::new(alloc),
            counts: Counts {
                capsules: 0,
                forks: 0,
                block_words: 0,
            },
        }
    }

    /// What follows a capsule of a frame, by its end; its new block begins at a word of the stack.
    pub fn follow(
        &mut self,
        code: &Code,
        frame: Frame,
        block: usize,
        end: End,
    ) -> Result<Now, NoMemory>
        requires there { frame.base + size_at code.now frame.capsule ≤ block }
        requires block { block ≤ length self.old.store.blocks.items }
        requires fits { EndFits code.now (procedure_at code.now frame.capsule) (instrs_in_code code.now frame.capsule) end }
        ensures now { IfOk result (λ now. now
            ≡ now_after code.now frame block self.old.store.blocks.items end) }
        ensures blocks { OnOk result (self.new.store.blocks.items
            ≡ stack_after block self.old.store.blocks.items end) }
        ensures waiting { OnOk result
            (self.new.waiting.items
            ≡ waiting_after code.now frame block self.old.waiting.items end) }
        ensures words { self.new.store.words.items ≡ self.old.store.words.items }
        ensures counts { self.new.counts ≡ self.old.counts }
    {
        match end {
            End::Next { capsule } => {
                self.store.blocks.truncate(block);
                Ok(Now::At(Frame {
                    base: frame.base,
                    capsule,
                }))
            }
            End::Finish => {
                let value = self.store.blocks[frame.base + 4];
                self.store.blocks.truncate(block);
                Ok(Now::Over(Finish::Gave(value)))
            }
            End::Trap { trap, line } => {
                self.store.blocks.truncate(block);
                Ok(Now::Over(Finish::Trapped(trap, line)))
            }
            End::Call {
                procedure,
                capsule,
                to,
            } => {
                self.waiting.push(Waiting {
                    frame: Frame {
                        base: frame.base,
                        capsule,
                    },
                    block,
                    on: For::Callee { to },
                })?;
                Ok(Now::At(entry(code, procedure, block)))
            }
            End::Fork {
                left,
                right,
                capsule,
                left_to,
                right_to,
            } => {
                let right_base = block + (5 + frame_size(code, left) as usize);
                self.waiting.push(Waiting {
                    frame: Frame {
                        base: frame.base,
                        capsule,
                    },
                    block,
                    on: For::Left {
                        right: entry(code, right, right_base),
                        left_to,
                        to: right_to,
                    },
                })?;
                Ok(Now::At(entry(code, left, block + 5)))
            }
        }
    }

    /// Runs the capsule at which a frame stands.
    fn advance(&mut self, code: &Code, frame: Frame) -> Result<Now, NoMemory>
        requires tidy { IsTidy code.now }
        requires there { frame.capsule < length code.now.capsules }
        requires stack { frame.base + size_at code.now frame.capsule ≤ length self.old.store.blocks.items }
        requires few { AreFew self.old.counts }
        requires capsules { self.old.counts.capsules < 2 ^ 40 }
        ensures turn { IfOk result (λ now. Turns code.now 1 self.old self.new (At frame) now) }
        ensures words { OnOk result (length self.new.store.words.items
            ≡ length self.old.store.words.items) }
        ensures counts { OnOk result ((self.new.counts.capsules ≡ self.old.counts.capsules + 1)
            × AreFew self.new.counts) }
        ensures pending { OnOk result (pending self.new.waiting.items ≤ pending self.old.waiting.items + 4) }
    {
        let block = self.store.blocks.len();
        let words = block_words(instrs_of(code, frame.capsule));
        self.store.open_block(words)?;
        let place = Place {
            frame: frame.base,
            block,
        };
        let done = run_capsule(code, frame.capsule, place, &mut self.store);
        let now = self.follow(code, frame, block, done.end)?;
        self.counts = counted(self.counts, done);
        Ok(now)
    }

    /// What follows where that for which a frame waits is over.
    pub fn resume(&mut self, waiting: Waiting, finish: Finish) -> Result<Now, NoMemory>
        requires block { waiting.block ≤ length self.old.store.blocks.items }
        requires slots { AreSlotsThere waiting.frame waiting.on waiting.block }
        ensures now { IfOk result (λ now. now ≡ resumed waiting waiting.on finish) }
        ensures blocks { OnOk result
            (self.new.store.blocks.items
            ≡ stack_resumed waiting waiting.on finish self.old.store.blocks.items) }
        ensures waiting { OnOk result
            (self.new.waiting.items
            ≡ waiting_resumed waiting waiting.on finish self.old.waiting.items) }
        ensures words { self.new.store.words.items ≡ self.old.store.words.items }
        ensures counts { self.new.counts ≡ self.old.counts }
    {
        let frame = waiting.frame;
        match waiting.on {
            For::Callee { to } => {
                self.store.blocks.truncate(waiting.block);
                Ok(go_on(&mut self.store.blocks, frame, to, finish))
            }
            For::Left { right, left_to, to } => {
                self.waiting.push(Waiting {
                    frame,
                    block: waiting.block,
                    on: For::Right {
                        left: finish,
                        left_to,
                        to,
                    },
                })?;
                Ok(Now::At(right))
            }
            For::Right { left, left_to, to } => {
                self.store.blocks.truncate(waiting.block);
                Ok(join(&mut self.store.blocks, frame, left_to, left, to, finish))
            }
        }
    }

    /// Runs the strand from a frame to its end; `None` where more capsules would be run than that.
    pub fn run(&mut self, code: &Code, root: Frame, limit: u64) -> Result<Option<Finish>, NoMemory>
        requires tidy { IsTidy code.now }
        requires limit { limit ≤ 2 ^ 40 }
        requires counts { counts_of self.old.counts ≡ none }
        requires shown { (t : Strands) × ShowsTree code.now self.old (At root) t }
        ensures come { (t : Strands) → ShowsTree code.now self.old (At root) t
            → IfOk result (HasCome code.now (length self.old.store.words.items) limit t
            (words_of self.old.store.words.items) self.new) }
        ensures words { OnOk result (length self.new.store.words.items
            ≡ length self.old.store.words.items) }
        ensures few { OnOk result (AreFew self.new.counts) }
        ensures limit { OnOk result (self.new.counts.capsules ≤ limit) }
    {
        let mut now = Now::At(root);
        loop {
            match now {
                Now::At(frame) => {
                    if self.counts.capsules == limit {
                        return Ok(None);
                    }
                    now = self.advance(code, frame)?;
                }
                Now::Over(finish) => match self.waiting.pop() {
                    Some(waiting) => now = self.resume(waiting, finish)?,
                    None => return Ok(Some(finish)),
                },
            }
        }
    }
}

/// How a frame goes on once both its branches are over: it takes in the left value before the right
/// one.
fn join(
    blocks: &mut Vec<u64>,
    frame: Frame,
    left_to: Option<u32>,
    left: Finish,
    to: Option<u32>,
    right: Finish,
) -> Now
    requires left { IsSlotThere frame left_to (length blocks.old.items) }
    requires right { IsSlotThere frame to (length blocks.old.items) }
    ensures now { result ≡ joined frame left right }
    ensures blocks { blocks.new.items ≡ stack_joined frame left_to left to right blocks.old.items }
{
    match left {
        Finish::Trapped(..) => Now::Over(left),
        Finish::Gave(value) => {
            take_in(blocks, frame, left_to, value);
            go_on(blocks, frame, to, right)
        }
    }
}

/// The counts with those of one capsule.
pub fn counted(counts: Counts, done: Done) -> Counts
    requires few { AreFew counts }
    requires capsules { counts.capsules < 2 ^ 40 }
    requires asked { done.asked ≤ room_limit }
    ensures value { counts_of result ≡ plus (counts_of counts) (counts_by done) }
    ensures few { AreFew result }
{
    let forks = match done.end {
        End::Fork { .. } => 1,
        End::Next { .. } | End::Finish | End::Trap { .. } | End::Call { .. } => 0,
    };
    Counts {
        capsules: counts.capsules + 1,
        forks: counts.forks + forks,
        block_words: counts.block_words + u64::from(done.asked),
    }
}
