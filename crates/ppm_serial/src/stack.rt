//! What is still to come in a run.
ghost use Rattle.std.specs.Prelude.{◌≡◌, ◌∷◌, [], Ok, IfOk};
ghost use Rattle.ppm_serial.specs.Answers.{Does, IsPopped};
ghost use Rattle.ppm_serial.specs.Slots.{fresh};

use crate::code::{Place, Stop};
use crate::content::Regions;
use crate::frame::Frame;
use crate::region::Region;
use ppm_words::NoMemory;
use std::alloc::Global;
use std::marker::Model;

/// The blocks of an `each` that are still to come.
#[derive(Drop)]
pub(crate) struct Sweep {
    /// The slot of the index.
    pub(crate) index: usize,
    /// The slot of the part.
    pub(crate) part: usize,
    pub(crate) block: usize,
    pub(crate) region: Region,
    /// The index of the next block.
    pub(crate) next: usize,
    /// The frame at the start, which each block has.
    pub(crate) frame: Frame,
    /// What follows.
    pub(crate) place: Place,
}

/// A procedure that waits for one that it called.
#[derive(Drop)]
pub(crate) struct Caller {
    pub(crate) frame: Frame,
    /// What follows.
    pub(crate) place: Place,
    /// The slot of the target, if any.
    pub(crate) target: Option<usize>,
    /// The procedure that was called.
    pub(crate) callee: usize,
}

/// What comes after a block.
#[derive(Drop)]
pub(crate) enum Rest {
    /// Another block of the same frame, from a place on.
    Block(Place),
    /// The end of a split's block: the regions as they were, and what follows.
    Parts(Regions, Place),
    Sweep(Sweep),
    Call(Caller),
    /// The right branch of a fork: who waits for the left one, the right one's target, procedure
    /// and frame.
    Left(Caller, Option<usize>, usize, Frame),
    /// The end of a fork: who waits for the right branch, the left one's target and value.
    Right(Caller, Option<usize>, i64),
}

/// What is still to come, the next one on top.
#[derive(Drop)]
pub(crate) struct Stack {
    rests: Vec<Rest>,
    /// Frames that are over, whose memory the next ones take.
    spare: Vec<Frame>,
}

impl Model for Stack {
    ghost use Rattle.std.specs.Prelude.{List, reverse};
    ghost use Rattle.ppm_serial.specs.declared.stack.Rest.{Rest};

    ghost Value = { List Rest };

    ghost view = { λ s. reverse s.rests.items };
}

impl Stack {
    /// A stack with nothing on it.
    pub(crate) fn new(alloc: Global) -> Self
        ensures { result ≡ [] }
    {
        Stack {
            rests: Vec::new(alloc),
            spare: Vec::new(alloc),
        }
    }

    /// Puts one on top.
    #[inline(always)]
    pub(crate) fn push(&mut self, rest: Rest) -> Result<(), Stop>
        ensures { Does result self.new (Ok (rest ∷ self.old)) }
    {
        self.rests.push(rest)?;
        Ok(())
    }

    /// Takes the one on top, if there is one.
    #[inline(always)]
    pub(crate) fn pop(&mut self) -> Option<Rest>
        ensures { IsPopped result self.old self.new }
    {
        self.rests.pop()
    }

    /// A frame with so many locals, each 0, and so many regions, none of which is anywhere.
    #[inline(always)]
    pub(crate) fn frame(
        &mut self,
        alloc: Global,
        locals: usize,
        regions: usize,
    ) -> Result<Frame, NoMemory>
        ensures value { IfOk result (λ f. f ≡ fresh locals regions) }
        ensures kept { self.new ≡ self.old }
    {
        match self.spare.pop() {
            None => Frame::fresh(alloc, locals, regions),
            Some(mut frame) => {
                frame.renew(alloc, locals, regions)?;
                Ok(frame)
            }
        }
    }

    /// Takes a frame that is over. Where there is no room to keep it, its memory is given back.
    #[inline(always)]
    pub(crate) fn spare(&mut self, frame: Frame)
        ensures kept { self.new ≡ self.old }
    {
        let _ = self.spare.push(frame);
    }
}
