//! The frame of a procedure's run.
ghost use Rattle.std.specs.Prelude.{◌≡◌, get_or, IfOk, OnOk};
ghost use Rattle.ppm_tree.specs.State.{nowhere};
ghost use Rattle.ppm_serial.specs.Slots.{fresh, with_local_at, with_region_at, with_regions};

use crate::content::{Content, Regions};
use crate::region::Region;
use ppm_words::NoMemory;
use std::alloc::Global;
use std::marker::Model;

/// Locals and regions, by their slots. They lie in a box, since a call moves its caller's
/// frame and its own.
#[derive(Drop)]
pub(crate) struct Frame {
    content: Box<Content>,
}

impl Model for Frame {
    ghost use Rattle.ppm_serial.specs.Slots.{Slots};

    ghost Value = { Slots };

    ghost view = { λ f. f.content.value };
}

impl Frame {
    /// A frame with so many locals, each 0, and so many regions, none of which is anywhere.
    pub(crate) fn fresh(alloc: Global, locals: usize, regions: usize) -> Result<Self, NoMemory>
        ensures { IfOk result (λ f. f ≡ fresh locals regions) }
    {
        let content = Content::fresh(alloc, locals, regions)?;
        let content = Box::new(alloc, content)?;
        Ok(Frame { content })
    }

    /// Such a frame in the memory of one that is over.
    #[inline(always)]
    pub(crate) fn renew(
        &mut self,
        alloc: Global,
        locals: usize,
        regions: usize,
    ) -> Result<(), NoMemory>
        ensures { OnOk result (self.new ≡ fresh locals regions) }
    {
        self.content.renew(alloc, locals, regions)
    }

    /// A copy of the frame.
    pub(crate) fn try_clone(&self, alloc: Global) -> Result<Self, NoMemory>
        ensures { IfOk result (λ f. f ≡ self.now) }
    {
        let content = self.content.try_clone(alloc)?;
        let content = Box::new(alloc, content)?;
        Ok(Frame { content })
    }

    /// Becomes a copy of another frame, in its own memory where that has the same sizes.
    pub(crate) fn copy_from(&mut self, alloc: Global, other: &Frame) -> Result<(), NoMemory>
        ensures { OnOk result (self.new ≡ other.now) }
    {
        self.content.copy_from(alloc, &other.content)
    }

    /// What it holds.
    #[inline(always)]
    pub(crate) fn content(&self) -> &Content
        ensures { result.now ≡ self.now }
    {
        &self.content
    }

    /// The region in a slot.
    #[inline(always)]
    pub(crate) fn region(&self, slot: usize) -> Region
        ensures { result ≡ get_or self.now.regions slot nowhere }
    {
        self.content.region(slot)
    }

    /// Puts a value into a slot, if there is one.
    #[inline(always)]
    pub(crate) fn set_local(&mut self, slot: usize, value: i64)
        ensures { self.new ≡ with_local_at self.old slot value }
    {
        self.content.set_local(slot, value);
    }

    /// Puts a region into a slot, if there is one.
    #[inline(always)]
    pub(crate) fn set_region(&mut self, slot: usize, region: Region)
        ensures { self.new ≡ with_region_at self.old slot region }
    {
        self.content.set_region(slot, region);
    }

    /// A copy of its regions.
    pub(crate) fn regions(&self, alloc: Global) -> Result<Regions, NoMemory>
        ensures { IfOk result (λ r. r ≡ self.now.regions) }
    {
        self.content.regions(alloc)
    }

    /// Takes other regions.
    pub(crate) fn set_regions(&mut self, regions: Regions)
        ensures { self.new ≡ with_regions self.old regions }
    {
        self.content.set_regions(regions);
    }
}
