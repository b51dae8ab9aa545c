//! What a frame holds: the locals and regions of a procedure's run, by their slots.
ghost use Rattle.std.specs.Prelude.{◌≡◌, pos, get_or, IfOk, OnOk};
ghost use Rattle.ppm_tree.specs.State.{nowhere};
ghost use Rattle.ppm_serial.specs.Slots.{fresh, with_local_at, with_region_at, with_regions};

use crate::region::Region;
use ppm_words::NoMemory;
use std::alloc::Global;
use std::marker::Model;

/// Locals and regions, by their slots.
#[derive(Drop)]
pub(crate) struct Content {
    locals: Vec<i64>,
    regions: Vec<Region>,
}

/// The regions of a frame, by their slots.
#[derive(Drop)]
pub(crate) struct Regions {
    regions: Vec<Region>,
}

impl Model for Regions {
    ghost use Rattle.std.specs.Prelude.{List};
    ghost use Rattle.ppm_tree.specs.State as state;

    ghost Value = { List state.Region };

    ghost view = { λ r. r.regions.items };
}

impl Model for Content {
    ghost use Rattle.ppm_serial.specs.Slots.{Slots};

    ghost Value = { Slots };

    ghost view = { λ f. record { locals = f.locals.items; regions = f.regions.items } };
}

impl Content {
    /// Locals that are all 0, and regions none of which is anywhere, of each the given number.
    pub(crate) fn fresh(alloc: Global, locals: usize, regions: usize) -> Result<Self, NoMemory>
        ensures { IfOk result (λ f. f ≡ fresh locals regions) }
    {
        let locals = Vec::from_elem(alloc, 0, locals)?;
        let regions = Vec::from_elem(alloc, Region::nowhere(), regions)?;
        Ok(Content { locals, regions })
    }

    /// Such a content in the memory of one that is over.
    #[inline(always)]
    pub(crate) fn renew(
        &mut self,
        alloc: Global,
        locals: usize,
        regions: usize,
    ) -> Result<(), NoMemory>
        ensures { OnOk result (self.new ≡ fresh locals regions) }
    {
        if self.locals.len() == locals {
            self.locals.fill(0);
        } else {
            self.locals = Vec::from_elem(alloc, 0, locals)?;
        }
        if self.regions.len() == regions {
            self.regions.fill(Region::nowhere());
        } else {
            self.regions = Vec::from_elem(alloc, Region::nowhere(), regions)?;
        }
        Ok(())
    }

    /// A copy.
    pub(crate) fn try_clone(&self, alloc: Global) -> Result<Self, NoMemory>
        ensures { IfOk result (λ f. f ≡ self.now) }
    {
        let locals = Vec::from_slice(alloc, &self.locals)?;
        let regions = Vec::from_slice(alloc, &self.regions)?;
        Ok(Content { locals, regions })
    }

    /// Becomes a copy of another, in its own memory where that has the same sizes.
    pub(crate) fn copy_from(&mut self, alloc: Global, other: &Content) -> Result<(), NoMemory>
        ensures { OnOk result (self.new ≡ other.now) }
    {
        if self.locals.len() == other.locals.len() {
            self.locals.copy_from_slice(&other.locals);
        } else {
            self.locals = Vec::from_slice(alloc, &other.locals)?;
        }
        if self.regions.len() == other.regions.len() {
            self.regions.copy_from_slice(&other.regions);
        } else {
            self.regions = Vec::from_slice(alloc, &other.regions)?;
        }
        Ok(())
    }

    /// The local in a slot, 0 where there is no such slot.
    pub(crate) fn local(&self, slot: usize) -> i64
        ensures { result ≡ get_or self.now.locals slot (pos 0) }
    {
        match self.locals.get(slot) {
            Some(value) => *value,
            None => 0,
        }
    }

    /// The region in a slot.
    pub(crate) fn region(&self, slot: usize) -> Region
        ensures { result ≡ get_or self.now.regions slot nowhere }
    {
        match self.regions.get(slot) {
            Some(region) => *region,
            None => Region::nowhere(),
        }
    }

    /// Puts a value into a slot, if there is one.
    pub(crate) fn set_local(&mut self, slot: usize, value: i64)
        ensures { self.new ≡ with_local_at self.old slot value }
    {
        if slot < self.locals.len() {
            self.locals[slot] = value;
        }
    }

    /// Puts a region into a slot, if there is one.
    pub(crate) fn set_region(&mut self, slot: usize, region: Region)
        ensures { self.new ≡ with_region_at self.old slot region }
    {
        if slot < self.regions.len() {
            self.regions[slot] = region;
        }
    }

    /// A copy of its regions.
    pub(crate) fn regions(&self, alloc: Global) -> Result<Regions, NoMemory>
        ensures { IfOk result (λ r. r ≡ self.now.regions) }
    {
        let regions = Vec::from_slice(alloc, &self.regions)?;
        Ok(Regions { regions })
    }

    /// Takes other regions.
    pub(crate) fn set_regions(&mut self, regions: Regions)
        ensures { self.new ≡ with_regions self.old regions }
    {
        self.regions = regions.regions;
    }
}
