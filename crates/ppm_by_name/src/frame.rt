//! The frame of a procedure's run: what its names stand for.
ghost use Rattle.std.specs.Prelude.{◌≡◌, ◌∷◌, ◌<◌, ◌^◌, [], IfOk, List, OnOk, pos};
ghost use Rattle.std.specs.Str.{bytes_eq};
ghost use Rattle.ppm_tree.specs.State.{Region, delivered};
ghost use Rattle.ppm_by_name.specs.Frames.{frame_of, local_of, region_of, slot_of, with_bound, with_lent};
ghost use Rattle.ppm_by_name.specs.declared.frame.Lent.{Lent};

use crate::region::Region;
use ppm_tree::Named;
use ppm_words::{Name, NoMemory};
use std::alloc::Global;
use std::marker::Model;

/// A local and its value.
#[derive(Drop)]
pub struct Local {
    name: Name,
    value: i64,
}

/// A region by its name.
#[derive(Drop)]
pub struct Lent {
    name: Name,
    region: Region,
}

/// Locals and regions, by their names; the region that was lent last stands first.
#[derive(Drop)]
pub struct Frame {
    locals: Vec<Local>,
    regions: Vec<Lent>,
}

impl Model for Frame {
    ghost use Rattle.ppm_by_name.specs.Frames.{Bound};

    ghost Value = { Bound };

    ghost view = { λ f. record { locals = f.locals.items; regions = f.regions.items } };
}

/// Whether two names are the same.
pub(crate) fn same(x: &Name, y: &Name) -> bool
    ensures { result ≡ bytes_eq x.now y.now }
{
    x.is(y)
}

/// The value of a local, 0 where there is none of this name.
fn value_in(locals: &[Local], name: &Name) -> i64
    ensures { result ≡ local_of locals.now name.now }
{
    let mut left = locals;
    while let [first, rest @ ..] = left {
        if same(&first.name, name) {
            return first.value;
        }
        left = rest;
    }
    0
}

/// The region of a name.
fn region_in(regions: &[Lent], name: &Name) -> Region
    ensures { result ≡ region_of regions.now name.now }
{
    let mut left = regions;
    while let [first, rest @ ..] = left {
        if same(&first.name, name) {
            return first.region;
        }
        left = rest;
    }
    Region::nowhere()
}

/// The place of the first local with a name, or how many there are.
fn slot_in(locals: &[Local], name: &Name) -> usize
    ensures { result ≡ slot_of locals.now name.now }
{
    let mut at = 0;
    let mut left = locals;
    while let [first, rest @ ..] = left {
        if same(&first.name, name) {
            return at;
        }
        at += 1;
        left = rest;
    }
    at
}

/// A copy of locals.
fn copied_locals(alloc: Global, locals: &[Local]) -> Result<Vec<Local>, NoMemory>
    ensures { IfOk result (λ copy. copy.items ≡ locals.now) }
{
    let mut all = Vec::new(alloc);
    let mut left = locals;
    while let [first, rest @ ..] = left {
        let name = first.name.try_clone(alloc)?;
        all.push(Local {
            name,
            value: first.value,
        })?;
        left = rest;
    }
    Ok(all)
}

/// A copy of regions.
fn copied_regions(alloc: Global, regions: &[Lent]) -> Result<Vec<Lent>, NoMemory>
    ensures { IfOk result (λ copy. copy.items ≡ regions.now) }
{
    let mut all = Vec::new(alloc);
    let mut left = regions;
    while let [first, rest @ ..] = left {
        let name = first.name.try_clone(alloc)?;
        all.push(Lent {
            name,
            region: first.region,
        })?;
        left = rest;
    }
    Ok(all)
}

impl Frame {
    /// A frame without names.
    pub(crate) fn empty(alloc: Global) -> Self
        ensures { result ≡ record { locals = []; regions = [] } }
    {
        Frame {
            locals: Vec::new(alloc),
            regions: Vec::new(alloc),
        }
    }

    /// A copy of the frame.
    pub fn try_clone(&self, alloc: Global) -> Result<Self, NoMemory>
        ensures { IfOk result (λ f. f ≡ self.now) }
    {
        let locals = copied_locals(alloc, &self.locals)?;
        let regions = copied_regions(alloc, &self.regions)?;
        Ok(Frame { locals, regions })
    }

    /// The value of a local, 0 where there is none of this name.
    pub(crate) fn local(&self, name: &Name) -> i64
        ensures { result ≡ local_of self.now.locals name.now }
    {
        value_in(&self.locals, name)
    }

    /// The region of a name.
    pub fn region(&self, name: &Name) -> Region
        ensures { result ≡ region_of self.now.regions name.now }
    {
        region_in(&self.regions, name)
    }

    /// A local gets a value.
    #[tactic(auto, using(crate::proofs::FrameLemmas::bound_there, crate::proofs::FrameLemmas::bound_new))]
    pub fn set(&mut self, alloc: Global, name: &Name, value: i64) -> Result<(), NoMemory>
        ensures { OnOk result (self.new ≡ with_bound self.old name.now value) }
    {
        let at = slot_in(&self.locals, name);
        if at < self.locals.len() {
            self.locals[at].value = value;
            return Ok(());
        }
        let name = name.try_clone(alloc)?;
        self.locals.push(Local { name, value })?;
        Ok(())
    }

    /// A local gets an index.
    pub fn set_index(&mut self, alloc: Global, name: &Name, index: usize) -> Result<(), NoMemory>
        requires { index < 2 ^ 32 }
        ensures { OnOk result (self.new ≡ with_bound self.old name.now (pos index)) }
    {
        self.set(alloc, name, index as i64)
    }

    /// A target gets a value, if there is one.
    #[tactic(auto, using(crate::proofs::FrameLemmas::bound_is))]
    pub fn deliver(
        &mut self,
        alloc: Global,
        target: &Option<Named>,
        value: i64,
    ) -> Result<(), NoMemory>
        ensures frame { OnOk result (frame_of self.new ≡ delivered target.now value (frame_of self.old)) }
        ensures regions { OnOk result (self.new.regions ≡ self.old.regions) }
    {
        match target {
            Some(target) => self.set(alloc, &target.name, value),
            None => Ok(()),
        }
    }

    /// A region gets a name, until it is taken back.
    pub fn lend(&mut self, alloc: Global, name: &Name, region: Region) -> Result<(), NoMemory>
        ensures { OnOk result (self.new ≡ with_lent self.old name.now region) }
    {
        let name = name.try_clone(alloc)?;
        self.regions.insert(0, Lent { name, region })?;
        Ok(())
    }

    /// The name that was lent last is taken back, if there is one.
    pub fn take_back(&mut self)
        ensures locals { self.new.locals ≡ self.old.locals }
        ensures regions { (lent : Lent) (rest : List Lent) → self.old.regions ≡ lent ∷ rest
            → self.new.regions ≡ rest }
        ensures none { self.old.regions ≡ [] → self.new.regions ≡ [] }
    {
        if !self.regions.is_empty() {
            self.regions.remove(0);
        }
    }

    /// The regions are those of another frame again.
    pub fn restore(&mut self, other: Frame)
        ensures { self.new ≡ record { locals = self.old.locals; regions = other.regions } }
    {
        self.regions = other.regions;
    }
}
