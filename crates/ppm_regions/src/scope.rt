//! The declarations in force at a place of a procedure.
ghost use Rattle.std.specs.Prelude.{◌≡◌, [], ◌∷◌, ◌++◌, length, take, None, OnOk, MatchOption};
ghost use Rattle.ppm_regions.specs.Scope.{plain, declared, part, in_split, in_each, index_of};
ghost use Rattle.ppm_regions.specs.Scope.{seen_in_split, seen_in_each};
ghost use Rattle.ppm_regions.specs.Kept.{Kept, AreWithin, Becomes, Enters, IsSomeAt, behind_one};
ghost use Rattle.ppm_regions.specs.Kept.{entered, seen};

use crate::ask::is_region;
use ppm_tree::{Mode, Named};
use ppm_words::{Name, NoMemory};
use std::alloc::Global;
use std::collections::HashMap;
use std::marker::Model;

/// A declaration: a region (`mut` or `ref`), or a local (`int`).
#[derive(Drop)]
pub struct Declaration<'a> {
    name: &'a Named,
    mode: Mode,
    hidden: bool,
    outer: bool,
}

impl<'a> Model for Declaration<'a> {
    ghost use Rattle.ppm_regions.specs.Scope as scope;

    ghost Value = { scope.Declaration };

    ghost view = { λ d. record { name = d.name.now; mode = d.mode; hidden = d.hidden; outer = d.outer } };
}

impl<'a> Declaration<'a> {
    /// A declaration that is neither hidden nor outer.
    pub fn plain(mode: Mode, name: &'a Named) -> Self
        ensures { result ≡ plain mode name.now }
    {
        Declaration {
            name,
            mode,
            hidden: false,
            outer: false,
        }
    }

    /// The index of an `each`, which may not be assigned.
    pub fn index(name: &'a Named) -> Self
        ensures { result ≡ index_of name.now }
    {
        Declaration {
            name,
            mode: Mode::Int,
            hidden: false,
            outer: true,
        }
    }

    /// The declaration as it is seen in a block with parts of the region.
    fn in_split(&self, region: &Named) -> Declaration<'a>
        ensures { result ≡ seen_in_split region.now self.now }
    {
        Declaration {
            name: self.name,
            mode: self.mode,
            hidden: self.hidden || self.name.name.is(&region.name),
            outer: self.outer,
        }
    }

    /// The declaration as it is seen in the block of an `each` over the region.
    fn in_each(&self, region: &Named) -> Declaration<'a>
        ensures { result ≡ seen_in_each region.now self.now }
    {
        Declaration {
            name: self.name,
            mode: self.mode,
            hidden: self.hidden || self.name.name.is(&region.name),
            outer: true,
        }
    }

    /// A copy of this declaration.
    fn copied(&self) -> Declaration<'a>
        ensures { result ≡ self.now }
    {
        Declaration {
            name: self.name,
            mode: self.mode,
            hidden: self.hidden,
            outer: self.outer,
        }
    }

    /// Its name.
    pub fn name(&self) -> &'a Named
        ensures { result.now ≡ self.now.name }
    {
        self.name
    }

    /// Its mode.
    pub fn mode(&self) -> Mode
        ensures { result ≡ self.now.mode }
    {
        self.mode
    }

    /// Whether it is a region that may not be used, since its parts may.
    pub fn is_hidden(&self) -> bool
        ensures { result ≡ self.now.hidden }
    {
        self.hidden
    }

    /// Whether it is from outside of the block of an `each`.
    pub fn is_outer(&self) -> bool
        ensures { result ≡ self.now.outer }
    {
        self.outer
    }
}

/// The block of a split or of an `each`, through which the declarations in front of it are seen:
/// its region is hidden there, and in an `each` they are outer.
#[derive(Drop)]
pub struct Veil<'a> {
    region: &'a Named,
    count: usize,
    outer: bool,
}

impl<'a> Model for Veil<'a> {
    ghost use Rattle.ppm_regions.specs.Kept as kept;

    ghost Value = { kept.Veil };

    ghost view = { λ v. record { region = v.region.now; count = v.count; outer = v.outer } };
}

impl<'a> Veil<'a> {
    /// The declaration at a place, as it is seen in the block.
    fn seen(&self, at: usize, declaration: &Declaration<'a>) -> Declaration<'a>
        ensures { result ≡ behind_one at self.now declaration.now }
    {
        if at >= self.count {
            return declaration.copied();
        }
        if self.outer {
            return declaration.in_each(self.region);
        }
        declaration.in_split(self.region)
    }
}

/// The declarations in force, each found by its name.
#[derive(Drop)]
pub struct Scope<'a> {
    items: Vec<Declaration<'a>>,
    veils: Vec<Veil<'a>>,
    /// The place of the first declaration of each name, counted from 0. Names that are in force no
    /// more stay here.
    places: HashMap<&'a [u8], usize>,
}

impl<'a> Model for Scope<'a> {
    ghost use Rattle.std.specs.Prelude.{length};
    ghost use Rattle.ppm_regions.specs.Kept.{Kept, HasPlaces, AreWithin};

    ghost Value = { Kept };

    ghost view = { λ s. record { items = s.items.items; veils = s.veils.items } };

    ghost invariant = { λ s. HasPlaces s.places s.items.items × AreWithin (length s.items.items) s.veils.items };
}

impl<'a> Scope<'a> {
    /// No declarations.
    pub fn new(alloc: Global) -> Self
        ensures { result ≡ record { items = []; veils = [] } }
    {
        Scope {
            items: Vec::new(alloc),
            veils: Vec::new(alloc),
            places: HashMap::new(alloc),
        }
    }

    /// How many declarations there are.
    pub fn len(&self) -> usize
        ensures value { result ≡ length self.now.items }
        ensures within { AreWithin result self.now.veils }
    {
        self.items.len()
    }

    /// The place of the first declaration of a name, counted from 0, if there is one.
    fn place(&self, name: &Name) -> Option<usize>
        ensures { MatchOption result (declared self.now.items name.now ≡ None)
            (IsSomeAt self.now.items name.now) }
    {
        let at = *self.places.get(&name.as_bytes())?;
        let item = self.items.get(at)?;
        if item.name.name.is(name) {
            return Some(at);
        }
        None
    }

    /// The declaration of a name, if one is in force.
    pub fn declared(&self, name: &Name) -> Option<Declaration<'a>>
        ensures { result ≡ declared (seen self.now) name.now }
    {
        let at = self.place(name)?;
        let mut found = self.items.get(at)?.copied();
        for veil in &self.veils {
            found = veil.seen(at, &found);
        }
        Some(found)
    }

    /// The declaration of a part of a region.
    pub fn part(&self, region: &Named, name: &'a Named) -> Declaration<'a>
        ensures { result ≡ part (seen self.now) region.now name.now }
    {
        let Some(whole) = self.declared(&region.name) else {
            return Declaration::plain(Mode::Mut, name);
        };
        let mode = if is_region(whole.mode) {
            whole.mode
        } else {
            Mode::Mut
        };
        Declaration {
            name,
            mode,
            hidden: false,
            outer: whole.outer,
        }
    }

    /// One declaration more comes in force.
    pub fn push(&mut self, declaration: Declaration<'a>) -> Result<(), NoMemory>
        ensures { OnOk result (Becomes (λ s. s ++ declaration.entry ∷ []) self.old self.new) }
    {
        let name = declaration.name();
        if self.place(&name.name).is_some() {
            self.items.push(declaration)?;
            return Ok(());
        }
        let at = self.items.len();
        self.places.insert(name.name.as_bytes(), at)?;
        self.items.push(declaration)?;
        Ok(())
    }

    /// At a block's end: so many declarations stay in force, the first ones.
    pub fn truncate(&mut self, count: usize)
        requires within { AreWithin count self.old.veils }
        ensures { self.new ≡ record { items = take count self.old.items; veils = self.old.veils } }
    {
        self.items.truncate(count);
    }

    /// At the start of a block through which what is in force is seen.
    fn enter(&mut self, region: &'a Named, outer: bool) -> Result<(), NoMemory>
        ensures { OnOk result (self.new ≡ entered self.old region.now outer) }
    {
        let count = self.items.len();
        self.veils.push(Veil {
            region,
            count,
            outer,
        })?;
        Ok(())
    }

    /// At the start of the block of a split: the region is hidden there.
    pub fn enter_split(&mut self, region: &'a Named) -> Result<(), NoMemory>
        ensures scope { OnOk result (seen self.new ≡ in_split (seen self.old) region.now) }
        ensures kept { OnOk result (Enters self.old self.new) }
    {
        self.enter(region, false)?;
        Ok(())
    }

    /// At the start of the block of an `each`: the region is hidden there, and all is outer.
    pub fn enter_each(&mut self, region: &'a Named) -> Result<(), NoMemory>
        ensures scope { OnOk result (seen self.new ≡ in_each (seen self.old) region.now) }
        ensures kept { OnOk result (Enters self.old self.new) }
    {
        self.enter(region, true)?;
        Ok(())
    }

    /// After that block: what is in force is seen as before it.
    pub fn leave(&mut self)
        ensures { (front : Kept) → Enters front self.old → self.new ≡ front }
    {
        self.veils.pop();
    }
}
