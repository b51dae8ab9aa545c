//! Declarations, one after the other.
ghost use Rattle.std.specs.Prelude.{◌≡◌, [], ◌∷◌, ◌++◌, IfOk, OnOk, map};
ghost use Rattle.ppm_tree.specs.Tree.{ProgramTree};
ghost use Rattle.ppm_tree.specs.declared.named.Named as named;
ghost use Rattle.ppm_regions.specs.Kept.{Becomes, seen};
ghost use Rattle.ppm_regions.specs.Uses.{declaration_sites, sites_of_names};
ghost use Rattle.ppm_regions.specs.Deciding.{IsLeast};

use crate::found::earlier;
use crate::naming::named_twice;
use crate::region_error::RegionError;
use crate::scope::{Declaration, Scope};
use ppm_tree::{Array, ArrayInput, Mode, Named, Proc};
use ppm_words::NoMemory;
use std::alloc::Global;

/// Declares one thing more; its fault, if its name is in force.
pub fn declare<'a>(
    scope: &mut Scope<'a>,
    declaration: Declaration<'a>,
) -> Result<Option<RegionError>, NoMemory>
    ensures least { IfOk result (λ found. (t : ProgramTree)
        → IsLeast t (declaration_sites (seen scope.old) (declaration.entry ∷ [])) found) }
    ensures scope { OnOk result (Becomes (λ s. s ++ declaration.entry ∷ []) scope.old scope.new) }
{
    let found = named_twice(scope, declaration.name());
    scope.push(declaration)?;
    Ok(found)
}

/// What stands in a program under a name.
pub trait Item {
    /// The name.
    ghost name_of: { Self → named.Named };

    /// The name, with its line.
    fn name(&self) -> &Named
        ensures { result.now ≡ name_of self.now };
}

impl Item for Array {
    ghost name_of = { λ a. a.name };

    fn name(&self) -> &Named {
        &self.name
    }
}

impl Item for Proc {
    ghost name_of = { λ p. p.name };

    fn name(&self) -> &Named {
        &self.name
    }
}

impl Item for ArrayInput {
    ghost name_of = { λ i. i.name };

    fn name(&self) -> &Named {
        &self.name
    }
}

/// The fault of the first item with the name of one in front of it.
pub fn repeated<T: Item>(alloc: Global, items: &[T]) -> Result<Option<RegionError>, NoMemory>
    ensures { IfOk result (λ found. (t : ProgramTree)
        → IsLeast t (sites_of_names (map T.name_of items.now)) found) }
{
    let mut scope = Scope::new(alloc);
    let mut found = None;
    for item in items {
        let twice = declare(&mut scope, Declaration::plain(Mode::Int, item.name()))?;
        found = earlier(found, twice);
    }
    Ok(found)
}
