//! Faults of single names.
ghost use Rattle.std.specs.Prelude.{◌≡◌, [], ◌∷◌};
ghost use Rattle.ppm_regions.specs.Scope.{Scope as Declarations};
ghost use Rattle.ppm_regions.specs.Kept.{seen};
ghost use Rattle.ppm_tree.specs.Tree.{ProgramTree};
ghost use Rattle.ppm_regions.specs.Uses.{Asks, Declares, Targets};
ghost use Rattle.ppm_regions.specs.Deciding.{IsLeastOf, fault_of_declared};

use crate::ask::Ask;
use crate::region_error::RegionError;
use crate::scope::{Declaration, Scope};
use ppm_tree::{Mode, Named};

/// The fault of a name that is declared, if it has one: what is asked of it, of the least number.
fn of_declared(declaration: &Declaration, ask: Ask, line: u32) -> Option<RegionError>
    ensures { result ≡ fault_of_declared ask declaration.now line }
{
    let mode = declaration.mode();
    if !ask.fits(mode) {
        return Some(RegionError::WrongKind(line));
    }
    if ask == Ask::Written && mode == Mode::Ref {
        return Some(RegionError::WriteToRef(line));
    }
    if ask.is_for_region() && declaration.is_hidden() {
        return Some(RegionError::HiddenRegion(line));
    }
    if ask == Ask::Written && declaration.is_outer() {
        return Some(RegionError::OuterWritten(line));
    }
    if ask == Ask::Assigned && declaration.is_outer() {
        return Some(RegionError::OuterAssigned(line));
    }
    None
}

/// The first fault of a name that is to stand for something.
pub fn asked(scope: &Scope, ask: Ask, name: &Named) -> Option<RegionError>
    ensures { (t : ProgramTree) → IsLeastOf t (seen scope.now) (Asks ask name.now ∷ []) result }
{
    match scope.declared(&name.name) {
        None => Some(RegionError::UnknownName(name.line)),
        Some(declaration) => of_declared(&declaration, ask, name.line),
    }
}

/// The fault of a name that is declared where another declaration of it is in force.
pub fn named_twice(scope: &Scope, name: &Named) -> Option<RegionError>
    ensures { (t : ProgramTree) → IsLeastOf t (seen scope.now) (Declares name.now ∷ []) result }
{
    match scope.declared(&name.name) {
        None => None,
        Some(_) => Some(RegionError::TwiceNamed(name.line)),
    }
}

/// The fault of two branches with one target.
pub fn one_target(left: &Named, right: &Named) -> Option<RegionError>
    ensures { (t : ProgramTree) → (s : Declarations)
        → IsLeastOf t s (Targets left.now right.now ∷ []) result }
{
    if left.name.is(&right.name) {
        return Some(RegionError::TwiceTarget(right.line));
    }
    None
}
