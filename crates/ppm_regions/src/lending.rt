//! Regions that are lent in a call or a fork.
ghost use Rattle.std.specs.Prelude.{◌≡◌, ◌++◌, ◌↔◌, IsTrue, IfOk, [], ◌∷◌, map};
ghost use Rattle.ppm_tree.specs.Tree.{ProgramTree, expression_of};
ghost use Rattle.ppm_regions.specs.Scope.{Scope};
ghost use Rattle.ppm_regions.specs.Uses.{lending_of, lendings_of, lent_together, Lends};
ghost use Rattle.ppm_regions.specs.Faults.{Clashes};
ghost use Rattle.ppm_regions.specs.Deciding.{argument_of, HasOne, IsLeastOf};

use crate::found::earlier;
use crate::region_error::RegionError;
use ppm_tree::{Argument, Expr, Mode, Named, Parameter};
use ppm_words::NoMemory;
use std::marker::Model;

/// A region that is lent: the parameter's mode, and the region's name.
#[derive(Drop)]
pub struct Lending<'a> {
    mode: Mode,
    name: &'a Named,
}

impl<'a> Model for Lending<'a> {
    ghost use Rattle.ppm_regions.specs.Uses as uses;

    ghost Value = { uses.Lending };

    ghost view = { λ l. record { mode = l.mode; name = l.name.now } };
}

impl<'a> Lending<'a> {
    /// Whether both lend one region, and one of them to be written.
    fn clashes(&self, other: &Lending) -> bool
        ensures { IsTrue result ↔ Clashes self.now other.now }
    {
        if !self.name.name.is(&other.name.name) {
            return false;
        }
        self.mode == Mode::Mut || other.mode == Mode::Mut
    }

    /// The line of its name.
    fn line(&self) -> u32
        ensures { result ≡ self.now.name.line }
    {
        self.name.line
    }
}

/// Adds the region that an argument lends to a parameter of this mode.
fn lend<'a>(lendings: &mut Vec<Lending<'a>>, mode: Mode, argument: &'a Expr) -> Result<(), NoMemory>
    ensures { IfOk result (λ _. lendings.new.items
        ≡ lendings.old.items ++ lending_of mode (expression_of argument.now)) }
{
    match (mode, argument) {
        (Mode::Mut | Mode::Ref, Expr::Name(name)) => lendings.push(Lending { mode, name })?,
        _ => {}
    }
    Ok(())
}

/// Adds the regions that a call lends.
pub fn lend_all<'a>(
    lendings: &mut Vec<Lending<'a>>,
    parameters: &[Parameter],
    arguments: &'a [Argument],
) -> Result<(), NoMemory>
    ensures { IfOk result (λ _. lendings.new.items
        ≡ lendings.old.items ++ lendings_of parameters.now (map argument_of arguments.now)) }
{
    let [parameter, rest @ ..] = parameters else {
        return Ok(());
    };
    let [argument, more @ ..] = arguments else {
        return Ok(());
    };
    lend(lendings, parameter.mode, &argument.value)?;
    lend_all(lendings, rest, more)
}

/// Whether the region clashes with one that is lent in front of it.
fn has_clash(front: &[Lending], lending: &Lending) -> bool
    ensures { IsTrue result ↔ HasOne (Clashes lending.now) front.now }
{
    front.iter().any(|other| lending.clashes(other))
}

/// The fault of a region that is lent beside those in front of it.
fn beside(front: &[Lending], lending: &Lending) -> Option<RegionError>
    ensures { (t : ProgramTree) → (s : Scope)
        → IsLeastOf t s (Lends front.now lending.now ∷ []) result }
{
    if has_clash(front, lending) {
        return Some(RegionError::LentTwice(lending.line()));
    }
    None
}

/// The first fault of regions that are lent together.
pub fn lent_together(lendings: &[Lending]) -> Option<RegionError>
    ensures { (t : ProgramTree) → (s : Scope)
        → IsLeastOf t s (lent_together [] lendings.now) result }
{
    let mut found = None;
    for at in 0..lendings.len() {
        found = earlier(found, beside(&lendings[..at], &lendings[at]));
    }
    found
}
