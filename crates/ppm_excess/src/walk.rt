//! A walk through a block, for the names of outside that it names.
ghost use Rattle.std.specs.Prelude.{◌≡◌, [], ◌∷◌, length, map, take, OnOk};
ghost use Rattle.ppm_tree.specs.Tree.{statement_of, expression_of};
ghost use Rattle.ppm_cut_bounds.specs.Names.{used_by, lets_of};
ghost use Rattle.ppm_cut_bounds.specs.Catching.{Notes, Declares, names_in, names_of_target};

use ppm_cut_bounds::Names;
use ppm_tree::{Argument, Expr, Named, Stmt};
use ppm_words::{Name, NoMemory};
use std::alloc::Global;
use std::marker::Model;

/// The names of a block that are in force at a place in it, and the names of outside that it has
/// named so far, each once.
#[derive(Drop)]
pub struct Walk<'a> {
    own: Names<'a>,
    caught: Names<'a>,
}

impl<'a> Model for Walk<'a> {
    ghost use Rattle.ppm_cut_bounds.specs.Catching.{Walked};

    ghost Value = { Walked };

    ghost view = { λ w. record { own = w.own; caught = w.caught } };
}

impl<'a> Walk<'a> {
    /// At the start of a block.
    pub fn new(alloc: Global) -> Self
        ensures { result ≡ record { own = []; caught = [] } }
    {
        Walk {
            own: Names::new(alloc),
            caught: Names::new(alloc),
        }
    }

    /// How many names of outside were named.
    pub fn caught_count(&self) -> usize
        ensures { result ≡ length self.now.caught }
    {
        self.caught.len()
    }

    /// How many names of the block are in force.
    pub fn own_count(&self) -> usize
        ensures { result ≡ length self.now.own }
    {
        self.own.len()
    }

    /// At a block's end: so many names stay in force, the first ones.
    pub fn leave(&mut self, count: usize)
        ensures own { self.new.own ≡ take count self.old.own }
        ensures caught { self.new.caught ≡ self.old.caught }
    {
        self.own.truncate(count);
    }

    /// A name of the block comes in force.
    pub fn declare(&mut self, name: &'a Name) -> Result<(), NoMemory>
        ensures { OnOk result (Declares (name.now ∷ []) self.old self.new) }
    {
        self.own.push(name)
    }

    /// What a statement declares comes in force.
    pub fn declare_lets(&mut self, statement: &'a Stmt) -> Result<(), NoMemory>
        ensures { OnOk result (Declares (lets_of (statement_of statement.now)) self.old self.new) }
    {
        match statement {
            Stmt::Let(name, _) => self.declare(&name.name),
            Stmt::Assign(_, _)
            | Stmt::Put(_, _, _)
            | Stmt::If(_, _, _)
            | Stmt::While(_, _)
            | Stmt::Call(_)
            | Stmt::Fork(_, _)
            | Stmt::Split(_, _, _, _, _, _)
            | Stmt::Each(_, _, _, _) => Ok(()),
        }
    }

    /// A name that is used.
    fn note(&mut self, name: &'a Name) -> Result<(), NoMemory>
        ensures { OnOk result (Notes (name.now ∷ []) self.old self.new) }
    {
        if self.caught.has(name) {
            return Ok(());
        }
        if self.own.has(name) {
            return Ok(());
        }
        self.caught.push(name)
    }

    /// The name of a target, if there is one.
    fn target(&mut self, target: &'a Option<Named>) -> Result<(), NoMemory>
        ensures { OnOk result (Notes (names_of_target target.now) self.old self.new) }
    {
        match target {
            None => Ok(()),
            Some(name) => self.note(&name.name),
        }
    }

    /// The names in an expression.
    fn expression(&mut self, expression: &'a Expr) -> Result<(), NoMemory>
        ensures { OnOk result (Notes (names_in (expression_of expression.now
            ∷ [])) self.old self.new) }
    {
        match expression {
            Expr::Number(_) => Ok(()),
            Expr::Name(name) => self.note(&name.name),
            Expr::Element(region, index) => {
                self.note(&region.name)?;
                self.expression(index)
            }
            Expr::Len(region) => self.note(&region.name),
            Expr::Minus(_, operand) => self.expression(operand),
            Expr::Binary(_, _, left, right) => {
                self.expression(left)?;
                self.expression(right)
            }
        }
    }

    /// The names in arguments.
    fn arguments(&mut self, arguments: &'a [Argument]) -> Result<(), NoMemory>
        ensures { OnOk result (Notes (names_in (map (λ a. expression_of a.value) arguments.now)) self.old self.new) }
    {
        for argument in arguments {
            self.expression(&argument.value)?;
        }
        Ok(())
    }

    /// What a statement uses outside its blocks.
    pub fn used(&mut self, statement: &'a Stmt) -> Result<(), NoMemory>
        ensures { OnOk result (Notes (used_by (statement_of statement.now)) self.old self.new) }
    {
        match statement {
            Stmt::Let(_, value) => self.expression(value),
            Stmt::Assign(name, value) => {
                self.note(&name.name)?;
                self.expression(value)
            }
            Stmt::Put(region, index, value) => {
                self.note(&region.name)?;
                self.expression(index)?;
                self.expression(value)
            }
            Stmt::If(test, _, _) | Stmt::While(test, _) => self.expression(test),
            Stmt::Call(side) => {
                self.target(&side.target)?;
                self.arguments(side.arguments.as_slice())
            }
            Stmt::Fork(left, right) => {
                self.target(&left.target)?;
                self.target(&right.target)?;
                self.arguments(left.arguments.as_slice())?;
                self.arguments(right.arguments.as_slice())
            }
            Stmt::Split(_, region, at, _, _, _) => {
                self.note(&region.name)?;
                self.expression(at)
            }
            Stmt::Each(_, _, region, _) => self.note(&region.name),
        }
    }
}
