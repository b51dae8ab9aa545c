//! The names that have slots.
ghost use Rattle.std.specs.Prelude.{◌≡◌, ◌≤◌, ◌*◌, [], ◌∷◌, ◌++◌, length, take, IfOk, OnOk};
ghost use Rattle.ppm_tree.specs.Tree.{statement_of, block_of};
ghost use Rattle.ppm_cut_code.specs.Layout.{slot_of, target_of, parameter_layout, caught};
ghost use Rattle.ppm_cut_code.specs.Statements.{with_lets};
ghost use Rattle.ppm_cut.specs.Counts.{count_limit};

use crate::free::is_free;
use ppm_cut_bounds::{Mention, Names};
use ppm_tree::{Named, Parameter, Stmt};
use ppm_words::{Name, NoMemory};
use std::alloc::Global;
use std::marker::Model;

/// The names that have slots in the frames of a procedure, slot by slot.
#[derive(Drop)]
pub struct Layout<'a> {
    names: Names<'a>,
}

impl<'a> Model for Layout<'a> {
    ghost use Rattle.std.specs.Prelude.{List, ℕ};

    ghost Value = { List (List ℕ) };

    ghost view = { λ l. l.names };
}

impl<'a> Layout<'a> {
    /// No names.
    pub fn new(alloc: Global) -> Self
        ensures { result ≡ [] }
    {
        Layout {
            names: Names::new(alloc),
        }
    }

    /// The names of parameters.
    pub fn of_parameters(alloc: Global, parameters: &'a [Parameter]) -> Result<Self, NoMemory>
        ensures { IfOk result (λ layout. layout ≡ parameter_layout parameters.now) }
    {
        let mut layout = Layout::new(alloc);
        for parameter in parameters {
            layout.push(&parameter.name.name)?;
        }
        Ok(layout)
    }

    /// The names, the first at 0.
    pub fn as_slice(&self) -> &[Mention<'a>]
        ensures { result.now ≡ self.now }
    {
        self.names.as_slice()
    }

    /// How many there are.
    pub fn len(&self) -> u32
        requires { length self.now ≤ 2 * count_limit }
        ensures { result ≡ length self.now }
    {
        self.names.len() as u32
    }

    /// The slot of a name; past the last slot where it has none.
    pub fn slot(&self, name: &Name) -> u32
        requires { length self.now ≤ count_limit }
        ensures { result ≡ slot_of self.now name.now }
    {
        let mut slot = 0;
        for mention in self.as_slice() {
            if mention.name().is(name) {
                return slot;
            }
            slot += 1;
        }
        slot
    }

    /// The slot of a target, if there is one.
    pub fn target(&self, target: &Option<Named>) -> Option<u32>
        requires { length self.now ≤ count_limit }
        ensures { result ≡ target_of self.now target.now }
    {
        match target {
            None => None,
            Some(name) => Some(self.slot(&name.name)),
        }
    }

    /// The next slot is that of a name.
    pub fn push(&mut self, name: &'a Name) -> Result<(), NoMemory>
        ensures { OnOk result (self.new ≡ self.old ++ name.now ∷ []) }
    {
        self.names.push(name)
    }

    /// What a statement declares takes the next slot.
    pub fn push_lets(&mut self, statement: &'a Stmt) -> Result<(), NoMemory>
        ensures { OnOk result (self.new ≡ with_lets self.old (statement_of statement.now)) }
    {
        match statement {
            Stmt::Let(name, _) => self.push(&name.name),
            Stmt::Assign(_, _)
            | Stmt::Put(_, _, _)
            | Stmt::If(_, _, _)
            | Stmt::While(_, _)
            | Stmt::Call(_)
            | Stmt::Fork(_, _)
            | Stmt::Split(_, _, _, _, _, _)
            | Stmt::Each(_, _, _, _) => Ok(()),
        }
    }

    /// The next slots are those of the names of outside that a block names.
    pub fn push_caught(&mut self, outer: &Layout<'a>, block: &[Stmt]) -> Result<(), NoMemory>
        ensures { OnOk result (self.new ≡ self.old ++ caught outer.now (block_of block.now)) }
    {
        for mention in outer.as_slice() {
            let name = mention.name();
            if is_free(block, name) {
                self.push(name)?;
            }
        }
        Ok(())
    }

    /// Only so many of the first names keep their slots.
    pub fn truncate(&mut self, count: u32)
        ensures { self.new ≡ take count self.old }
    {
        self.names.truncate(count as usize);
    }
}

/// The layout of the hidden procedure for a block: its part, its first index, and the names of
/// outside.
pub fn hidden_layout<'a>(
    alloc: Global,
    outer: &Layout<'a>,
    part: &'a Named,
    index: &'a Named,
    block: &[Stmt],
) -> Result<Layout<'a>, NoMemory>
    ensures { IfOk result (λ layout. layout ≡ part.now.name ∷ index.now.name
        ∷ caught outer.now (block_of block.now)) }
{
    let mut layout = Layout::new(alloc);
    layout.push(&part.name)?;
    layout.push(&index.name)?;
    layout.push_caught(outer, block)?;
    Ok(layout)
}
