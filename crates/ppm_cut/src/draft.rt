//! The procedures of a code, those of the text and the hidden ones.
ghost use Rattle.std.specs.Prelude.{◌≡◌, ◌≤◌, ◌+◌, ℕ, List, [], ◌∷◌, length, map, OnOk};
ghost use Rattle.ppm_tree.specs.Tree.{statement_of, block_of, procedure_of};
ghost use Rattle.ppm_cut_code.specs.Routines.{OfText, Hidden, hidden_of, hidden_of_block};
ghost use Rattle.ppm_cut.specs.Counts.{count_limit, own_count, own_count_in, hidden_count};
ghost use Rattle.ppm_cut.specs.Counts.{hidden_count_in};
ghost use Rattle.ppm_cut.specs.Counts.{IsShort, IsShortBlock, IsShortProcedure};
ghost use Rattle.ppm_cut.specs.Drafts.{Drafts};

use crate::body::{Last, push_block, push_capsule};
use crate::callees::Callees;
use crate::counts::{Numbers, end_of, hidden_behind, hidden_behind_block};
use crate::each::{entry_capsule, finish_capsule, halving_capsule};
use crate::layout::{Layout, hidden_layout};
use crate::maker::{Home, Maker};
use crate::slots::{hidden_named_slots, hidden_slots, named_slots, procedure_slots};
use ppm_code::{Capsule, Procedure};
use ppm_tree::{Named, Proc, Stmt};
use ppm_words::NoMemory;
use std::alloc::Global;

/// The procedures and the capsules of a code so far, the number of the next capsule, and the memory
/// for more of them.
#[derive(Drop)]
pub struct Draft {
    pub alloc: Global,
    pub procedures: Vec<Procedure>,
    pub capsules: Vec<Capsule>,
    pub next: u32,
}

impl Draft {
    /// Nothing yet.
    pub fn new(alloc: Global) -> Self
        ensures procedures { result.procedures.items ≡ [] }
        ensures capsules { result.capsules.items ≡ [] }
        ensures next { result.next ≡ 0 }
    {
        Draft {
            alloc,
            procedures: Vec::new(alloc),
            capsules: Vec::new(alloc),
            next: 0,
        }
    }

    /// Adds a procedure of the text, whose first hidden procedure has the number `hidden`.
    pub fn push_text<'a>(
        &mut self,
        callees: &Callees<'_>,
        hidden: u32,
        procedure: &'a Proc,
    ) -> Result<(), NoMemory>
        requires few { length self.old.procedures.items ≤ count_limit }
        requires short { IsShortProcedure (procedure_of procedure.now) }
        requires names { 12 + (own_count_in (block_of procedure.now.body.items) + hidden_count_in (block_of procedure.now.body.items)) ≤ count_limit }
        requires capsules { self.old.next + 1 + own_count_in (block_of procedure.now.body.items) ≤ count_limit }
        requires hidden { hidden + hidden_count_in (block_of procedure.now.body.items) ≤ count_limit }
        ensures drafts { OnOk result (Drafts (map procedure_of callees.now) (OfText (procedure_of procedure.now) hidden ∷ []) self.old self.new) }
        ensures next { OnOk result (self.new.next ≤ self.old.next + 1 + own_count_in (block_of procedure.now.body.items)) }
    {
        let number = self.procedures.len() as u32;
        let entry = self.next;
        self.procedures.push(Procedure {
            slots: procedure_slots(procedure),
            entry,
        })?;
        let home = Home {
            procedure: number,
            spare: named_slots(procedure),
        };
        let maker = Maker {
            alloc: self.alloc,
            callees,
            home,
        };
        let numbers = Numbers {
            capsule: entry,
            hidden,
        };
        let mut layout = Layout::of_parameters(self.alloc, procedure.parameters.as_slice())?;
        push_block(
            &maker,
            &mut self.capsules,
            &mut layout,
            numbers,
            Last::Gives(&procedure.give),
            &procedure.body,
        )?;
        self.next = end_of(&procedure.body, entry) + 1;
        Ok(())
    }

    /// Adds a hidden procedure with this layout, for the region of an `each` and its block.
    fn push_sweep<'a>(
        &mut self,
        callees: &Callees<'_>,
        region: &Named,
        layout: &mut Layout<'a>,
        block: &'a [Stmt],
    ) -> Result<(), NoMemory>
        requires two { 2 ≤ length layout.old }
        requires names { length layout.old + (own_count_in (block_of block.now) + hidden_count_in (block_of block.now)) ≤ count_limit }
        requires capsules { self.old.next + 4 + own_count_in (block_of block.now) ≤ count_limit }
        requires hidden { length self.old.procedures.items + 1 + hidden_count_in (block_of block.now) ≤ count_limit }
        requires short { IsShortBlock (block_of block.now) }
        ensures drafts { (part index : List ℕ) (names : List (List ℕ))
            → layout.old ≡ part ∷ index ∷ names
            → OnOk result (Drafts (map procedure_of callees.now)
            (Hidden (record {
              number = length self.old.procedures.items;
              line = region.now.line;
              part = part;
              index
                  = index;
              names = names;
              block = block_of block.now;
            }) ∷ [])
            self.old self.new) }
        ensures next { OnOk result (self.new.next ≤ self.old.next + 4 + own_count_in (block_of block.now)) }
        ensures layout { OnOk result (layout.new ≡ layout.old) }
    {
        let number = self.procedures.len() as u32;
        let entry = self.next;
        let names = layout.len() - 2;
        let slots = hidden_slots(names, block);
        let numbers = Numbers {
            capsule: entry,
            hidden: number,
        };
        self.procedures.push(Procedure { slots, entry })?;
        push_capsule(
            &mut self.capsules,
            number,
            entry_capsule(self.alloc, entry)?,
        )?;
        let halving = halving_capsule(self.alloc, numbers, slots, names, region.line)?;
        push_capsule(&mut self.capsules, number, halving)?;
        push_capsule(&mut self.capsules, number, finish_capsule(self.alloc)?)?;
        let home = Home {
            procedure: number,
            spare: hidden_named_slots(names, block),
        };
        let maker = Maker {
            alloc: self.alloc,
            callees,
            home,
        };
        let inside = Numbers {
            capsule: entry + 3,
            hidden: number + 1,
        };
        push_block(
            &maker,
            &mut self.capsules,
            layout,
            inside,
            Last::Gives(&None),
            block,
        )?;
        self.next = end_of(block, entry + 3) + 1;
        Ok(())
    }

    /// Adds the hidden procedures of a statement, the first of which has the number `hidden`.
    #[cycle(hidden)]
    fn push_hidden<'a>(
        &mut self,
        callees: &Callees<'_>,
        layout: &mut Layout<'a>,
        hidden: u32,
        statement: &'a Stmt,
    ) -> Result<(), NoMemory>
        requires number { length self.old.procedures.items ≡ hidden }
        requires names { length layout.old + (own_count (statement_of statement.now) + hidden_count (statement_of statement.now)) ≤ count_limit }
        requires capsules { self.old.next + hidden_count (statement_of statement.now) ≤ count_limit }
        requires hidden { hidden + hidden_count (statement_of statement.now) ≤ count_limit }
        requires short { IsShort (statement_of statement.now) }
        ensures drafts { OnOk result (Drafts (map procedure_of callees.now)
            (hidden_of layout.old hidden (statement_of statement.now)) self.old self.new) }
        ensures next { OnOk result (self.new.next ≤ self.old.next + hidden_count (statement_of statement.now)) }
        ensures layout { OnOk result (layout.new ≡ layout.old) }
    {
        match statement {
            Stmt::If(_, block, other) => {
                self.push_hidden_block(callees, layout, hidden, block)?;
                let next = hidden_behind_block(block, hidden);
                self.push_hidden_block(callees, layout, next, other)
            }
            Stmt::While(_, block) => self.push_hidden_block(callees, layout, hidden, block),
            Stmt::Split(_, _, _, first, second, block) => {
                let count = layout.len();
                layout.push(&first.name)?;
                layout.push(&second.name)?;
                self.push_hidden_block(callees, layout, hidden, block)?;
                layout.truncate(count);
                Ok(())
            }
            Stmt::Each(index, part, region, block) => {
                let mut inner = hidden_layout(self.alloc, layout, part, index, block)?;
                self.push_sweep(callees, region, &mut inner, block)?;
                self.push_hidden_block(callees, &mut inner, hidden + 1, block)
            }
            Stmt::Let(_, _)
            | Stmt::Assign(_, _)
            | Stmt::Put(_, _, _)
            | Stmt::Call(_)
            | Stmt::Fork(_, _) => Ok(()),
        }
    }

    /// Adds the hidden procedures of a block.
    #[cycle(hidden)]
    pub fn push_hidden_block<'a>(
        &mut self,
        callees: &Callees<'_>,
        layout: &mut Layout<'a>,
        hidden: u32,
        block: &'a [Stmt],
    ) -> Result<(), NoMemory>
        requires number { length self.old.procedures.items ≡ hidden }
        requires names { length layout.old + (own_count_in (block_of block.now) + hidden_count_in (block_of block.now)) ≤ count_limit }
        requires capsules { self.old.next + hidden_count_in (block_of block.now) ≤ count_limit }
        requires hidden { hidden + hidden_count_in (block_of block.now) ≤ count_limit }
        requires short { IsShortBlock (block_of block.now) }
        ensures drafts { OnOk result (Drafts (map procedure_of callees.now)
            (hidden_of_block layout.old hidden (block_of block.now)) self.old self.new) }
        ensures next { OnOk result (self.new.next ≤ self.old.next + hidden_count_in (block_of block.now)) }
        ensures layout { OnOk result (layout.new ≡ layout.old) }
    {
        let count = layout.len();
        let mut next = hidden;
        for statement in block {
            self.push_hidden(callees, layout, next, statement)?;
            layout.push_lets(statement)?;
            next = hidden_behind(statement, next);
        }
        layout.truncate(count);
        Ok(())
    }
}
