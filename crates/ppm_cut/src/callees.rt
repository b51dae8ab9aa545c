//! The procedures that are called.
ghost use Rattle.std.specs.Prelude.{◌≡◌, ◌≤◌, length, map, IfOk};
ghost use Rattle.std.specs.List.{AllByRecursion};
ghost use Rattle.ppm_tree.specs.Tree.{procedure_of};
ghost use Rattle.ppm_tree.specs.State.{procedure_named};
ghost use Rattle.ppm_cut_code.specs.Slots.{procedure_slots};
ghost use Rattle.ppm_cut_code.specs.Statements.{number_of};
ghost use Rattle.ppm_cut.specs.Counts.{IsSmallProcedure};

use crate::slots::procedure_slots;
use ppm_tree::{Parameter, Proc};
use ppm_words::NoMemory;
use std::alloc::Global;
use std::marker::Model;

/// A procedure that is called: its number, how many slots its frames have, and its parameters.
#[derive(Clone, Copy)]
pub struct Callee<'a> {
    pub number: u32,
    pub slots: u32,
    pub parameters: &'a [Parameter],
}

/// The procedures of a program, at most 1,024 and each small, and how many slots their frames have.
#[derive(Drop)]
pub struct Callees<'a> {
    procedures: &'a [Proc],
    slots: Vec<u16>,
}

impl<'a> Model for Callees<'a> {
    ghost use Rattle.std.specs.Prelude.{◌≡◌, ◌≤◌, List, length, map};
    ghost use Rattle.std.specs.List.{AllByRecursion};
    ghost use Rattle.std.specs.Coded.{codes};
    ghost use Rattle.ppm_tree.specs.declared.tree.Proc.{Proc};
    ghost use Rattle.ppm_tree.specs.contracts.tree.Expr as expr;
    ghost use Rattle.ppm_tree.specs.contracts.tree.Stmt as stmt;
    ghost use Rattle.ppm_tree.specs.Tree.{procedure_of};
    ghost use Rattle.ppm_cut_code.specs.Slots.{procedure_slots};
    ghost use Rattle.ppm_cut.specs.Counts.{IsSmallProcedure};

    ghost Value = { List Proc };

    ghost coded = { Prim.hlevel (codes, expr.the_row.coded, stmt.the_row.coded) };

    ghost view = { λ c. c.procedures.now };

    ghost invariant = { λ c. (c.slots.items ≡ map (λ p. procedure_slots (procedure_of p)) c.procedures.now)
        × (length c.procedures.now ≤ 1024)
        × AllByRecursion (λ p. IsSmallProcedure (procedure_of p)) c.procedures.now };
}

impl<'a> Callees<'a> {
    /// The procedures of a program.
    pub fn new(alloc: Global, procedures: &'a [Proc]) -> Result<Self, NoMemory>
        requires few { length procedures.now ≤ 1024 }
        requires small { AllByRecursion (λ p. IsSmallProcedure (procedure_of p)) procedures.now }
        ensures { IfOk result (λ callees. callees ≡ procedures.now) }
    {
        let mut slots = Vec::new(alloc);
        for procedure in procedures {
            slots.push(procedure_slots(procedure) as u16)?;
        }
        Ok(Callees { procedures, slots })
    }

    /// The first procedure with a name; after all others, without slots and parameters, where
    /// there is none.
    pub fn find(&self, name: &[u8]) -> Callee<'a>
        ensures number { result.number ≡ number_of (map procedure_of self.now) name.now }
        ensures slots { result.slots
            ≡ procedure_slots (procedure_named (map procedure_of self.now) name.now) }
        ensures parameters { result.parameters.now
            ≡ (procedure_named (map procedure_of self.now) name.now).parameters }
        ensures few { length result.parameters.now ≤ 12 }
        ensures within { result.slots ≤ 65535 }
    {
        let mut number = 0;
        for procedure in self.procedures {
            if procedure.name.name.as_bytes() == name {
                return Callee {
                    number,
                    slots: u32::from(self.slots[number as usize]),
                    parameters: procedure.parameters.as_slice(),
                };
            }
            number += 1;
        }
        Callee {
            number,
            slots: 0,
            parameters: &[],
        }
    }
}
