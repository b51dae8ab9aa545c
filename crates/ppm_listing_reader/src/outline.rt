//! What the rules ask of a whole text.
ghost use Rattle.std.specs.Prelude.{◌≡◌, ◌+◌, ◌<◌, ◌^◌, length, map, OnOk};
ghost use Rattle.ppm_code.specs.Strands.{instrs_of};
ghost use Rattle.ppm_code.specs.Sizes.{slots_of as slots_in_code};
ghost use Rattle.ppm_listing_reader.specs.Faults as rule;
ghost use Rattle.ppm_listing_reader.specs.Outlines.{blank, longer, no_outline, added as with_line};

use crate::part::Part;
use ppm_code::Procedure;
use ppm_words::NoMemory;
use std::alloc::Global;
use std::marker::Model;

/// Of a capsule: its procedure, and how many lines it has.
#[derive(Clone, Copy, Debug)]
pub struct Head {
    procedure: u32,
    lines: u32,
}

/// What lines declare, as far as the rules of a line ask for it: the procedures, and the heads of
/// the capsules. Contracts see it as a code with ends for all instructions.
#[derive(Debug, Drop)]
pub struct Outline {
    procedures: Vec<Procedure>,
    heads: Vec<Head>,
}

impl Model for Outline {
    ghost use Rattle.std.specs.Prelude.{[], map};
    ghost use Rattle.ppm_code.specs.declared.code.CodeParts.{CodeParts};
    ghost use Rattle.ppm_listing_reader.specs.Outlines.{blank};

    ghost Value = { CodeParts };

    ghost view = { λ o. record {
      root = 0;
      arrays = [];
      procedures = o.procedures.items;
      capsules = map blank o.heads.items;
    } };
}

/// The last capsule has one line more. `Err` where memory is refused, or the lines are more than
/// 2^32 - 1, which no text of a listing's bytes has.
fn lengthen(heads: &mut Vec<Head>) -> Result<(), NoMemory>
    ensures { OnOk result (map blank heads.new.items ≡ longer (map blank heads.old.items)) }
{
    match heads.pop() {
        Some(head) => {
            if head.lines == u32::MAX {
                return Err(NoMemory);
            }
            heads.push(Head {
                procedure: head.procedure,
                lines: head.lines + 1,
            })?;
            Ok(())
        }
        None => Ok(()),
    }
}

impl Outline {
    /// That of no lines.
    pub(crate) fn new(alloc: Global) -> Outline
        ensures { result ≡ no_outline }
    {
        Outline {
            procedures: Vec::new(alloc),
            heads: Vec::new(alloc),
        }
    }

    /// Adds what a line declares.
    pub(crate) fn add(&mut self, line: &Option<Part>) -> Result<(), NoMemory>
        ensures { OnOk result (self.new ≡ with_line self.old line.now) }
    {
        match line {
            Some(Part::Procedure { slots, entry, .. }) => {
                self.procedures.push(Procedure {
                    slots: *slots,
                    entry: *entry,
                })?;
                lengthen(&mut self.heads)
            }
            Some(Part::Capsule { procedure, .. }) => {
                self.heads.push(Head {
                    procedure: *procedure,
                    lines: 0,
                })?;
                Ok(())
            }
            None | Some(Part::Version) | Some(Part::Root { .. }) | Some(Part::Instr(_)) => {
                lengthen(&mut self.heads)
            }
        }
    }

    /// Whether a procedure is there.
    pub(crate) fn is_procedure(&self, procedure: u32) -> bool
        ensures { result ≡ rule.is_procedure self.now procedure }
    {
        (procedure as usize) < self.procedures.len()
    }

    /// Whether a capsule is there, and one of a procedure.
    pub(crate) fn is_capsule_of(&self, procedure: u32, capsule: u32) -> bool
        ensures { result ≡ rule.is_capsule_of self.now procedure capsule }
    {
        match self.heads.get(capsule as usize) {
            Some(head) => head.procedure == procedure,
            None => false,
        }
    }

    /// The slots of a procedure; none where there is no procedure.
    pub(crate) fn slots_of(&self, procedure: u32) -> u32
        ensures { result ≡ slots_in_code self.now procedure }
    {
        match self.procedures.get(procedure as usize) {
            Some(procedure) => procedure.slots,
            None => 0,
        }
    }

    /// How many instructions a capsule has; none where there is no capsule.
    pub(crate) fn instr_count(&self, capsule: u32) -> usize
        ensures { result ≡ length (instrs_of self.now capsule) }
    {
        match self.heads.get(capsule as usize) {
            Some(head) => head.lines as usize,
            None => 0,
        }
    }
}
