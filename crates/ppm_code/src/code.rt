//! Codes: procedures and capsules by their numbers, and what always holds of them.
ghost use Rattle.std.specs.Prelude.{◌≡◌, slice_get, MatchOption, Some, None};
ghost use Rattle.ppm_code.specs.Code.{IsCode};

use crate::instr::Instr;
use ppm_words::Items;
use std::marker::Model;

/// A procedure: how many slots its frames have, at most 25, and the capsule with which it begins.
#[derive(Clone, Copy, Debug, PartialEq, Eq)]
pub struct Procedure {
    pub slots: u32,
    pub entry: u32,
}

/// A capsule of a procedure: its instructions, 160 at most.
#[derive(Debug, Drop)]
pub struct Capsule {
    pub procedure: u32,
    pub instrs: Items<Instr>,
}

/// The parts of a code: the procedure of the root frame, the arrays whose regions its first slots
/// hold, the procedures and the capsules. All numbers count from 0.
#[derive(Debug, Drop)]
pub struct CodeParts {
    pub root: u32,
    pub arrays: Items<u32>,
    pub procedures: Items<Procedure>,
    pub capsules: Items<Capsule>,
}

/// A code that keeps all rules of a listing: 1,024 procedures, 65,535 capsules and 160 instructions
/// in each at most, and what instructions name is there.
#[derive(Debug, Drop)]
pub struct Code {
    parts: CodeParts,
}

impl Model for Code {
    ghost use Rattle.ppm_code.specs.declared.code.CodeParts.{CodeParts};
    ghost use Rattle.ppm_code.specs.Code.{IsCode};

    ghost Value = { CodeParts };

    ghost view = { λ c. c.parts };

    ghost invariant = { λ c. IsCode c.parts };
}

impl Code {
    /// The code with these parts.
    pub fn from_parts(parts: CodeParts) -> Self
        requires { IsCode parts }
        ensures { result ≡ parts }
    {
        Code { parts }
    }

    /// Its parts.
    pub fn parts(&self) -> &CodeParts
        ensures value { result.now ≡ self.now }
        ensures code { IsCode self.now }
    {
        &self.parts
    }

    /// The capsule with a number; `None` exactly where there is none.
    pub fn capsule(&self, number: u32) -> Option<&Capsule>
        ensures { MatchOption result
            (slice_get self.now.capsules number ≡ None)
            (λ c. slice_get self.now.capsules number ≡ Some c.now) }
    {
        self.parts.capsules.as_slice().get(number as usize)
    }
}
