//! A program laid out: names are slots, and blocks stand one after the other.
ghost use Rattle.std.specs.Prelude.{◌≡◌, None, Some, ◌+◌, ◌<◌, ◌^◌, [], ◌∷◌, ◌++◌, length, IfOk};
ghost use Rattle.std.specs.Prelude.{IfSome, MatchOption, OnOk};
ghost use Rattle.ppm_serial.specs.Code.{routine_at, step_at};

use ppm_tree::Operator;
use ppm_words::{NoMemory, Trap};
use std::alloc::{AllocFailed, Global};
use std::marker::Model;

/// Where a run stops before its end.
#[derive(Clone, Copy, Debug, PartialEq, Eq)]
pub(crate) enum Stop {
    /// At a trap, in this line.
    Trapped(Trap, u32),
    /// More turns would be spent.
    NotWithin,
    /// Memory was refused.
    NoMemory,
}

impl<T: Drop> From<AllocFailed<T>> for Stop {
    ghost use Rattle.std.specs.Prelude.{◌≡◌};
    ghost use Rattle.ppm_serial.specs.declared.code.Stop.TheVariants as stop;

    ghost from_gives = { λ x e. e ≡ stop.NoMemory };

    fn from(_: AllocFailed<T>) -> Self {
        Stop::NoMemory
    }
}

impl From<NoMemory> for Stop {
    ghost use Rattle.std.specs.Prelude.{◌≡◌};
    ghost use Rattle.ppm_serial.specs.declared.code.Stop.TheVariants as stop;

    ghost from_gives = { λ x e. e ≡ stop.NoMemory };

    fn from(_: NoMemory) -> Self {
        Stop::NoMemory
    }
}

/// An expression over slots.
#[derive(Drop)]
pub(crate) enum Value {
    Number(i64),
    /// The local in a slot.
    Local(usize),
    /// An element of the region in a slot, with the line of its name.
    Element(usize, u32, Box<Value>),
    /// The length of the region in a slot.
    Len(usize),
    Minus(u32, Box<Value>),
    Binary(Operator, u32, Box<Value>, Box<Value>),
    /// An operator at the locals in two slots.
    AtLocals(Operator, u32, usize, usize),
    /// An operator at the local in a slot and a number.
    AtNumber(Operator, u32, usize, i64),
}

/// What a call passes: a value into a slot for a local, or the region of a slot into one for a
/// region.
#[derive(Drop)]
pub(crate) enum Passed {
    Number(usize, Value),
    Region(usize, usize),
    /// No region.
    Nowhere(usize),
}

/// A call: the slot of its target, if any, the callee's place, and what is passed.
#[derive(Drop)]
pub(crate) struct Call {
    pub(crate) target: Option<usize>,
    pub(crate) callee: usize,
    pub(crate) passed: Vec<Passed>,
}

/// The slots of both parts of a split, and its block.
#[derive(Clone, Copy)]
pub(crate) struct Parts {
    pub(crate) first: usize,
    pub(crate) second: usize,
    pub(crate) block: usize,
}

/// A statement over slots; blocks are named by their places in the code.
#[derive(Drop)]
pub(crate) enum Step {
    /// A local gets a value.
    Set(usize, Value),
    /// An element of a region gets one: the region, the line of its name, the index, the value.
    Put(usize, u32, Value, Value),
    /// The first block where the test holds, else the second.
    Choose(Value, usize, usize),
    /// A block of one step, the test of a loop.
    Loop(usize),
    /// The test of a loop, and its block.
    Test(Value, usize),
    Call(Call),
    Fork(Call, Call),
    /// A region in two parts: the line of the word, the region, where it is split, both parts with
    /// their block.
    Split(u32, usize, Value, Parts),
    /// A block for each index of a region: the index, the part, the region, the block.
    Each(usize, usize, usize, usize),
}

/// A procedure: how many locals and regions its frame has, its body, and what it gives.
#[derive(Drop)]
pub(crate) struct Routine {
    pub(crate) locals: usize,
    pub(crate) regions: usize,
    pub(crate) body: usize,
    pub(crate) give: Option<Value>,
}

/// Blocks, by their places.
#[derive(Drop)]
pub(crate) struct Blocks {
    blocks: Vec<Vec<Step>>,
}

impl Model for Blocks {
    ghost use Rattle.std.specs.Prelude.{List, map};
    ghost use Rattle.std.specs.Coded.{codes};
    ghost use Rattle.ppm_serial.specs.declared.code.Step.{Step};
    ghost use Rattle.ppm_serial.specs.contracts.code.Value as value;

    ghost Value = { List (List Step) };

    ghost coded = { Prim.hlevel (codes, value.the_row.coded) };

    ghost view = { λ b. map (λ s. s.items) b.blocks.items };
}

impl Blocks {
    /// One block, which is empty.
    pub(crate) fn new(alloc: Global) -> Result<Self, NoMemory>
        ensures { IfOk result (λ b. b ≡ [] ∷ []) }
    {
        let mut blocks = Vec::new(alloc);
        blocks.push(Vec::new(alloc))?;
        Ok(Blocks { blocks })
    }

    /// One block more, and its place.
    pub(crate) fn push(&mut self, steps: Vec<Step>) -> Result<usize, NoMemory>
        ensures blocks { OnOk result (self.new ≡ self.old ++ steps.items ∷ []) }
        ensures place { IfOk result (λ place. place ≡ length self.old) }
    {
        let place = self.blocks.len();
        self.blocks.push(steps)?;
        Ok(place)
    }
}

/// The procedures and blocks of a program.
#[derive(Drop)]
pub(crate) struct Code {
    routines: Vec<Routine>,
    blocks: Blocks,
    main: usize,
}

impl Model for Code {
    ghost use Rattle.std.specs.Coded.{codes};
    ghost use Rattle.ppm_serial.specs.Code.{Laid};
    ghost use Rattle.ppm_serial.specs.contracts.code.Value as value;

    ghost Value = { Laid };

    ghost coded = { Prim.hlevel (codes, value.the_row.coded) };

    ghost view = { λ c. record { routines = c.routines.items; blocks = c.blocks; main = c.main } };
}

impl Code {
    /// The code with these procedures and blocks.
    pub(crate) fn new(routines: Vec<Routine>, blocks: Blocks, main: usize) -> Self
        ensures { result ≡ record { routines = routines.items; blocks = blocks; main = main } }
    {
        Code {
            routines,
            blocks,
            main,
        }
    }

    /// The place of `main`.
    pub(crate) fn main(&self) -> usize
        ensures { result ≡ self.now.main }
    {
        self.main
    }

    /// The step at a place, none after the last one of a block.
    pub(crate) fn step(&self, place: &Place) -> Option<&Step>
        ensures bound { IfSome result (λ s. place.now.at + 1 < 2 ^ 64) }
        ensures value { MatchOption result (step_at self.now place.now
            ≡ None) (λ s. step_at self.now place.now ≡ Some s.now) }
    {
        match self.blocks.blocks.get(place.block) {
            Some(steps) => steps.get(place.at),
            None => None,
        }
    }

    /// How many locals and regions the frame of the procedure at a place has.
    pub(crate) fn sizes(&self, place: usize) -> (usize, usize)
        ensures { result
            ≡ ((routine_at self.now place).locals, (routine_at self.now place).regions) }
    {
        match self.routines.get(place) {
            Some(routine) => (routine.locals, routine.regions),
            None => (0, 0),
        }
    }

    /// The body of the procedure at a place.
    pub(crate) fn body(&self, place: usize) -> usize
        ensures { result ≡ (routine_at self.now place).body }
    {
        match self.routines.get(place) {
            Some(routine) => routine.body,
            None => 0,
        }
    }

    /// What the procedure at a place gives, if anything.
    pub(crate) fn give(&self, place: usize) -> Option<&Value>
        ensures { MatchOption result ((routine_at self.now place).give
            ≡ None) (λ v. (routine_at self.now place).give ≡ Some v.now) }
    {
        match self.routines.get(place) {
            Some(routine) => routine.give.as_ref(),
            None => None,
        }
    }
}

/// A step of a block.
#[derive(Clone, Copy)]
pub(crate) struct Place {
    pub(crate) block: usize,
    pub(crate) at: usize,
}
