//! The names of a procedure, by the slots that they have.
ghost use Rattle.std.specs.Prelude.{◌≡◌, [], length, IfOk, OnOk};
ghost use Rattle.std.specs.Str.{bytes_eq};
ghost use Rattle.ppm_tree.specs.Tree.{block_of, statement_of, procedure_of};
ghost use Rattle.ppm_serial.specs.Names.{names_of, no_names, noted, slot_in, with_block};
ghost use Rattle.ppm_serial.specs.Names.{with_local_name};
ghost use Rattle.ppm_serial.specs.Names.{with_parameter, with_parameters, with_region_name};
ghost use Rattle.ppm_serial.specs.Names.{with_statement, with_target};

use ppm_tree::{Mode, Named, Parameter, Proc, Stmt};
use ppm_words::{Name, NoMemory};
use std::alloc::Global;
use std::collections::HashMap;
use std::marker::Model;

/// Whether two names are the same.
pub(crate) fn same(x: &Name, y: &Name) -> bool
    ensures { result ≡ bytes_eq x.now y.now }
{
    x.is(y)
}

/// Names, by their slots.
#[derive(Drop)]
pub(crate) struct Table {
    names: Vec<Name>,
    /// The slot of each name.
    slots: HashMap<Vec<u8>, usize>,
}

impl Model for Table {
    ghost use Rattle.std.specs.Prelude.{List, ℕ};

    ghost Value = { List (List ℕ) };

    ghost view = { λ t. t.names.items };

    ghost use Rattle.ppm_serial.specs.Names.{IsIndex};

    ghost invariant = { λ t. IsIndex t.slots t.names.items };
}

impl Table {
    /// No names.
    pub(crate) fn new(alloc: Global) -> Self
        ensures { result ≡ [] }
    {
        Table {
            names: Vec::new(alloc),
            slots: HashMap::new(alloc),
        }
    }

    /// How many names there are.
    pub(crate) fn len(&self) -> usize
        ensures { result ≡ length self.now }
    {
        self.names.len()
    }

    /// The slot of a name, or how many there are.
    pub(crate) fn slot(&self, name: &Name) -> usize
        ensures { result ≡ slot_in self.now name.now }
    {
        match self.slots.get(name.as_bytes()) {
            Some(slot) => *slot,
            None => self.names.len(),
        }
    }

    /// Adds a name that is not there.
    fn note(&mut self, alloc: Global, name: &Name) -> Result<(), NoMemory>
        ensures { OnOk result (self.new ≡ noted self.old name.now) }
    {
        if self.slot(name) < self.names.len() {
            return Ok(());
        }
        let copy = name.try_clone(alloc)?;
        let bytes = Vec::from_slice(alloc, name.as_bytes())?;
        self.names.reserve(1)?;
        let slot = self.names.len();
        self.slots.insert(bytes, slot)?;
        self.names.push_reserved(copy);
        Ok(())
    }
}

/// The names of a procedure: those of its locals and those of its regions.
#[derive(Drop)]
pub(crate) struct Names {
    locals: Table,
    regions: Table,
}

impl Model for Names {
    ghost use Rattle.ppm_serial.specs.Names.{Slotted};

    ghost Value = { Slotted };

    ghost view = { λ n. record { locals = n.locals; regions = n.regions } };
}

impl Names {
    /// The names of a procedure: its parameters, and what its body writes.
    pub(crate) fn of(alloc: Global, procedure: &Proc) -> Result<Self, NoMemory>
        ensures { IfOk result (λ n. n ≡ names_of (procedure_of procedure.now)) }
    {
        let mut names = Names {
            locals: Table::new(alloc),
            regions: Table::new(alloc),
        };
        names.parameters(alloc, procedure.parameters.as_slice())?;
        names.block(alloc, &procedure.body)?;
        Ok(names)
    }

    /// The names of parameters.
    pub(crate) fn of_parameters(alloc: Global, parameters: &[Parameter]) -> Result<Self, NoMemory>
        ensures { IfOk result (λ n. n ≡ with_parameters no_names parameters.now) }
    {
        let mut names = Names {
            locals: Table::new(alloc),
            regions: Table::new(alloc),
        };
        names.parameters(alloc, parameters)?;
        Ok(names)
    }

    /// The slots of its locals.
    pub(crate) fn locals(&self) -> &Table
        ensures { result.now ≡ self.now.locals }
    {
        &self.locals
    }

    /// The slots of its regions.
    pub(crate) fn regions(&self) -> &Table
        ensures { result.now ≡ self.now.regions }
    {
        &self.regions
    }

    fn local(&mut self, alloc: Global, name: &Named) -> Result<(), NoMemory>
        ensures { OnOk result (self.new ≡ with_local_name self.old name.now.name) }
    {
        self.locals.note(alloc, &name.name)
    }

    fn region(&mut self, alloc: Global, name: &Named) -> Result<(), NoMemory>
        ensures { OnOk result (self.new ≡ with_region_name self.old name.now.name) }
    {
        self.regions.note(alloc, &name.name)
    }

    fn target(&mut self, alloc: Global, target: &Option<Named>) -> Result<(), NoMemory>
        ensures { OnOk result (self.new ≡ with_target self.old target.now) }
    {
        match target {
            None => Ok(()),
            Some(name) => self.local(alloc, name),
        }
    }

    fn parameter(&mut self, alloc: Global, parameter: &Parameter) -> Result<(), NoMemory>
        ensures { OnOk result (self.new ≡ with_parameter self.old parameter.now) }
    {
        match parameter.mode {
            Mode::Int => {
                self.local(alloc, &parameter.name)?;
                self.region(alloc, &parameter.name)
            }
            Mode::Mut => self.region(alloc, &parameter.name),
            Mode::Ref => self.region(alloc, &parameter.name),
        }
    }

    fn parameters(&mut self, alloc: Global, parameters: &[Parameter]) -> Result<(), NoMemory>
        ensures { OnOk result (self.new ≡ with_parameters self.old parameters.now) }
    {
        match parameters {
            [] => Ok(()),
            [first, rest @ ..] => {
                self.parameter(alloc, first)?;
                self.parameters(alloc, rest)
            }
        }
    }

    #[cycle(names)]
    fn block(&mut self, alloc: Global, block: &[Stmt]) -> Result<(), NoMemory>
        ensures { OnOk result (self.new ≡ with_block self.old (block_of block.now)) }
    {
        for statement in block {
            self.statement(alloc, statement)?;
        }
        Ok(())
    }

    #[cycle(names)]
    fn statement(&mut self, alloc: Global, statement: &Stmt) -> Result<(), NoMemory>
        ensures { OnOk result (self.new ≡ with_statement self.old (statement_of statement.now)) }
    {
        match statement {
            Stmt::Let(name, _) => self.local(alloc, name),
            Stmt::Assign(name, _) => self.local(alloc, name),
            Stmt::Put(_, _, _) => Ok(()),
            Stmt::If(_, holds, otherwise) => {
                self.block(alloc, holds)?;
                self.block(alloc, otherwise)
            }
            Stmt::While(_, block) => self.block(alloc, block),
            Stmt::Call(side) => self.target(alloc, &side.target),
            Stmt::Fork(left, right) => {
                self.target(alloc, &left.target)?;
                self.target(alloc, &right.target)
            }
            Stmt::Split(_, _, _, first, second, block) => {
                self.region(alloc, first)?;
                self.region(alloc, second)?;
                self.block(alloc, block)
            }
            Stmt::Each(index, part, _, block) => {
                self.local(alloc, index)?;
                self.region(alloc, part)?;
                self.block(alloc, block)
            }
        }
    }
}
