//! A run by steps, with what is open around it as a list, so that as many calls may be open as
//! memory holds.
ghost use Rattle.std.specs.Prelude.{◌≡◌, [], map, Ok, OnOk};
ghost use Rattle.ppm_tree.specs.Tree.{block_of, expression_of, procedure_of, side_of, statement_of};
ghost use Rattle.ppm_tree.specs.Tree as tree;
ghost use Rattle.ppm_tree.specs.State.{evaluate as evaluated};
ghost use Rattle.ppm_by_name.specs.Frames.{frame_of};
ghost use Rattle.ppm_standing.specs.Rests as rest;
ghost use Rattle.ppm_standing.specs.Nexts as next;
ghost use Rattle.ppm_standing.specs.Shown.{caller_of, rest_of, run_of, sweep_of};
ghost use Rattle.ppm_standing.specs.Standing.{Does, Gives, advancing, closing, cost as cost_of, doing};
ghost use Rattle.ppm_standing.specs.Standing.{gives, inside, leaving, opened, passing, sweeping, testing, to};

use crate::around::{Caller, Rest, Sweep, first_cost, give_cost, leave_cost};
use ppm_by_name::{
    Each, Frame, Split, Stop, Store, choose, element_value, enter, enter_both, evaluate,
    first_words, named,
};
use ppm_tree::{Expr, Named, Proc, Side, Stmt};
use ppm_words::NoMemory;
use std::alloc::Global;
use std::mem;

/// What comes next in a run.
#[derive(Drop)]
pub(crate) enum Next<'a> {
    /// The entry of the procedure.
    Enter,
    /// The statements of a block, and then what is open around it.
    Block(&'a [Stmt]),
    /// The test of a loop with this block.
    Test(&'a Expr, &'a [Stmt]),
    /// What was open around a block that is over.
    Leave(Rest<'a>),
    /// The end of `main`.
    Last,
}

/// A run: the procedure that runs, its frame, the arrays, what comes next, what is open around it,
/// and the turns that are left.
#[derive(Drop)]
pub(crate) struct Run<'a> {
    pub(crate) procedure: &'a Proc,
    pub(crate) frame: Frame,
    pub(crate) store: Store,
    pub(crate) next: Next<'a>,
    pub(crate) around: Vec<Rest<'a>>,
    pub(crate) left: u64,
    pub(crate) ended: bool,
}

impl<'a> Run<'a> {
    /// The turns that the next step takes.
    pub(crate) fn cost(&self) -> u64
        ensures { result ≡ cost_of (run_of self.now) }
    {
        match &self.next {
            Next::Enter => 1,
            Next::Block(body) => first_cost(body),
            Next::Test(_, _) => 1,
            Next::Leave(rest) => leave_cost(rest, self.procedure),
            Next::Last => give_cost(self.procedure),
        }
    }

    /// One step, whose turns are spent.
    pub(crate) fn advance(&mut self, alloc: Global, procedures: &'a [Proc]) -> Result<(), Stop>
        ensures { Does result (run_of self.new) (advancing (map procedure_of procedures.now) (run_of self.old).next (run_of self.old)) }
    {
        let next = mem::replace(&mut self.next, Next::Enter);
        match next {
            Next::Enter => {
                let procedure = self.procedure;
                self.next = Next::Block(&procedure.body);
                Ok(())
            }
            Next::Block(body) => self.pass(alloc, procedures, body),
            Next::Test(test, block) => self.test(test, block),
            Next::Leave(rest) => self.leave(alloc, procedures, rest),
            Next::Last => {
                let _ = self.given()?;
                self.ended = true;
                Ok(())
            }
        }
    }

    /// The next statement of a block, or what comes after the block.
    fn pass(&mut self, alloc: Global, procedures: &'a [Proc], block: &'a [Stmt]) -> Result<(), Stop>
        ensures { Does result (run_of self.new) (passing (map procedure_of procedures.now) (block_of block.now) (run_of self.old)) }
    {
        match block.split_first() {
            None => {
                self.close();
                Ok(())
            }
            Some((statement, rest)) => self.perform(alloc, procedures, statement, rest),
        }
    }

    /// One thing more is open, inside of the others.
    fn push(&mut self, rest: Rest<'a>) -> Result<(), NoMemory>
        ensures { OnOk result (run_of self.new ≡ opened (rest_of rest.entry) (run_of self.old)) }
    {
        self.around.push(rest)?;
        Ok(())
    }

    /// A block comes next.
    fn go_on(&mut self, block: &'a [Stmt])
        ensures { run_of self.new ≡ to (next.Block (block_of block.now)) (run_of self.old) }
    {
        self.next = Next::Block(block);
    }

    /// A block comes next, and this is open around it.
    fn inside(&mut self, block: &'a [Stmt], rest: Rest<'a>) -> Result<(), Stop>
        ensures { Does result (run_of self.new) (Ok (inside (block_of block.now) (rest_of rest.entry) (run_of self.old))) }
    {
        self.push(rest)?;
        self.go_on(block);
        Ok(())
    }

    /// The test of a loop.
    fn test(&mut self, test: &'a Expr, block: &'a [Stmt]) -> Result<(), Stop>
        ensures { Does result (run_of self.new) (testing (expression_of test.now) (block_of block.now) (run_of self.old)) }
    {
        let value = self.value(test)?;
        if value == 0 {
            self.go_on(&[]);
            return Ok(());
        }
        self.inside(block, Rest::Loop(test, block))
    }

    /// What an expression is worth.
    fn value(&self, e: &Expr) -> Result<i64, Stop>
        ensures { Gives result (evaluated (frame_of self.now.frame) self.now.store (expression_of e.now)) }
    {
        match evaluate(&self.frame, &self.store, e) {
            Ok(value) => Ok(value),
            Err((trap, line)) => Err(Stop::Trapped(trap, line)),
        }
    }

    /// A statement, with the statements after it.
    fn perform(
        &mut self,
        alloc: Global,
        procedures: &'a [Proc],
        statement: &'a Stmt,
        rest: &'a [Stmt],
    ) -> Result<(), Stop>
        ensures { Does result (run_of self.new) (doing (map procedure_of procedures.now) (statement_of statement.now) (block_of rest.now) (run_of self.old)) }
    {
        match statement {
            Stmt::Let(name, e) => self.set(alloc, name, e, rest),
            Stmt::Assign(name, e) => self.set(alloc, name, e, rest),
            Stmt::Put(name, index, e) => self.put(name, index, e, rest),
            Stmt::If(test, block, otherwise) => self.decide(test, block, otherwise, rest),
            Stmt::While(test, block) => self.repeat(test, block, rest),
            Stmt::Call(side) => self.call(alloc, procedures, side, rest),
            Stmt::Fork(left, right) => self.fork(alloc, procedures, left, right, rest),
            Stmt::Split(line, region, at, first, second, block) => {
                let split = Split {
                    line: *line,
                    region,
                    at,
                    first,
                    second,
                    block,
                };
                self.split(alloc, split, rest)
            }
            Stmt::Each(index, part, region, block) => {
                let each = Each {
                    index,
                    part,
                    region,
                    block,
                };
                self.each(alloc, each, rest)
            }
        }
    }

    /// A local gets a value.
    fn set(&mut self, alloc: Global, name: &Named, e: &Expr, rest: &'a [Stmt]) -> Result<(), Stop>
        ensures { Does result (run_of self.new) (doing [] (tree.Let name.now (expression_of e.now)) (block_of rest.now) (run_of self.old)) }
    {
        let value = self.value(e)?;
        self.frame.set(alloc, &name.name, value)?;
        self.go_on(rest);
        Ok(())
    }

    /// An element gets a value.
    fn put(&mut self, name: &Named, index: &Expr, e: &Expr, rest: &'a [Stmt]) -> Result<(), Stop>
        ensures { Does result (run_of self.new) (doing [] (tree.Put name.now (expression_of index.now) (expression_of e.now)) (block_of rest.now) (run_of self.old)) }
    {
        match element_value(&self.frame, &self.store, name, index, e) {
            Ok((at, value)) => {
                let region = self.frame.region(&name.name);
                self.store.put(region.array(), region.place(at), value);
                self.go_on(rest);
                Ok(())
            }
            Err((trap, line)) => Err(Stop::Trapped(trap, line)),
        }
    }

    /// One of two blocks.
    fn decide(
        &mut self,
        test: &Expr,
        block: &'a [Stmt],
        otherwise: &'a [Stmt],
        rest: &'a [Stmt],
    ) -> Result<(), Stop>
        ensures { Does result (run_of self.new) (doing [] (tree.If (expression_of test.now) (block_of block.now) (block_of otherwise.now)) (block_of rest.now) (run_of self.old)) }
    {
        let value = self.value(test)?;
        self.inside(choose(value, block, otherwise), Rest::Block(rest))
    }

    /// A loop.
    fn repeat(&mut self, test: &'a Expr, block: &'a [Stmt], rest: &'a [Stmt]) -> Result<(), Stop>
        ensures { Does result (run_of self.new) (doing [] (tree.While (expression_of test.now) (block_of block.now)) (block_of rest.now) (run_of self.old)) }
    {
        self.push(Rest::Block(rest))?;
        self.next = Next::Test(test, block);
        Ok(())
    }

    /// A call.
    fn call(
        &mut self,
        alloc: Global,
        procedures: &'a [Proc],
        side: &'a Side,
        rest: &'a [Stmt],
    ) -> Result<(), Stop>
        ensures { Does result (run_of self.new) (doing (map procedure_of procedures.now) (tree.Call (side_of side.now)) (block_of rest.now) (run_of self.old)) }
    {
        let frame = enter(alloc, procedures, &self.frame, &self.store, side)?;
        let Some(procedure) = named(procedures, &side.callee.name) else {
            return Err(Stop::NoMemory);
        };
        let caller = Caller {
            procedure: mem::replace(&mut self.procedure, procedure),
            frame: mem::replace(&mut self.frame, frame),
            rest: rest,
            side: side,
        };
        self.push(Rest::Call(caller))?;
        self.next = Next::Enter;
        Ok(())
    }

    /// A fork: both frames are made before the left branch begins.
    fn fork(
        &mut self,
        alloc: Global,
        procedures: &'a [Proc],
        left: &'a Side,
        right: &'a Side,
        rest: &'a [Stmt],
    ) -> Result<(), Stop>
        ensures { Does result (run_of self.new) (doing (map procedure_of procedures.now) (tree.Fork (side_of left.now) (side_of right.now)) (block_of rest.now) (run_of self.old)) }
    {
        let (one, other) = enter_both(alloc, procedures, &self.frame, &self.store, left, right)?;
        let Some(procedure) = named(procedures, &left.callee.name) else {
            return Err(Stop::NoMemory);
        };
        let caller = Caller {
            procedure: mem::replace(&mut self.procedure, procedure),
            frame: mem::replace(&mut self.frame, one),
            rest: rest,
            side: left,
        };
        self.push(Rest::Left(caller, right, other))?;
        self.next = Next::Enter;
        Ok(())
    }

    /// A split, whose parts have names in its block.
    fn split(&mut self, alloc: Global, split: Split<'a>, rest: &'a [Stmt]) -> Result<(), Stop>
        ensures { Does result (run_of self.new) (doing [] (tree.Split split.entry.line split.entry.region.now (expression_of split.entry.at.now) split.entry.first.now split.entry.second.now (block_of split.entry.block.now)) (block_of rest.now) (run_of self.old)) }
    {
        match first_words(&self.frame, &self.store, split.line, split.region, split.at) {
            Ok(count) => {
                let saved = self.frame.try_clone(alloc)?;
                let region = self.frame.region(&split.region.name);
                self.frame
                    .lend(alloc, &split.first.name, region.first(count))?;
                self.frame
                    .lend(alloc, &split.second.name, region.second(count))?;
                self.inside(split.block, Rest::Parts(saved, rest))
            }
            Err((trap, line)) => Err(Stop::Trapped(trap, line)),
        }
    }

    /// An `each`.
    fn each(&mut self, alloc: Global, each: Each<'a>, rest: &'a [Stmt]) -> Result<(), Stop>
        ensures { Does result (run_of self.new) (doing [] (tree.Each each.entry.index.now each.entry.part.now each.entry.region.now (block_of each.entry.block.now)) (block_of rest.now) (run_of self.old)) }
    {
        let sweep = Sweep {
            index: each.index,
            part: each.part,
            block: each.block,
            region: self.frame.region(&each.region.name),
            next: 0,
            frame: self.frame.try_clone(alloc)?,
            rest: rest,
        };
        self.push(Rest::Sweeps(sweep))?;
        self.go_on(&[]);
        Ok(())
    }

    /// The end of a block: what is open around it is left.
    fn close(&mut self)
        ensures { run_of self.new ≡ closing (run_of self.old).around (run_of self.old) }
    {
        self.next = match self.around.pop() {
            None => Next::Last,
            Some(rest) => Next::Leave(rest),
        };
    }

    /// What was open around a block goes on.
    fn leave(&mut self, alloc: Global, procedures: &'a [Proc], rest: Rest<'a>) -> Result<(), Stop>
        ensures { Does result (run_of self.new) (leaving (map procedure_of procedures.now) (rest_of rest.entry) (run_of self.old)) }
    {
        match rest {
            Rest::Block(body) => {
                self.next = Next::Block(body);
                Ok(())
            }
            Rest::Loop(test, block) => {
                self.next = Next::Test(test, block);
                Ok(())
            }
            Rest::Parts(frame, body) => {
                self.frame.restore(frame);
                self.next = Next::Block(body);
                Ok(())
            }
            Rest::Sweeps(sweep) => self.sweep(alloc, sweep),
            Rest::Call(caller) => self.come_back(alloc, caller),
            Rest::Left(caller, right, frame) => self.cross(procedures, caller, right, frame),
            Rest::Right(caller, right, value) => self.join(alloc, caller, right, value),
        }
    }

    /// The next block of an `each`, or what follows the last one.
    fn sweep(&mut self, alloc: Global, mut sweep: Sweep<'a>) -> Result<(), Stop>
        ensures { Does result (run_of self.new) (Ok (sweeping (sweep_of sweep.entry) (run_of self.old))) }
    {
        if sweep.next >= sweep.region.length() {
            self.frame = sweep.frame;
            self.next = Next::Block(sweep.rest);
            return Ok(());
        }
        let mut frame = sweep.frame.try_clone(alloc)?;
        frame.set_index(alloc, &sweep.index.name, sweep.next)?;
        frame.lend(alloc, &sweep.part.name, sweep.region.element(sweep.next))?;
        self.frame = frame;
        sweep.next += 1;
        self.inside(sweep.block, Rest::Sweeps(sweep))
    }

    /// What the procedure gives, 0 if it gives nothing.
    fn given(&self) -> Result<i64, Stop>
        ensures { Gives result (gives (run_of self.now).procedure.give (run_of self.now)) }
    {
        match &self.procedure.give {
            None => Ok(0),
            Some(give) => self.value(&give.value),
        }
    }

    /// The end of a called procedure.
    fn come_back(&mut self, alloc: Global, caller: Caller<'a>) -> Result<(), Stop>
        ensures { Does result (run_of self.new) (leaving [] (rest.Call (caller_of caller.entry)) (run_of self.old)) }
    {
        let value = self.given()?;
        let mut frame = caller.frame;
        frame.deliver(alloc, &caller.side.target, value)?;
        self.procedure = caller.procedure;
        self.frame = frame;
        self.next = Next::Block(caller.rest);
        Ok(())
    }

    /// The end of a left branch, after which the right one begins.
    fn cross(
        &mut self,
        procedures: &'a [Proc],
        caller: Caller<'a>,
        right: &'a Side,
        frame: Frame,
    ) -> Result<(), Stop>
        ensures { Does result (run_of self.new) (leaving (map procedure_of procedures.now) (rest.Left (caller_of caller.entry) (side_of right.now) (frame_of frame)) (run_of self.old)) }
    {
        let value = self.given()?;
        let Some(procedure) = named(procedures, &right.callee.name) else {
            return Err(Stop::NoMemory);
        };
        self.push(Rest::Right(caller, right, value))?;
        self.procedure = procedure;
        self.frame = frame;
        self.next = Next::Enter;
        Ok(())
    }

    /// The end of a right branch, after which both values are stored, the left one first.
    fn join(
        &mut self,
        alloc: Global,
        caller: Caller<'a>,
        right: &'a Side,
        left: i64,
    ) -> Result<(), Stop>
        ensures { Does result (run_of self.new) (leaving [] (rest.Right (caller_of caller.entry) (side_of right.now) left) (run_of self.old)) }
    {
        let value = self.given()?;
        let mut frame = caller.frame;
        frame.deliver(alloc, &caller.side.target, left)?;
        frame.deliver(alloc, &right.target, value)?;
        self.procedure = caller.procedure;
        self.frame = frame;
        self.next = Next::Block(caller.rest);
        Ok(())
    }
}
