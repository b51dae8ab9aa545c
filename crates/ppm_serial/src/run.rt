//! A run: one step after the other.
//! A `?` on a `Result` of unit is compiled to a call of its own, which takes its result through
//! memory. So what runs again and again returns early by an `if let` in its place.
ghost use Rattle.std.specs.Prelude.{◌≡◌, Ok};
ghost use Rattle.ppm_tree.specs.Tree.{ProgramTree};
ghost use Rattle.ppm_serial.specs.Answers.{Does, Gives};
ghost use Rattle.ppm_serial.specs.Laying.{IsLaid};
ghost use Rattle.ppm_serial.specs.Running.{Answers, Starts};
ghost use Rattle.ppm_serial.specs.Machine.{beginning, called, calling, choosing, crossing};
ghost use Rattle.ppm_serial.specs.Machine.{delivering, doing, ending};
ghost use Rattle.ppm_serial.specs.Machine.{entering, forking, give_spending, giving, inside};
ghost use Rattle.ppm_serial.specs.Machine.{joining, leaving, passing};
ghost use Rattle.ppm_serial.specs.Machine.{putting, returning, setting, spending, splitting};
ghost use Rattle.ppm_serial.specs.Machine.{stepping, sweep_begins};
ghost use Rattle.ppm_serial.specs.Machine.{sweeping, testing, with_frame};

use crate::code::{Call, Code, Parts, Passed, Place, Step, Stop, Value};
use crate::frame::Frame;
use crate::region::Region;
use crate::stack::{Caller, Rest, Stack, Sweep};
use crate::store::Store;
use crate::value::{index_in, split_at, worth};
use std::alloc::Global;
use std::mem;

/// A run: the frame of the procedure that runs, the arrays, what is still to come, the place of the
/// next statement, and the turns that are left.
#[derive(Drop)]
pub(crate) struct Run {
    pub(crate) frame: Frame,
    pub(crate) store: Store,
    pub(crate) stack: Stack,
    pub(crate) place: Place,
    pub(crate) left: u64,
    pub(crate) ended: bool,
}

impl Run {
    /// One step: a statement, or what comes after a block.
    pub(crate) fn step(&mut self, alloc: Global, code: &Code) -> Result<(), Stop>
        ensures { Does result self.new (stepping code.now self.old) }
    {
        match code.step(&self.place) {
            None => self.leave(alloc, code),
            Some(step) => {
                let behind = Place {
                    block: self.place.block,
                    at: self.place.at + 1,
                };
                if let Err(stop) = self.spend(1) {
                    return Err(stop);
                }
                self.place = behind;
                self.perform(alloc, code, step)
            }
        }
    }

    /// All steps from the entry of `main` on, until the run ends or stops.
    pub(crate) fn to_end(&mut self, alloc: Global, code: &Code) -> Result<(), Stop>
        ensures { (t : ProgramTree) → IsLaid t.procedures code.now → Starts t self.old
            → Answers t self.old.left result self.new.store }
    {
        self.begin(code, code.main())?;
        while !self.ended {
            if let Err(stop) = self.step(alloc, code) {
                return Err(stop);
            }
        }
        Ok(())
    }

    /// Spends turns.
    fn spend(&mut self, turns: u64) -> Result<(), Stop>
        ensures { Does result self.new (spending turns self.old) }
    {
        if self.left < turns {
            return Err(Stop::NotWithin);
        }
        self.left -= turns;
        Ok(())
    }

    /// A statement, whose turn is spent.
    fn perform(&mut self, alloc: Global, code: &Code, step: &Step) -> Result<(), Stop>
        ensures { Does result self.new (doing code.now step.now self.old) }
    {
        match step {
            Step::Set(slot, value) => self.set(*slot, value),
            Step::Put(slot, line, index, value) => self.put(*slot, *line, index, value),
            Step::Choose(test, holds, otherwise) => self.choose(test, *holds, *otherwise),
            Step::Loop(test) => self.inside(*test, self.place),
            Step::Test(test, block) => self.test(test, *block),
            Step::Call(call) => self.call(alloc, code, call),
            Step::Fork(left, right) => self.fork(alloc, code, left, right),
            Step::Split(line, region, at, parts) => self.split(alloc, *line, *region, at, *parts),
            Step::Each(index, part, region, block) => {
                self.each(alloc, *index, *part, *region, *block)
            }
        }
    }

    /// A local gets a value.
    fn set(&mut self, slot: usize, value: &Value) -> Result<(), Stop>
        ensures { Does result self.new (setting slot value.now self.old) }
    {
        let value = worth(&self.frame, &self.store, value)?;
        self.frame.set_local(slot, value);
        Ok(())
    }

    /// An element gets a value: index, then value, then the test of the index.
    fn put(&mut self, slot: usize, line: u32, index: &Value, value: &Value) -> Result<(), Stop>
        ensures { Does result self.new (putting slot line index.now value.now self.old) }
    {
        let index = worth(&self.frame, &self.store, index)?;
        let value = worth(&self.frame, &self.store, value)?;
        let region = self.frame.region(slot);
        let at = index_in(line, &region, index)?;
        self.store.put(region.array(), region.place(at), value);
        Ok(())
    }

    /// Enters a block, after which another place comes.
    #[inline(always)]
    fn inside(&mut self, block: usize, place: Place) -> Result<(), Stop>
        ensures { Does result self.new (Ok (inside block place self.old)) }
    {
        if let Err(stop) = self.stack.push(Rest::Block(place)) {
            return Err(stop);
        }
        self.place = Place { block, at: 0 };
        Ok(())
    }

    /// Enters one of two blocks.
    fn choose(&mut self, test: &Value, holds: usize, otherwise: usize) -> Result<(), Stop>
        ensures { Does result self.new (choosing test.now holds otherwise self.old) }
    {
        let value = worth(&self.frame, &self.store, test)?;
        if value != 0 {
            return self.inside(holds, self.place);
        }
        self.inside(otherwise, self.place)
    }

    /// The test of a loop, which is the first step of its block: where it holds, the loop's block
    /// is entered, and the test comes again after it.
    fn test(&mut self, test: &Value, block: usize) -> Result<(), Stop>
        ensures { Does result self.new (testing test.now block self.old) }
    {
        let value = worth(&self.frame, &self.store, test)?;
        if value == 0 {
            return Ok(());
        }
        let again = Place {
            block: self.place.block,
            at: 0,
        };
        self.inside(block, again)
    }

    /// The frame of a callee, with what is passed.
    #[inline(always)]
    fn callee(&mut self, alloc: Global, code: &Code, call: &Call) -> Result<Frame, Stop>
        ensures value { Gives result (called code.now self.old.frame self.old.store call.now) }
        ensures kept { self.new ≡ self.old }
    {
        let (locals, regions) = code.sizes(call.callee);
        let mut frame = self.stack.frame(alloc, locals, regions)?;
        if let Err(stop) = self.pass(&call.passed, &mut frame) {
            return Err(stop);
        }
        Ok(frame)
    }

    /// Passes what a call passes, from left to right.
    #[inline(always)]
    fn pass(&self, passed: &[Passed], callee: &mut Frame) -> Result<(), Stop>
        ensures { Does result callee.new (passing self.now.frame self.now.store passed.now callee.old) }
    {
        let mut left = passed;
        while let [first, rest @ ..] = left {
            left = rest;
            match first {
                Passed::Number(slot, value) => {
                    let value = worth(&self.frame, &self.store, value)?;
                    callee.set_local(*slot, value);
                }
                Passed::Region(slot, lent) => {
                    callee.set_region(*slot, self.frame.region(*lent));
                }
                Passed::Nowhere(slot) => callee.set_region(*slot, Region::nowhere()),
            }
        }
        Ok(())
    }

    /// A procedure begins in the frame that is there; its entry spends a turn.
    pub(crate) fn begin(&mut self, code: &Code, callee: usize) -> Result<(), Stop>
        ensures { Does result self.new (beginning code.now callee self.old) }
    {
        self.place = Place {
            block: code.body(callee),
            at: 0,
        };
        self.spend(1)
    }

    /// Goes over to another frame; the one that was there is over.
    #[inline(always)]
    fn leave_for(&mut self, frame: Frame)
        ensures { self.new ≡ with_frame self.old frame }
    {
        let over = mem::replace(&mut self.frame, frame);
        self.stack.spare(over);
    }

    /// Enters a procedure with a frame, and puts on the stack who waits.
    fn enter(&mut self, code: &Code, callee: usize, frame: Frame, rest: Rest) -> Result<(), Stop>
        ensures { Does result self.new (entering code.now callee frame rest self.old) }
    {
        if let Err(stop) = self.stack.push(rest) {
            return Err(stop);
        }
        self.leave_for(frame);
        self.begin(code, callee)
    }

    /// A call.
    fn call(&mut self, alloc: Global, code: &Code, call: &Call) -> Result<(), Stop>
        ensures { Does result self.new (calling code.now call.now self.old) }
    {
        let (locals, regions) = code.sizes(call.callee);
        let mut frame = self.stack.frame(alloc, locals, regions)?;
        if let Err(stop) = self.pass(&call.passed, &mut frame) {
            return Err(stop);
        }
        let caller = Caller {
            frame: mem::replace(&mut self.frame, frame),
            place: self.place,
            target: call.target,
            callee: call.callee,
        };
        if let Err(stop) = self.stack.push(Rest::Call(caller)) {
            return Err(stop);
        }
        self.begin(code, call.callee)
    }

    /// A fork: both frames are made before the left branch begins.
    fn fork(&mut self, alloc: Global, code: &Code, left: &Call, right: &Call) -> Result<(), Stop>
        ensures { Does result self.new (forking code.now left.now right.now self.old) }
    {
        let frame = self.callee(alloc, code, left)?;
        let later = self.callee(alloc, code, right)?;
        let caller = Caller {
            frame: mem::replace(&mut self.frame, frame),
            place: self.place,
            target: left.target,
            callee: left.callee,
        };
        let rest = Rest::Left(caller, right.target, right.callee, later);
        if let Err(stop) = self.stack.push(rest) {
            return Err(stop);
        }
        self.begin(code, left.callee)
    }

    /// A split, whose parts have slots in its block.
    fn split(
        &mut self,
        alloc: Global,
        line: u32,
        slot: usize,
        at: &Value,
        parts: Parts,
    ) -> Result<(), Stop>
        ensures { Does result self.new (splitting line slot at.now parts self.old) }
    {
        let value = worth(&self.frame, &self.store, at)?;
        let region = self.frame.region(slot);
        let count = split_at(line, &region, value)?;
        let regions = self.frame.regions(alloc)?;
        if let Err(stop) = self.stack.push(Rest::Parts(regions, self.place)) {
            return Err(stop);
        }
        self.frame.set_region(parts.first, region.first(count));
        self.frame.set_region(parts.second, region.second(count));
        self.place = Place {
            block: parts.block,
            at: 0,
        };
        Ok(())
    }

    /// An `each`, whose start spends 9 turns with that of the statement.
    fn each(
        &mut self,
        alloc: Global,
        index: usize,
        part: usize,
        slot: usize,
        block: usize,
    ) -> Result<(), Stop>
        ensures { Does result self.new (sweep_begins index part slot block self.old) }
    {
        if let Err(stop) = self.spend(8) {
            return Err(stop);
        }
        let sweep = Sweep {
            index,
            part,
            block,
            region: self.frame.region(slot),
            next: 0,
            frame: self.frame.try_clone(alloc)?,
            place: self.place,
        };
        self.sweep(alloc, sweep)
    }

    /// The next block of an `each`, or what follows the last one; each block spends 8 turns.
    fn sweep(&mut self, alloc: Global, mut sweep: Sweep) -> Result<(), Stop>
        ensures { Does result self.new (sweeping sweep self.old) }
    {
        if sweep.next >= sweep.region.length() {
            self.frame = sweep.frame;
            self.place = sweep.place;
            return Ok(());
        }
        if let Err(stop) = self.spend(8) {
            return Err(stop);
        }
        self.frame.copy_from(alloc, &sweep.frame)?;
        self.frame.set_local(sweep.index, sweep.next as i64);
        self.frame
            .set_region(sweep.part, sweep.region.element(sweep.next));
        self.place = Place {
            block: sweep.block,
            at: 0,
        };
        sweep.next += 1;
        self.stack.push(Rest::Sweep(sweep))
    }

    /// What comes after a block.
    fn leave(&mut self, alloc: Global, code: &Code) -> Result<(), Stop>
        ensures { Does result self.new (leaving code.now self.old.stack self.old) }
    {
        match self.stack.pop() {
            None => self.end(code),
            Some(Rest::Block(place)) => {
                self.place = place;
                Ok(())
            }
            Some(Rest::Parts(regions, place)) => {
                self.frame.set_regions(regions);
                self.place = place;
                Ok(())
            }
            Some(Rest::Sweep(sweep)) => self.sweep(alloc, sweep),
            Some(Rest::Call(caller)) => self.come_back(code, caller),
            Some(Rest::Left(caller, target, callee, frame)) => {
                self.cross(code, caller, target, callee, frame)
            }
            Some(Rest::Right(caller, target, value)) => self.join(code, caller, target, value),
        }
    }

    /// The turn of what a procedure gives, if it gives anything.
    fn spend_give(&mut self, code: &Code, routine: usize) -> Result<(), Stop>
        ensures { Does result self.new (give_spending code.now routine self.old) }
    {
        match code.give(routine) {
            None => Ok(()),
            Some(_) => self.spend(1),
        }
    }

    /// What a procedure gives, 0 if it gives nothing.
    fn give(&self, code: &Code, routine: usize) -> Result<i64, Stop>
        ensures { Gives result (giving code.now routine self.now) }
    {
        match code.give(routine) {
            None => Ok(0),
            Some(value) => worth(&self.frame, &self.store, value),
        }
    }

    /// A value in a target's slot, if there is one.
    fn deliver(&mut self, target: Option<usize>, value: i64)
        ensures { self.new ≡ with_frame self.old (delivering target value self.old.frame) }
    {
        match target {
            None => {}
            Some(slot) => self.frame.set_local(slot, value),
        }
    }

    /// The end of a called procedure.
    fn come_back(&mut self, code: &Code, caller: Caller) -> Result<(), Stop>
        ensures { Does result self.new (returning code.now caller self.old) }
    {
        if let Err(stop) = self.spend_give(code, caller.callee) {
            return Err(stop);
        }
        let value = self.give(code, caller.callee)?;
        self.leave_for(caller.frame);
        self.place = caller.place;
        self.deliver(caller.target, value);
        Ok(())
    }

    /// The end of a left branch, after which the right one begins.
    fn cross(
        &mut self,
        code: &Code,
        caller: Caller,
        target: Option<usize>,
        callee: usize,
        frame: Frame,
    ) -> Result<(), Stop>
        ensures { Does result self.new (crossing code.now caller target callee frame self.old) }
    {
        if let Err(stop) = self.spend_give(code, caller.callee) {
            return Err(stop);
        }
        let value = self.give(code, caller.callee)?;
        let waiting = Caller {
            frame: caller.frame,
            place: caller.place,
            target,
            callee,
        };
        self.enter(
            code,
            callee,
            frame,
            Rest::Right(waiting, caller.target, value),
        )
    }

    /// The end of a right branch, after which both values are stored, the left one first.
    fn join(
        &mut self,
        code: &Code,
        caller: Caller,
        target: Option<usize>,
        left: i64,
    ) -> Result<(), Stop>
        ensures { Does result self.new (joining code.now caller target left self.old) }
    {
        if let Err(stop) = self.spend_give(code, caller.callee) {
            return Err(stop);
        }
        let right = self.give(code, caller.callee)?;
        self.leave_for(caller.frame);
        self.place = caller.place;
        self.deliver(target, left);
        self.deliver(caller.target, right);
        Ok(())
    }

    /// The end of `main`.
    fn end(&mut self, code: &Code) -> Result<(), Stop>
        ensures { Does result self.new (ending code.now self.old) }
    {
        self.spend_give(code, code.main())?;
        let _ = self.give(code, code.main())?;
        self.ended = true;
        Ok(())
    }
}
