//! How a capsule of a frame goes on, from one word step to the next.
ghost use Rattle.std.specs.Prelude.{◌≡◌, ◌<◌, true, length, replicate};
ghost use Rattle.ppm_cells.specs.Finish.{finish_word};
ghost use Rattle.ppm_cells.specs.declared.finish.Finish.TheVariants.{OutOfRoom};
ghost use Rattle.ppm_code.specs.Locations.{location_of};
ghost use Rattle.ppm_step.specs.Frames.{cell_of};
ghost use Rattle.ppm_step.specs.Facts.{IsHome};
ghost use Rattle.ppm_step.specs.There.{is_there};

use crate::ask::Want;
use crate::frame::Home;
use crate::going::Going;
use crate::running::{Running, Stage};
use crate::there::{address, cell_is_there, restart_there, restart_word};
use ppm_cells::{Cell, Finish, Restart, RestartKind, Shape};
use ppm_code::{Code, End, FrameWord, Instr, Location, Reached, Step, reach};

/// Whether the word of a location is there.
#[inline(always)]
pub fn location_is_there(shape: &Shape, home: &Home, location: Location) -> bool
    requires { IsHome home.now }
    ensures { result ≡ is_there shape.now (cell_of home.now (location_of location)) }
{
    let words = u64::from(shape.word_count());
    match location {
        Location::Frame(FrameWord::Slot(slot)) => {
            u64::from(home.frame) + 6 + u64::from(slot) < words
        }
        Location::Frame(FrameWord::Value) => u64::from(home.frame) + 4 < words,
        Location::New(offset) => u64::from(home.block) + u64::from(offset) < words,
        Location::Array(index) => index < u64::from(shape.arrays),
    }
}

/// The word of a location that is there.
#[inline(always)]
pub fn location_cell(shape: &Shape, home: &Home, location: Location) -> Cell
    requires home { IsHome home.now }
    requires there { is_there shape.now (cell_of home.now (location_of location)) ≡ true }
    ensures { result ≡ cell_of home.now (location_of location) }
{
    // The proof needs its limits.
    let _ = shape.slots;
    match location {
        Location::Frame(FrameWord::Slot(slot)) => Cell::slot_word(home.frame, slot),
        Location::Frame(FrameWord::Value) => Cell::value_word(home.frame),
        Location::New(offset) => Cell::BlockWord {
            address: home.block + offset,
        },
        Location::Array(index) => Cell::ArrayWord {
            index: index as u32,
        },
    }
}

impl Running {
    ghost use Rattle.std.specs.Prelude.{◌≡◌, ◌<◌, ◌+◌, ℕ, true, length};
    ghost use Rattle.ppm_code.specs.declared.act.End.TheVariants.{Next};
    ghost use Rattle.ppm_code.specs.declared.code.CodeParts.{CodeParts};
    ghost use Rattle.ppm_cells.specs.Cells.{word_count};
    ghost use Rattle.ppm_step.specs.Frames.{Installs, installed, ending};
    ghost use Rattle.ppm_step.specs.declared.running.Stage.TheVariants.{Ending};
    ghost use Rattle.ppm_step.specs.Facts.{IsHome, IsEnd, IsSeat};
    ghost use Rattle.ppm_step.specs.Standings.{rest_is_there, running, running_if, wanted_rest};
    ghost use Rattle.ppm_step.specs.Standings.{went_rest, WantIsWithin};
    ghost use Rattle.ppm_step.specs.Stages.{rest_at, rest_from, asked, went_on, IsUnderWay};
    ghost use Rattle.ppm_step.specs.Stages.{IsStage, WentOn};

    /// The restart of a kind at its place.
    pub fn restart(&self, kind: RestartKind) -> Restart
        ensures { result ≡ record { kind = kind; bottom = self.now.seat.restart.bottom } }
    {
        Restart {
            kind,
            bottom: self.seat.restart.bottom,
        }
    }

    /// Whether the n-th store of its end, or what it installs, is there.
    #[inline(never)]
    pub fn put_is_there(&self, shape: &Shape, code: &Code, end: End, n: usize) -> bool
        requires home { IsHome self.now.home }
        requires end { IsEnd end }
        ensures { result
            ≡ rest_is_there shape.now self.now.seat (ending code.now self.now.home end n) }
    {
        match self.home.next_put(code, end, n) {
            Some(put) => cell_is_there(shape, put.cell),
            None => restart_there(shape, self.restart(self.home.installed(end))),
        }
    }

    /// Whether the n-th store of the end that goes on with a capsule, or what it installs, is
    /// there.
    #[inline(always)]
    pub fn next_is_there(&self, shape: &Shape, n: usize) -> bool
        requires { IsHome self.now.home }
        ensures { (code : CodeParts) (capsule : ℕ)
            → result
            ≡ rest_is_there shape.now self.now.seat (ending code self.now.home (Next capsule) n) }
    {
        if n == 0 {
            self.home.header() < shape.word_count()
        } else {
            restart_there(shape, self.restart(self.home.goes_round()))
        }
    }

    /// Stands before the first store of an end, and tells whether that is there.
    #[inline(never)]
    fn begin_end(&mut self, shape: &Shape, code: &Code, end: End) -> bool
        requires home { IsHome self.old.home }
        requires end { IsEnd end }
        ensures stage { self.new.stage ≡ Ending end 0 }
        ensures there { result
            ≡ rest_is_there shape.now self.old.seat (ending code.now self.old.home end 0) }
        ensures seat { self.new.seat ≡ self.old.seat }
        ensures home_stays { self.new.home ≡ self.old.home }
        ensures capsule { self.new.capsule ≡ self.old.capsule }
    {
        self.stage = Stage::Ending(end, 0);
        self.put_is_there(shape, code, end, 0)
    }

    /// Does the register work up to the next word step, and tells whether that is there.
    #[inline(always)]
    pub fn go_on(&mut self, shape: &Shape, code: &Code, registers: &mut [u64; 64]) -> bool
        requires home { IsHome self.old.home }
        requires place { self.old.seat.place < shape.now.processors }
        ensures left { rest_at shape.now code.now self.new self.new.stage registers.new
            ≡ rest_from shape.now code.now self.old self.old.next registers.old }
        ensures there { result
            ≡ rest_is_there shape.now self.new.seat (rest_at shape.now code.now self.new self.new.stage registers.new) }
        ensures stage { IsStage self.new.stage }
        ensures seat { self.new.seat ≡ self.old.seat }
        ensures home_stays { self.new.home ≡ self.old.home }
        ensures capsule { self.new.capsule ≡ self.old.capsule }
    {
        let _ = code.parts().root;
        let Some(capsule) = code.capsule(self.capsule) else {
            let mut ending = *self;
            let there = ending.begin_end(shape, code, End::Finish);
            *self = ending;
            return there;
        };
        let stop = reach(
            capsule.instrs.as_slice(),
            u64::from(shape.arrays),
            self.next,
            registers,
        );
        self.next = stop.next;
        match stop.what {
            Reached::AtEnd(End::Next { capsule }) => {
                self.stage = Stage::Ending(End::Next { capsule }, 0);
                self.next_is_there(shape, 0)
            }
            Reached::Before(step) => {
                self.stage = Stage::Before(step);
                match step {
                    Step::Loads(location, _) | Step::Stores(location, _) => {
                        location_is_there(shape, &self.home, location)
                    }
                    Step::Asks(_) => true,
                }
            }
            Reached::AtEnd(end) => {
                // By a copy, so that the rest of this function can hold it in registers.
                let mut ending = *self;
                let there = ending.begin_end(shape, code, end);
                *self = ending;
                there
            }
        }
    }

    /// The n-th store of an end, or of what it installs.
    #[inline(never)]
    fn want_put(&self, shape: &Shape, code: &Code, end: End, n: usize) -> Want
        requires seat { IsSeat shape.now self.now.seat }
        requires home { IsHome self.now.home }
        requires end { IsEnd end }
        requires there { rest_is_there shape.now self.now.seat (ending code.now self.now.home end n)
            ≡ true }
        ensures value { result
            ≡ wanted_rest shape.now self.now.seat (ending code.now self.now.home end n) }
        ensures within { WantIsWithin shape.now result }
    {
        match self.home.next_put(code, end, n) {
            Some(put) => Want::Stores(address(shape, put.cell), put.content.word()),
            None => {
                let cell = Cell::RestartWord {
                    place: self.seat.place,
                };
                let restart = self.restart(self.home.installed(end));
                Want::Stores(address(shape, cell), restart_word(shape, restart))
            }
        }
    }

    /// The word step that comes next.
    #[inline(always)]
    pub fn want(&self, shape: &Shape, code: &Code, registers: &[u64; 64]) -> Want
        requires { IsUnderWay shape.now code.now self.now registers.now }
        ensures value { result
            ≡ wanted_rest shape.now self.now.seat (rest_at shape.now code.now self.now self.now.stage registers.now) }
        ensures within { WantIsWithin shape.now result }
    {
        let _ = registers.len();
        match self.stage {
            Stage::Before(Step::Loads(location, _)) => {
                Want::Loads(address(shape, location_cell(shape, &self.home, location)))
            }
            Stage::Before(Step::Stores(location, word)) => {
                Want::Stores(
                    address(shape, location_cell(shape, &self.home, location)),
                    word,
                )
            }
            Stage::Before(Step::Asks(_)) => Want::Loads(address(
                shape,
                Cell::RoomCounter {
                    place: self.seat.place,
                },
            )),
            Stage::Ending(End::Next { capsule }, n) => if n == 0 {
                Want::Stores(self.home.header(), u64::from(capsule))
            } else {
                let cell = Cell::RestartWord {
                    place: self.seat.place,
                };
                let restart = self.restart(self.home.goes_round());
                Want::Stores(address(shape, cell), restart_word(shape, restart))
            },
            Stage::Ending(end, n) => self.want_put(shape, code, end, n),
            Stage::Filled => {
                let full = Finish::OutOfRoom {
                    place: self.seat.place,
                };
                Want::Exchanges(address(shape, Cell::FinishWord), 0, full.pack())
            }
        }
    }

    /// Takes the words of its new block, if the pool has them.
    #[inline(never)]
    fn ask(
        &mut self,
        shape: &Shape,
        code: &Code,
        registers: &mut [u64; 64],
        words: u32,
        counter: u64,
    ) -> bool
        requires home { IsHome self.old.home }
        requires place { self.old.seat.place < shape.now.processors }
        requires stage_before { IsStage self.old.stage }
        ensures stands { running_if self.old.seat (rest_at shape.now code.now self.new self.new.stage registers.new) result
            ≡ running shape.now self.old.seat (asked shape.now code.now self.old counter words registers.old) }
        ensures there { result ≡ true
            → rest_is_there shape.now self.new.seat (rest_at shape.now code.now self.new self.new.stage registers.new) ≡ true }
        ensures home_fits { IsHome self.new.home }
        ensures stage { IsStage self.new.stage }
        ensures seat { self.new.seat ≡ self.old.seat }
        ensures capsule { self.new.capsule ≡ self.old.capsule }
    {
        let pool = u64::from(shape.pool_at(self.seat.place));
        if counter < pool {
            return false;
        }
        if counter > pool + u64::from(shape.room)
            || u64::from(words) > pool + u64::from(shape.room) - counter
        {
            self.stage = Stage::Filled;
            return true;
        }
        self.home.block = counter as u32;
        self.go_on(shape, code, registers)
    }

    /// Goes on after the n-th store of the end that goes on with a capsule, or after the store of
    /// its restart word.
    #[inline(always)]
    #[tactic(auto, using(crate::proofs::ThereLemmas::restart_fits))]
    pub fn observe_next(
        &mut self,
        shape: &Shape,
        code: &Code,
        registers: &[u64; 64],
        capsule: u32,
        n: usize,
    ) -> Going
        requires running { IsUnderWay shape.now code.now self.old registers.now }
        requires stage { self.old.stage ≡ Ending (Next capsule) n }
        ensures stands { (found : ℕ)
            → went_on self.old.seat (rest_at shape.now code.now self.new self.new.stage registers.now) result
            ≡ went_rest shape.now self.old.seat found (ending code.now self.old.home (Next capsule) n) }
        ensures holds { WentOn shape.now code.now self.new registers.now result }
        ensures seat { self.new.seat ≡ self.old.seat }
    {
        let _ = (code.parts().root, registers.len());
        if n > 0 {
            return Going::Installed(self.restart(self.home.goes_round()));
        }
        self.stage = Stage::Ending(End::Next { capsule }, 1);
        Going::Went(self.next_is_there(shape, 1))
    }

    /// Goes on with what the word step found.
    #[inline(always)]
    pub fn observe(
        &mut self,
        shape: &Shape,
        code: &Code,
        registers: &mut [u64; 64],
        found: u64,
    ) -> Going
        requires { IsUnderWay shape.now code.now self.old registers.old }
        ensures stands { went_on self.old.seat (rest_at shape.now code.now self.new self.new.stage registers.new) result
            ≡ went_rest shape.now self.old.seat found (rest_at shape.now code.now self.old self.old.stage registers.old) }
        ensures holds { WentOn shape.now code.now self.new registers.new result }
        ensures seat { self.new.seat ≡ self.old.seat }
    {
        match self.stage {
            Stage::Before(Step::Loads(_, to)) => {
                registers[usize::from(to.index)] = found;
                Going::Went(self.go_on(shape, code, registers))
            }
            Stage::Before(Step::Stores(_, _)) => Going::Went(self.go_on(shape, code, registers)),
            Stage::Before(Step::Asks(words)) => {
                let mut asking = *self;
                let there = asking.ask(shape, code, registers, words, found);
                *self = asking;
                Going::Went(there)
            }
            Stage::Ending(End::Next { capsule }, n) => {
                self.observe_next(shape, code, registers, capsule, n)
            }
            Stage::Ending(end, n) => {
                let mut ending = *self;
                match ending.home.next_put(code, end, n) {
                    None => Going::Installed(ending.restart(ending.home.installed(end))),
                    Some(_) => {
                        ending.stage = Stage::Ending(end, n + 1);
                        let there = ending.put_is_there(shape, code, end, n + 1);
                        *self = ending;
                        Going::Went(there)
                    }
                }
            }
            Stage::Filled => Going::Installed(self.seat.restart),
        }
    }
}
