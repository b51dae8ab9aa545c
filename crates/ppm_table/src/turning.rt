//! The turn of a processor.
ghost use Rattle.std.specs.Prelude.{◌≡◌, ◌≢◌, ◌<◌};
ghost use Rattle.ppm_cells.specs.declared.shape.Shape.{Shape};
ghost use Rattle.ppm_code.specs.declared.code.CodeParts.{CodeParts};
ghost use Rattle.ppm_step.specs.State.{is_done_at};
ghost use Rattle.ppm_step.specs.Locals.{IsLocal, standing_of};
ghost use Rattle.ppm_step.specs.Standings.{IsDone};
ghost use Rattle.ppm_step.specs.declared.turn.Act.TheVariants.{Step, Soft, Hard, Quit};
ghost use Rattle.ppm_table.specs.Run.{IsActAt};
ghost use Rattle.ppm_table.specs.Shown.{IsOf, deeds_of_processor};
ghost use Rattle.ppm_table.specs.Events.{HasActed, HasMadeNone};

use crate::act_counts::ActCounts;
use crate::processor::{Processor, Shared};
use crate::touching::{give_up, hard, soft, step_event, touch};
use ppm_step::{Act, Local, Next, Stand, Told, Why};
use ppm_words::Event;

/// Whether a processor takes no step any more.
#[inline(always)]
pub fn is_done(local: &Local) -> bool
    ensures { (s : Shape) (code : CodeParts) → result ≡ is_done_at (standing_of s code local.now) }
{
    match local.stand {
        Stand::Done => true,
        Stand::Lost
        | Stand::Placed { .. }
        | Stand::At { .. }
        | Stand::Within { .. }
        | Stand::Runs(_)
        | Stand::Broken { .. } => false,
    }
}

impl Processor {
    ghost use Rattle.std.specs.Prelude.{◌≡◌, ◌≢◌, ◌<◌, true};
    ghost use Rattle.ppm_step.specs.Locals.{IsLocal, standing_of};
    ghost use Rattle.ppm_step.specs.Standings.{IsDone};
    ghost use Rattle.ppm_step.specs.declared.turn.Act.TheVariants.{Step, Soft, Hard, Quit};
    ghost use Rattle.ppm_table.specs.Run.{IsActAt};
    ghost use Rattle.ppm_table.specs.Counting.{counted};
    ghost use Rattle.ppm_table.specs.Shown.{IsOf, StandsIn, deeds_of_processor};
    ghost use Rattle.ppm_table.specs.Events.{HasActed, HasMadeNone};

    /// Makes its coming step, where the turn names this victim.
    fn step(&mut self, shared: &Shared, victim: u32) -> Told
        requires of { StandsIn shared.now self.old }
        requires lives { standing_of shared.now.shape shared.now.code self.old.local ≢ IsDone }
        requires may { IsActAt shared.now.shape (standing_of shared.now.shape shared.now.code self.old.local) (Step victim) }
        ensures of { StandsIn shared.now self.new }
        ensures own { self.new.local.own ≡ self.old.local.own }
        ensures counts { self.new.counts ≡ self.old.counts }
        ensures acted { HasActed shared.now.shape shared.now.code self.old.local.own (Step victim)
            (standing_of shared.now.shape shared.now.code self.old.local) (standing_of shared.now.shape shared.now.code self.new.local)
            (deeds_of_processor self.old) (deeds_of_processor self.new) result }
    {
        let place = self.local.place();
        let work = matches!(self.local.next(), Next::Work);
        let want = self.local.want(&shared.shape, &shared.code, victim);
        let found = touch(&shared.words, &shared.shape, &mut self.seat, want);
        self.local
            .observe(&shared.shape, &shared.code, victim, found);
        Told {
            event: Some(step_event(place, want, found)),
            work,
            next: self.local.next(),
        }
    }

    /// It loses its registers: a load of the table that nothing looks at.
    fn soften(&mut self, shared: &Shared) -> Told
        requires of { StandsIn shared.now self.old }
        requires lives { standing_of shared.now.shape shared.now.code self.old.local ≢ IsDone }
        ensures of { StandsIn shared.now self.new }
        ensures own { self.new.local.own ≡ self.old.local.own }
        ensures counts { self.new.counts ≡ self.old.counts }
        ensures acted { HasActed shared.now.shape shared.now.code self.old.local.own Soft
            (standing_of shared.now.shape shared.now.code self.old.local) (standing_of shared.now.shape shared.now.code self.new.local)
            (deeds_of_processor self.old) (deeds_of_processor self.new) result }
    {
        let place = self.local.place();
        soft(&shared.words, &shared.shape, &mut self.seat, self.local.own);
        self.local.fault();
        Told {
            event: Some(Event {
                step: 4,
                place,
                word: 0,
                value: 0,
            }),
            work: false,
            next: Next::Look,
        }
    }

    /// It says that it is dead.
    fn harden(&mut self, shared: &Shared) -> Told
        requires of { StandsIn shared.now self.old }
        requires lives { standing_of shared.now.shape shared.now.code self.old.local ≢ IsDone }
        ensures of { StandsIn shared.now self.new }
        ensures own { self.new.local.own ≡ self.old.local.own }
        ensures counts { self.new.counts ≡ self.old.counts }
        ensures acted { HasActed shared.now.shape shared.now.code self.old.local.own Hard
            (standing_of shared.now.shape shared.now.code self.old.local) (standing_of shared.now.shape shared.now.code self.new.local)
            (deeds_of_processor self.old) (deeds_of_processor self.new) result }
    {
        let place = self.local.place();
        let at = hard(&shared.words, &shared.shape, &mut self.seat, self.local.own);
        self.local.die();
        Told {
            event: Some(Event {
                step: 5,
                place,
                word: at,
                value: 1,
            }),
            work: false,
            next: Next::Done,
        }
    }

    /// It gives up.
    fn quit(&mut self, shared: &Shared, why: Why) -> Told
        requires of { StandsIn shared.now self.old }
        requires lives { standing_of shared.now.shape shared.now.code self.old.local ≢ IsDone }
        ensures of { StandsIn shared.now self.new }
        ensures own { self.new.local.own ≡ self.old.local.own }
        ensures counts { self.new.counts ≡ self.old.counts }
        ensures acted { HasActed shared.now.shape shared.now.code self.old.local.own (Quit why)
            (standing_of shared.now.shape shared.now.code self.old.local) (standing_of shared.now.shape shared.now.code self.new.local)
            (deeds_of_processor self.old) (deeds_of_processor self.new) result }
    {
        let place = self.local.place();
        let value = give_up(
            &shared.words,
            &shared.shape,
            &mut self.seat,
            self.local.own,
            why,
        );
        self.local.fault();
        Told {
            event: Some(Event {
                step: 6,
                place,
                word: 0,
                value,
            }),
            work: false,
            next: Next::Look,
        }
    }

    /// Makes an act of a processor that isn't done.
    fn make(&mut self, shared: &Shared, act: Act) -> Told
        requires of { StandsIn shared.now self.old }
        requires lives { standing_of shared.now.shape shared.now.code self.old.local ≢ IsDone }
        requires may { IsActAt shared.now.shape (standing_of shared.now.shape shared.now.code self.old.local) act }
        ensures of { StandsIn shared.now self.new }
        ensures own { self.new.local.own ≡ self.old.local.own }
        ensures counts { self.new.counts ≡ self.old.counts }
        ensures acted { HasActed shared.now.shape shared.now.code self.old.local.own act
            (standing_of shared.now.shape shared.now.code self.old.local) (standing_of shared.now.shape shared.now.code self.new.local)
            (deeds_of_processor self.old) (deeds_of_processor self.new) result }
    {
        match act {
            Act::Step { victim } => self.step(shared, victim),
            Act::Soft => self.soften(shared),
            Act::Hard => self.harden(shared),
            Act::Quit(why) => self.quit(shared, why),
        }
    }

    /// What is counted of its acts, with this one, where its table's processors count.
    fn counts_after(&self, shared: &Shared, act: Act) -> ActCounts
        ensures { shared.now.counted ≡ true
            → result ≡ counted act (standing_of shared.now.shape shared.now.code self.now.local) self.now.counts }
    {
        if !shared.counted {
            return self.counts;
        }
        self.counts.after(&self.local, act)
    }

    /// Makes an act, which is one atomic step of the table; none where the processor is done. A step
    /// names a processor as its victim, and 0 where no victim is due. It neither waits nor takes
    /// memory.
    pub fn turn(&mut self, shared: &Shared, act: Act) -> Told
        requires of { IsOf shared.now self.old }
        requires may { IsActAt shared.now.shape (standing_of shared.now.shape shared.now.code self.old.local) act }
        ensures of { IsOf shared.now self.new }
        ensures own { self.new.local.own ≡ self.old.local.own }
        ensures acted { standing_of shared.now.shape shared.now.code self.old.local ≢ IsDone
            → HasActed shared.now.shape shared.now.code self.old.local.own act
            (standing_of shared.now.shape shared.now.code self.old.local) (standing_of shared.now.shape shared.now.code self.new.local)
            (deeds_of_processor self.old) (deeds_of_processor self.new) result }
        ensures made_none { standing_of shared.now.shape shared.now.code self.old.local ≡ IsDone
            → HasMadeNone (standing_of shared.now.shape shared.now.code self.old.local) (standing_of shared.now.shape shared.now.code self.new.local)
            (deeds_of_processor self.old) (deeds_of_processor self.new) result }
    {
        let _ = (shared.shape.slots, shared.code.parts().root);
        if is_done(&self.local) {
            return Told {
                event: None,
                work: false,
                next: Next::Done,
            };
        }
        self.counts = self.counts_after(shared, act);
        self.make(shared, act)
    }
}
