//! The steps of a place that looks for a job for which something is chosen, in place: the load of
//! the finish word before the row Seek, and that of a victim's holder word.
ghost use Rattle.std.specs.Prelude.{◌≡◌, ◌≢◌, ◌<◌, ℕ, true, false, Some, IfSome};
ghost use Rattle.ppm_cells.specs.Holder.{IsHolder, holder_of};
ghost use Rattle.ppm_cells.specs.Restart.{IsRestart};
ghost use Rattle.ppm_cells.specs.declared.restart.RestartKind.TheVariants.{Seek};
ghost use Rattle.ppm_step.specs.Contents.{content_of};
ghost use Rattle.ppm_step.specs.Facts.{IsSeat as IsPlace};
ghost use Rattle.ppm_step.specs.Locals.{IsLocal, standing_of};
ghost use Rattle.ppm_step.specs.Rows.{found_at, seek_holder};
ghost use Rattle.ppm_step.specs.Standings.{IsAt, IsDone, IsWithin, stands};
ghost use Rattle.ppm_step.specs.There.{restart_is_there};
ghost use Rattle.ppm_step.specs.Told.{event};
ghost use Rattle.ppm_step.specs.declared.content.Reading.TheVariants.{AsHolder};
ghost use Rattle.ppm_step.specs.declared.row.Point.TheVariants.{SeekHolder};
ghost use Rattle.ppm_step.specs.declared.row.Row.TheVariants.{Now};
ghost use Rattle.ppm_step.specs.declared.row.Then.TheVariants.{Load};
ghost use Rattle.ppm_step.specs.declared.turn.Act.TheVariants.{Step};
ghost use Rattle.ppm_table.specs.Events.{HasActed, HasMadeNone};
ghost use Rattle.ppm_table.specs.Run.{IsActAt};
ghost use Rattle.ppm_table.specs.Shown.{IsOf, deeds_of_processor};
ghost use Rattle.ppm_stretch.specs.Looking.{LooksOn};

use crate::looking::wait_within;
use ppm_cells::{Cell, Holder, Restart, RestartKind, Shape, Takeover};
use ppm_code::Code;
use ppm_step::{
    Act, Local, Next, Point, Row, Seat as Place, Stand, Then, Told, Want, address, restart_there,
};
use ppm_table::{Processor, Shared, touch};
use ppm_words::Event;

/// What is told of a load that is a look.
#[inline(always)]
fn looked(place: u32, at: u32, word: u64, next: Next) -> Told
    ensures { result ≡ record { event = Some (event 1 place at word); work = false; next = next } }
{
    Told {
        event: Some(Event {
            step: 1,
            place,
            word: at,
            value: word,
        }),
        work: false,
        next,
    }
}

/// Loads the finish word before the row Seek.
#[inline(always)]
fn load_finish(processor: &mut Processor, shared: &Shared, place: u32, restart: Restart) -> Told
    requires of { IsOf shared.now processor.old }
    requires plain { shared.now.counted ≡ false }
    requires stands { standing_of shared.now.shape shared.now.code processor.old.local ≡ IsAt place (Some restart) }
    requires seeks { (restart.kind ≡ Seek) × (restart_is_there shared.now.shape restart ≡ true) }
    requires place { place < shared.now.shape.processors }
    requires restart { IsRestart restart }
    ensures of { IsOf shared.now processor.new }
    ensures own { processor.new.local.own ≡ processor.old.local.own }
    ensures acted { (victim : ℕ) → HasActed shared.now.shape shared.now.code processor.old.local.own (Step victim)
        (standing_of shared.now.shape shared.now.code processor.old.local) (standing_of shared.now.shape shared.now.code processor.new.local)
        (deeds_of_processor processor.old) (deeds_of_processor processor.new) result }
{
    let word = touch(
        &shared.words,
        &shared.shape,
        &mut processor.seat,
        Want::Loads(0),
    );
    if word != 0 {
        processor.local.stand = Stand::Done;
        return looked(place, 0, word, Next::Done);
    }
    let seat = Place {
        own: processor.local.own,
        place,
        restart,
    };
    processor.local.stand = Stand::Within {
        seat,
        row: Row::Now(Then::Load(Point::SeekHolder)),
    };
    looked(place, 0, word, Next::Look)
}

/// The load that comes after that of the holder word of a victim which isn't the own place, if it is
/// there: whether the holder is dead, or the top of the victim's deque.
#[inline(always)]
fn look_at(shape: &Shape, place: &Place, victim: u32, holder: Holder) -> Option<Point>
    requires victim { victim < shape.now.processors }
    requires other { victim ≢ place.now.place }
    requires holder { IsHolder holder }
    ensures { IfSome result (λ next. LooksOn shape.now place.now (seek_holder shape.now place.now victim holder) next) }
{
    match shape.takeover {
        Takeover::ByPlaces => {
            if holder.processor == place.own {
                return Some(Point::SeekTop { victim });
            }
            if holder.processor >= shape.processors {
                return None;
            }
            Some(Point::SeekDead { victim, holder })
        }
        Takeover::ByEntries => Some(Point::SeekTop { victim }),
    }
}

/// Stands where the holder of a victim leads which isn't the own place.
#[inline(always)]
fn stand_after_other(
    local: &mut Local,
    shape: &Shape,
    code: &Code,
    place: &Place,
    victim: u32,
    holder: Holder,
    word: u64,
)
    requires local { IsLocal shape.now code.now local.old }
    requires stands { standing_of shape.now code.now local.old ≡ IsWithin place.now (Now (Load SeekHolder)) }
    requires victim { (victim < shape.now.processors) × (victim ≢ place.now.place) }
    requires holder { (Some holder ≡ holder_of word) × IsHolder holder }
    requires seat { IsPlace shape.now place.now × (place.now.own ≡ local.old.own) }
    ensures stands { standing_of shape.now code.now local.new
        ≡ stands shape.now code.now place.now (found_at shape.now place.now victim SeekHolder (content_of AsHolder word)) }
    ensures holds { IsLocal shape.now code.now local.new }
    ensures own_stays { local.new.own ≡ local.old.own }
{
    let _ = code.parts().root;
    let Some(point) = look_at(shape, place, victim, holder) else {
        local.observe(shape, code, victim, word);
        return;
    };
    let seat = *place;
    wait_within(local, shape, code, seat, point);
}

/// Stands where the holder word of a victim leads.
#[inline(always)]
fn stand_after_holder(
    local: &mut Local,
    shape: &Shape,
    code: &Code,
    place: &Place,
    victim: u32,
    word: u64,
)
    requires local { IsLocal shape.now code.now local.old }
    requires stands { standing_of shape.now code.now local.old ≡ IsWithin place.now (Now (Load SeekHolder)) }
    requires victim { victim < shape.now.processors }
    requires seat { IsPlace shape.now place.now × (place.now.own ≡ local.old.own) }
    ensures stands { standing_of shape.now code.now local.new
        ≡ stands shape.now code.now place.now (found_at shape.now place.now victim SeekHolder (content_of AsHolder word)) }
    ensures holds { IsLocal shape.now code.now local.new }
    ensures own_stays { local.new.own ≡ local.old.own }
{
    let _ = code.parts().root;
    let Some(holder) = Holder::unpack(word) else {
        unreachable!()
    };
    if victim == place.place {
        local.stand = Stand::At {
            place: place.place,
            restart: Some(place.restart),
        };
        return;
    }
    stand_after_other(local, shape, code, place, victim, holder, word);
}

/// Loads the holder word of a victim.
#[inline(always)]
fn load_holder(processor: &mut Processor, shared: &Shared, place: &Place, victim: u32) -> Told
    requires of { IsOf shared.now processor.old }
    requires plain { shared.now.counted ≡ false }
    requires stands { standing_of shared.now.shape shared.now.code processor.old.local ≡ IsWithin place.now (Now (Load SeekHolder)) }
    requires seeks { place.now.restart.kind ≡ Seek }
    requires victim { victim < shared.now.shape.processors }
    requires seat { IsPlace shared.now.shape place.now × (place.now.own ≡ processor.old.local.own) }
    ensures of { IsOf shared.now processor.new }
    ensures own { processor.new.local.own ≡ processor.old.local.own }
    ensures acted { HasActed shared.now.shape shared.now.code processor.old.local.own (Step victim)
        (standing_of shared.now.shape shared.now.code processor.old.local) (standing_of shared.now.shape shared.now.code processor.new.local)
        (deeds_of_processor processor.old) (deeds_of_processor processor.new) result }
{
    let at = address(&shared.shape, Cell::HolderWord { place: victim });
    let word = touch(
        &shared.words,
        &shared.shape,
        &mut processor.seat,
        Want::Loads(at),
    );
    stand_after_holder(
        &mut processor.local,
        &shared.shape,
        &shared.code,
        place,
        victim,
        word,
    );
    looked(place.place, at, word, processor.local.next())
}

/// Whether a processor stands before the row Seek of a place that is there.
#[inline(always)]
fn is_before_seek(shape: &Shape, restart: Restart) -> bool
    ensures { result ≡ true → (restart.kind ≡ Seek) × (restart_is_there shape.now restart ≡ true) }
{
    if !restart_there(shape, restart) {
        return false;
    }
    match restart.kind {
        RestartKind::Seek => true,
        _ => false,
    }
}

/// Whether a load is that of a holder word in the row Seek.
#[inline(always)]
fn is_of_holder(kind: RestartKind, point: Point) -> bool
    ensures { result ≡ true → (kind ≡ Seek) × (point ≡ SeekHolder) }
{
    if !matches!(kind, RestartKind::Seek) {
        return false;
    }
    match point {
        Point::SeekHolder => true,
        _ => false,
    }
}

/// Makes an act, which is one atomic step of the table; none where the processor is done. A step
/// names a processor as its victim, and 0 where no victim is due. It does what `Processor::turn`
/// does, and faster where a place looks for a job and acts aren't counted.
#[inline(always)]
pub fn turn(processor: &mut Processor, shared: &Shared, act: Act) -> Told
    requires of { IsOf shared.now processor.old }
    requires may { IsActAt shared.now.shape (standing_of shared.now.shape shared.now.code processor.old.local) act }
    ensures of { IsOf shared.now processor.new }
    ensures own { processor.new.local.own ≡ processor.old.local.own }
    ensures acted { standing_of shared.now.shape shared.now.code processor.old.local ≢ IsDone
        → HasActed shared.now.shape shared.now.code processor.old.local.own act
        (standing_of shared.now.shape shared.now.code processor.old.local) (standing_of shared.now.shape shared.now.code processor.new.local)
        (deeds_of_processor processor.old) (deeds_of_processor processor.new) result }
    ensures made_none { standing_of shared.now.shape shared.now.code processor.old.local ≡ IsDone
        → HasMadeNone (standing_of shared.now.shape shared.now.code processor.old.local) (standing_of shared.now.shape shared.now.code processor.new.local)
        (deeds_of_processor processor.old) (deeds_of_processor processor.new) result }
{
    let _ = (shared.shape.slots, shared.code.parts().root);
    if shared.counted {
        return processor.turn(shared, act);
    }
    if let Act::Step { victim } = act {
        if let Stand::At { place, restart } = processor.local.stand {
            if let Some(restart) = restart {
                if is_before_seek(&shared.shape, restart) {
                    return load_finish(processor, shared, place, restart);
                }
            }
        }
        if let Stand::Within { seat, row } = processor.local.stand {
            if let Row::Now(next) = row {
                if let Then::Load(point) = next {
                    if is_of_holder(seat.restart.kind, point) {
                        return load_holder(processor, shared, &seat, victim);
                    }
                }
            }
        }
    }
    processor.turn(shared, act)
}
