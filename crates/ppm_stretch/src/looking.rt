//! The loads by which a place looks for a job, after that of the holder of a victim, one after the
//! other in place.
ghost use Rattle.std.specs.Prelude.{◌≡◌, ◌≤◌, ◌<◌, true, false, IfSome};
ghost use Rattle.ppm_cells.specs.Cells.{address, word_count};
ghost use Rattle.ppm_cells.specs.declared.restart.RestartKind.TheVariants.{Seek};
ghost use Rattle.ppm_step.specs.Facts.{IsSeat as IsPlace};
ghost use Rattle.ppm_step.specs.Locals.{IsLocal, standing_of};
ghost use Rattle.ppm_step.specs.Points.{cell_at};
ghost use Rattle.ppm_step.specs.Standings.{IsWithin, stands};
ghost use Rattle.ppm_step.specs.State.{seeks_holder};
ghost use Rattle.ppm_step.specs.declared.row.Row.TheVariants.{Now};
ghost use Rattle.ppm_step.specs.declared.row.Seat.{Seat as PlaceAt};
ghost use Rattle.ppm_step.specs.declared.row.Then.TheVariants.{Load, Again};
ghost use Rattle.ppm_table.specs.Run.{stands_by, deeds_in, IsAtCode, IsSeat};
ghost use Rattle.ppm_stretch.specs.Looking.{IsLook, IsLooking, LooksOn, row_after};
ghost use Rattle.ppm_stretch.specs.Rows.{Makes, GivesUpIfRefused};

use crate::refusing::withdraw;
use crate::way::{REFUSED, Steps, row};
use atomic_table::Seat;
use ppm_cells::{Cell, Entry, RestartKind, Shape, Takeover};
use ppm_code::Code;
use ppm_ports::Watch;
use ppm_step::{Local, Point, Row, Seat as Place, Stand, Then, Want, address};
use ppm_table::{View, Words, tell};

/// Whether a load is one of the row Seek after that of the holder.
#[inline(always)]
pub(crate) fn is_look(kind: RestartKind, point: Point) -> bool
    ensures { result ≡ true → (kind ≡ Seek) × IsLook point × ((seat : PlaceAt) → seeks_holder (IsWithin seat (Now (Load point))) ≡ false) }
{
    if !matches!(kind, RestartKind::Seek) {
        return false;
    }
    match point {
        Point::SeekDead { .. } => true,
        Point::SeekTop { .. } => true,
        Point::SeekEntry { .. } => true,
        _ => false,
    }
}

/// The address of the word of such a load.
#[inline(always)]
fn look_address(shape: &Shape, place: &Place, point: Point) -> u32
    requires { IsLooking shape.now place.now point }
    ensures value { result ≡ address shape.now (cell_at place.now 0 point) }
    ensures within { result < word_count shape.now }
{
    let _ = place.own;
    match point {
        Point::SeekDead { holder, .. } => address(
            shape,
            Cell::DeadWord {
                processor: holder.processor,
            },
        ),
        Point::SeekTop { victim } => address(shape, Cell::Top { place: victim }),
        Point::SeekEntry { victim, slot } => address(
            shape,
            Cell::EntryWord {
                place: victim,
                slot,
            },
        ),
        _ => unreachable!(),
    }
}

/// The load with which the row goes on, if it is another one of these: after a holder that isn't
/// dead that of the top, and after a top that of the entry there.
#[inline(always)]
fn next_look(shape: &Shape, place: &Place, point: Point, word: u64) -> Option<Point>
    requires { IsLooking shape.now place.now point }
    ensures { IfSome result (λ next. LooksOn shape.now place.now (row_after shape.now place.now point word) next) }
{
    let _ = place.own;
    match point {
        Point::SeekDead { victim, .. } => {
            if word == 1 {
                return None;
            }
            if victim >= shape.processors {
                return None;
            }
            Some(Point::SeekTop { victim })
        }
        Point::SeekTop { victim } => {
            if word >= u64::from(shape.slots) {
                return None;
            }
            Some(Point::SeekEntry {
                victim,
                slot: word as u32,
            })
        }
        _ => None,
    }
}

/// Whether the row begins again: there is nothing at the top, or the strand of the victim itself.
/// Where it says no, the row may do so too.
#[inline(always)]
fn begins_again(shape: &Shape, place: &Place, point: Point, word: u64) -> bool
    ensures { result ≡ true → row_after shape.now place.now point word ≡ Now Again }
{
    let _ = (shape.slots, place.own);
    let Point::SeekEntry { .. } = point else {
        return false;
    };
    let Some(entry) = Entry::unpack(word) else {
        return false;
    };
    match entry {
        Entry::Empty { .. } => true,
        Entry::Local { .. } => match shape.takeover {
            Takeover::ByPlaces => true,
            Takeover::ByEntries => false,
        },
        Entry::Job { .. } => false,
        Entry::Taken { .. } => false,
    }
}

/// Stands within a row before such a load.
#[inline(always)]
pub(crate) fn wait_within(local: &mut Local, shape: &Shape, code: &Code, seat: Place, point: Point)
    requires carrier { local.old.own < shape.now.processors }
    requires own { seat.own ≡ local.old.own }
    requires seat { IsPlace shape.now seat }
    requires looks { IsLooking shape.now seat point }
    ensures stands { standing_of shape.now code.now local.new ≡ IsWithin seat (Now (Load point)) }
    ensures holds { IsLocal shape.now code.now local.new }
    ensures own_stays { local.new.own ≡ local.old.own }
{
    let _ = (shape.slots, code.parts().root);
    local.stand = Stand::Within {
        seat,
        row: Row::Now(Then::Load(point)),
    };
}

/// Goes on with the word that such a load has found.
#[inline(never)]
fn observe_look(local: &mut Local, shape: &Shape, code: &Code, seat: Place, point: Point, word: u64)
    requires carrier { local.old.own < shape.now.processors }
    requires own { seat.own ≡ local.old.own }
    requires seat { IsPlace shape.now seat }
    requires looks { IsLooking shape.now seat point }
    ensures stands { standing_of shape.now code.now local.new ≡ stands shape.now code.now seat (row_after shape.now seat point word) }
    ensures holds { IsLocal shape.now code.now local.new }
    ensures own_stays { local.new.own ≡ local.old.own }
{
    wait_within(local, shape, code, seat, point);
    local.observe(shape, code, 0, word);
}

/// Stands where the word leads that such a load has found.
#[inline(always)]
fn stand_after(
    local: &mut Local,
    shape: &Shape,
    code: &Code,
    place: &Place,
    point: Point,
    word: u64,
)
    requires carrier { local.old.own < shape.now.processors }
    requires own { place.now.own ≡ local.old.own }
    requires seat { IsPlace shape.now place.now }
    requires looks { IsLooking shape.now place.now point }
    ensures stands { standing_of shape.now code.now local.new ≡ stands shape.now code.now place.now (row_after shape.now place.now point word) }
    ensures holds { IsLocal shape.now code.now local.new }
    ensures own_stays { local.new.own ≡ local.old.own }
{
    let _ = code.parts().root;
    if begins_again(shape, place, point, word) {
        local.stand = Stand::At {
            place: place.place,
            restart: Some(place.restart),
        };
        return;
    }
    let seat = *place;
    observe_look(local, shape, code, seat, point, word);
}

/// Makes such loads one after the other, at most so many.
#[inline(always)]
pub(crate) fn looks_along<W: Watch>(
    local: &mut Local,
    words: &Words,
    mine: &mut Seat<(), View>,
    watch: &mut W,
    shape: &Shape,
    code: &Code,
    place: &Place,
    from: Point,
    most: u64,
) -> Steps
    requires table { IsAtCode mine.old.table_id words.now.shared.table_id words.now.shared.key shape.now code.now }
    requires own { place.now.own ≡ local.old.own }
    requires sits { IsSeat local.old.own mine.old.me }
    requires seat { IsPlace shape.now place.now × (place.now.restart.kind ≡ Seek) }
    requires looks { IsLooking shape.now place.now from }
    requires most { 0 < most }
    requires stands { stands_by words.now.shared.key local.old.own (deeds_in mine.old.me.0) ≡ IsWithin place.now (Now (Load from)) }
    ensures table { mine.new.table_id ≡ mine.old.table_id }
    ensures few { (result.made ≤ most) × (result.work ≤ result.made) × (result.looks ≤ result.made) }
    ensures some { result.refused ≡ false → 0 < result.made }
    ensures makes { Makes W.told words.now.shared.key local.old.own mine.old.me mine.new.me watch.old watch.new result }
    ensures stops { GivesUpIfRefused W.told words.now.shared.key local.old.own mine.old.me mine.new.me watch.old watch.new most result }
    ensures sits_on { IsSeat local.old.own mine.new.me }
    ensures stands_on { standing_of shape.now code.now local.new ≡ stands_by words.now.shared.key local.old.own (deeds_in mine.new.me.0) }
    ensures holds { IsLocal shape.now code.now local.new }
    ensures own_stays { local.new.own ≡ local.old.own }
{
    let _ = code.parts().root;
    let mut point = from;
    let mut made = 0;
    while made < most {
        let at = look_address(shape, place, point);
        let found = tell(words, shape, mine, watch, place.place, Want::Loads(at));
        if !found.fine {
            withdraw(local, words, mine, shape, code, true);
            return REFUSED;
        }
        made += 1;
        let Some(next) = next_look(shape, place, point, found.word) else {
            stand_after(local, shape, code, place, point, found.word);
            return row(made, 0, made, false);
        };
        point = next;
    }
    let seat = *place;
    wait_within(local, shape, code, seat, point);
    row(made, 0, made, false)
}
