//! The steps with which a capsule gets the block that it asks for and goes on, each an atomic step
//! of the table.
ghost use Rattle.std.specs.Prelude.{◌≡◌, ◌≤◌, ◌<◌, ℕ, length};
ghost use Rattle.ppm_cells.specs.Cells.{pool_at};
ghost use Rattle.ppm_step.specs.Facts.{IsHome, IsSeat as IsPlace};
ghost use Rattle.ppm_step.specs.Frames.{Rest, asks};
ghost use Rattle.ppm_step.specs.Locals.{IsLocal, standing_of};
ghost use Rattle.ppm_step.specs.Standings.{running};
ghost use Rattle.ppm_table.specs.Run.{stands_by, deeds_in, IsAtCode, IsAtTable, IsSeat};
ghost use Rattle.ppm_stretch.specs.Asking.{HasAsked, HasFilled, IsAsking, IsRoom, asking, rest_asking};
ghost use Rattle.ppm_stretch.specs.Rows.{Makes, GivesUpIfRefused};

use crate::capsule::go_along;
use crate::entering::halt_behind;
use crate::refusing::withdraw;
use crate::waiting::wait_halted;
use crate::way::{Circuit, Halt, REFUSED, Room, RoundEnd, Steps, row};
use atomic_table::Seat;
use ppm_cells::{Cell, Shape};
use ppm_code::Code;
use ppm_ports::Watch;
use ppm_step::{Home, Local, Running, Seat as Place, Want};
use ppm_table::{View, Words, tell};

/// Whether the pool of a place has so many words, by its counter, and where.
#[inline(always)]
fn room_at(shape: &Shape, place: &Place, counter: u64, asked: u32) -> Room
    requires { place.now.place < shape.now.processors }
    ensures { (go : ℕ → Rest) → IsRoom (asks (pool_at shape.now place.now.place) shape.now.room counter asked (go counter)) go result }
{
    let pool = u64::from(shape.pool_at(place.place));
    if counter < pool {
        return Room::Broken;
    }
    let end = pool + u64::from(shape.room);
    if counter > end {
        return Room::Full;
    }
    if u64::from(asked) > end - counter {
        return Room::Full;
    }
    Room::Block(counter as u32)
}

/// Loads the room counter of a place whose capsule asks for so many words: what comes of that.
/// `None` where the watcher refused.
#[inline(always)]
fn ask_at<W: Watch>(
    words: &Words,
    shape: &Shape,
    mine: &mut Seat<(), View>,
    watch: &mut W,
    place: &Place,
    asked: u32,
) -> Option<Room>
    requires table { IsAtTable mine.old.table_id words.now.shared.table_id words.now.shared.key shape.now }
    requires sits { IsSeat place.now.own mine.old.me }
    requires seat { IsPlace shape.now place.now }
    requires stands { IsAsking words.now.shared.key shape.now place.now asked mine.old.me }
    ensures table { mine.new.table_id ≡ mine.old.table_id }
    ensures asked { (go : ℕ → Rest) → stands_by words.now.shared.key place.now.own (deeds_in mine.old.me.0)
        ≡ running shape.now place.now (asking shape.now place.now asked go)
        → HasAsked W.told words.now.shared.key shape.now place.now go mine.old.me mine.new.me watch.old watch.new result }
{
    let at = shape.address(Cell::RoomCounter { place: place.place });
    let counter = tell(words, shape, mine, watch, place.place, Want::Loads(at));
    if counter.fine {
        Some(room_at(shape, place, counter.word, asked))
    } else {
        None
    }
}

/// Loads the room counter for a capsule of a frame that asks for so many words, puts the block into
/// its home, and goes through the capsule after that, from this instruction on, at most so many
/// steps.
#[inline(always)]
pub(crate) fn fill_along<W: Watch>(
    words: &Words,
    shape: &Shape,
    code: &Code,
    mine: &mut Seat<(), View>,
    watch: &mut W,
    place: &Place,
    home: &mut Home,
    number: u32,
    next: usize,
    asked: u32,
    registers: &mut [u64; 64],
    most: u64,
) -> Circuit
    requires table { IsAtTable mine.old.table_id words.now.shared.table_id words.now.shared.key shape.now }
    requires most { 0 < most }
    requires sits { IsSeat place.now.own mine.old.me }
    requires seat { IsPlace shape.now place.now }
    requires home { IsHome home.old }
    requires capsule { number < length code.now.capsules }
    requires stands { stands_by words.now.shared.key place.now.own (deeds_in mine.old.me.0)
        ≡ running shape.now place.now (rest_asking shape.now code.now place.now home.old number next asked registers.old) }
    ensures table { mine.new.table_id ≡ mine.old.table_id }
    ensures home { IsHome home.new }
    ensures few { result.made ≤ most }
    ensures filled { HasFilled W.told words.now.shared.key shape.now code.now place.now home.new registers.new
        mine.old.me mine.new.me watch.old watch.new most result.made result.end }
{
    let Some(found) = code.capsule(number) else {
        unreachable!()
    };
    let _ = found.procedure;
    let Some(room) = ask_at(words, shape, mine, watch, place, asked) else {
        return filled(0, RoundEnd::Refused(true));
    };
    let block = match room {
        Room::Block(block) => block,
        Room::Full => return filled(1, RoundEnd::Halts(Halt::Full(u64::from(number)))),
        Room::Broken => return filled(1, RoundEnd::Halts(Halt::Broken)),
    };
    home.block = block;
    let stretch = go_along(
        words,
        shape,
        code,
        mine,
        watch,
        place,
        home,
        found.instrs.as_slice(),
        registers,
        next,
        most - 1,
    );
    filled(
        1 + stretch.made,
        halt_behind(u64::from(number), stretch.way),
    )
}

/// A number of steps, all of them work, and how they ended.
#[inline(always)]
fn filled(made: u64, end: RoundEnd) -> Circuit
    ensures { result ≡ record { made = made; work = made; end = end } }
{
    Circuit {
        made,
        work: made,
        end,
    }
}

/// Gets the block that a capsule of a frame asks for, and goes through the capsule after that, at
/// most so many steps.
#[inline(never)]
pub(crate) fn fills<W: Watch>(
    local: &mut Local,
    words: &Words,
    mine: &mut Seat<(), View>,
    watch: &mut W,
    shape: &Shape,
    code: &Code,
    under_way: Running,
    asked: u32,
    most: u64,
) -> Steps
    requires table { IsAtCode mine.old.table_id words.now.shared.table_id words.now.shared.key shape.now code.now }
    requires most { 0 < most }
    requires own { under_way.seat.own ≡ local.old.own }
    requires sits { IsSeat local.old.own mine.old.me }
    requires seat { IsPlace shape.now under_way.seat }
    requires home { IsHome under_way.home }
    requires capsule { under_way.capsule < length code.now.capsules }
    requires stands { stands_by words.now.shared.key local.old.own (deeds_in mine.old.me.0)
        ≡ running shape.now under_way.seat
        (rest_asking shape.now code.now under_way.seat under_way.home under_way.capsule under_way.next asked local.old.registers) }
    ensures table { mine.new.table_id ≡ mine.old.table_id }
    ensures few { (result.made ≤ most) × (result.work ≤ result.made) × (result.looks ≤ result.made) }
    ensures makes { Makes W.told words.now.shared.key local.old.own mine.old.me mine.new.me watch.old watch.new result }
    ensures stops { GivesUpIfRefused W.told words.now.shared.key local.old.own mine.old.me mine.new.me watch.old watch.new most result }
    ensures sits_on { IsSeat local.old.own mine.new.me }
    ensures stands_on { standing_of shape.now code.now local.new ≡ stands_by words.now.shared.key local.old.own (deeds_in mine.new.me.0) }
    ensures holds { IsLocal shape.now code.now local.new }
    ensures own_stays { local.new.own ≡ local.old.own }
{
    let seat = Place {
        own: local.own,
        place: under_way.seat.place,
        restart: under_way.seat.restart,
    };
    let mut home = under_way.home;
    let circuit = fill_along(
        words,
        shape,
        code,
        mine,
        watch,
        &seat,
        &mut home,
        under_way.capsule,
        under_way.next,
        asked,
        &mut local.registers,
        most,
    );
    match circuit.end {
        RoundEnd::Halts(halt) => {
            wait_halted(local, shape, code, seat, home, halt);
            row(circuit.made, circuit.made, 0, false)
        }
        RoundEnd::Refused(lives) => {
            withdraw(local, words, mine, shape, code, lives);
            REFUSED
        }
        RoundEnd::Round => unreachable!(),
    }
}
