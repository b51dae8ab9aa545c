//! How a processor goes on where a round of a frame has halted: by the block that the capsule asks
//! for, and by the stores of its end.
ghost use Rattle.std.specs.Prelude.{◌≡◌, ◌≤◌, ◌<◌, ◌+◌, ◌^◌, length};
ghost use Rattle.ppm_step.specs.Facts.{IsHome, IsSeat as IsPlace};
ghost use Rattle.ppm_step.specs.Standings.{running};
ghost use Rattle.ppm_table.specs.Run.{stands_by, deeds_in, IsAtCode, IsSeat};
ghost use Rattle.ppm_stretch.specs.Asking.{rest_asking};
ghost use Rattle.ppm_stretch.specs.Entering.{HaltsAt};
ghost use Rattle.ppm_stretch.specs.Framing.{HasFramed, end_in, end_of, is_finish, is_over};

use crate::asking::fill_along;
use crate::ending::{MOST_OF_AN_END, end_along, finish_along};
use crate::waiting::wait_halted;
use crate::way::{EndStep, FrameEnd, Framed, Halt, RoundEnd};
use atomic_table::Seat;
use ppm_cells::Shape;
use ppm_code::{Code, End, Reached, Step};
use ppm_engine::wait_broken;
use ppm_ports::Watch;
use ppm_step::{Home, Local, Seat as Place};
use ppm_table::{View, Words};

/// So many steps, all of them work, and how they ended.
#[inline(always)]
fn framed(made: u64, end: FrameEnd) -> Framed
    ensures { result ≡ record { made = made; work = made; looks = 0; end = end } }
{
    Framed {
        made,
        work: made,
        looks: 0,
        end,
    }
}

/// Makes the stores of the end at which a capsule of a frame has halted; where it has halted
/// elsewhere, or fewer steps are left than an end may have, stands there.
#[inline(always)]
fn end_or_wait<W: Watch>(
    local: &mut Local,
    words: &Words,
    mine: &mut Seat<(), View>,
    watch: &mut W,
    shape: &Shape,
    code: &Code,
    sizes: &Shape,
    seat: &Place,
    home: &Home,
    halt: Halt,
    most: u64,
) -> Framed
    requires sizes { sizes.now ≡ shape.now }
    requires table { IsAtCode mine.old.table_id words.now.shared.table_id words.now.shared.key shape.now code.now }
    requires own { seat.now.own ≡ local.old.own }
    requires sits { IsSeat local.old.own mine.old.me }
    requires seat { IsPlace shape.now seat.now }
    requires home { IsHome home.now }
    requires halts { HaltsAt shape.now code.now seat.now home.now local.old.registers halt
        (stands_by words.now.shared.key local.old.own (deeds_in mine.old.me.0)) }
    ensures table { mine.new.table_id ≡ mine.old.table_id }
    ensures few { (result.made ≤ most) × (result.work ≡ result.made) × (result.looks ≡ 0) }
    ensures framed { HasFramed W.told words.now.shared.key shape.now code.now local.old.own seat.now.place mine.old.me mine.new.me
        watch.old watch.new local.new most result.made result.work result.looks result.end }
    ensures own_stays { local.new.own ≡ local.old.own }
{
    let _ = code.parts().root;
    if most >= MOST_OF_AN_END {
        if let Some(end) = end_in(halt) {
            let ended = end_along(
                words,
                sizes,
                code,
                mine,
                watch,
                seat,
                home,
                end,
                0,
                MOST_OF_AN_END,
            );
            return match ended.step {
                EndStep::Installed(restart) => framed(ended.made, FrameEnd::Installed(restart)),
                EndStep::Gone => {
                    wait_broken(local, shape, code, seat.place);
                    framed(ended.made, FrameEnd::Stands)
                }
                EndStep::Refused => framed(0, FrameEnd::Refused(true)),
                EndStep::Stored => unreachable!(),
            };
        }
    }
    wait_halted(local, shape, code, *seat, *home, halt);
    framed(0, FrameEnd::Stands)
}

/// The end at which a capsule has halted, if it is at one.
#[inline(always)]
fn end_in(halt: Halt) -> Option<End>
    ensures { result ≡ end_in halt }
{
    match halt {
        Halt::Stopped(_, _, what) => end_of(what),
        Halt::Done | Halt::Broken | Halt::Midway(..) | Halt::Full(_) => None,
    }
}

/// The end that register work has come to.
#[inline(always)]
fn end_of(what: Reached) -> Option<End>
    ensures { result ≡ end_of what }
{
    match what {
        Reached::AtEnd(end) => Some(end),
        Reached::Before(_) => None,
    }
}

/// These steps, and those after them, all of them work.
#[inline(always)]
fn filled_behind(made: u64, behind: Framed) -> Framed
    requires { made + behind.made < 2 ^ 64 }
    ensures { result ≡ record { made = made + behind.made; work = made + behind.made; looks = 0; end = behind.end } }
{
    framed(made + behind.made, behind.end)
}

/// Gets the block that a capsule of a frame asks for, goes through the capsule after that, and
/// makes the stores of its end, at most so many steps.
pub(crate) fn fill_and_end<W: Watch>(
    local: &mut Local,
    words: &Words,
    mine: &mut Seat<(), View>,
    watch: &mut W,
    shape: &Shape,
    code: &Code,
    seat: Place,
    home: Home,
    number: u32,
    next: usize,
    asked: u32,
    most: u64,
) -> Framed
    requires table { IsAtCode mine.old.table_id words.now.shared.table_id words.now.shared.key shape.now code.now }
    requires most { 0 < most }
    requires own { seat.own ≡ local.old.own }
    requires sits { IsSeat local.old.own mine.old.me }
    requires seat { IsPlace shape.now seat }
    requires home { IsHome home }
    requires capsule { number < length code.now.capsules }
    requires stands { stands_by words.now.shared.key local.old.own (deeds_in mine.old.me.0)
        ≡ running shape.now seat (rest_asking shape.now code.now seat home number next asked local.old.registers) }
    ensures table { mine.new.table_id ≡ mine.old.table_id }
    ensures few { (result.made ≤ most) × (result.work ≡ result.made) × (result.looks ≡ 0) }
    ensures framed { HasFramed W.told words.now.shared.key shape.now code.now local.old.own seat.place mine.old.me mine.new.me
        watch.old watch.new local.new most result.made result.work result.looks result.end }
    ensures own_stays { local.new.own ≡ local.old.own }
{
    // As in `rounds`.
    let sizes = *shape;
    let place = seat;
    let mut at = home;
    let circuit = fill_along(
        words,
        &sizes,
        code,
        mine,
        watch,
        &place,
        &mut at,
        number,
        next,
        asked,
        &mut local.registers,
        most,
    );
    match circuit.end {
        RoundEnd::Halts(halt) => {
            let behind = end_or_wait(
                local,
                words,
                mine,
                watch,
                shape,
                code,
                &sizes,
                &place,
                &at,
                halt,
                most - circuit.made,
            );
            filled_behind(circuit.made, behind)
        }
        RoundEnd::Refused(lives) => framed(0, FrameEnd::Refused(lives)),
        RoundEnd::Round => unreachable!(),
    }
}

/// A frame is over: its restart word is stored.
#[inline(never)]
fn finish_or_wait<W: Watch>(
    local: &mut Local,
    words: &Words,
    mine: &mut Seat<(), View>,
    watch: &mut W,
    shape: &Shape,
    code: &Code,
    seat: Place,
    home: Home,
    halt: Halt,
    most: u64,
) -> Framed
    requires table { IsAtCode mine.old.table_id words.now.shared.table_id words.now.shared.key shape.now code.now }
    requires own { seat.own ≡ local.old.own }
    requires sits { IsSeat local.old.own mine.old.me }
    requires seat { IsPlace shape.now seat }
    requires home { IsHome home }
    requires halts { HaltsAt shape.now code.now seat home local.old.registers halt
        (stands_by words.now.shared.key local.old.own (deeds_in mine.old.me.0)) }
    ensures table { mine.new.table_id ≡ mine.old.table_id }
    ensures few { (result.made ≤ most) × (result.work ≡ result.made) × (result.looks ≡ 0) }
    ensures framed { HasFramed W.told words.now.shared.key shape.now code.now local.old.own seat.place mine.old.me mine.new.me
        watch.old watch.new local.new most result.made result.work result.looks result.end }
    ensures own_stays { local.new.own ≡ local.old.own }
{
    if most > 0 {
        if is_finish(halt) {
            let place = seat;
            let at = home;
            return match finish_along(words, shape, code, mine, watch, &place, &at) {
                EndStep::Installed(restart) => framed(1, FrameEnd::Installed(restart)),
                EndStep::Gone => {
                    wait_broken(local, shape, code, seat.place);
                    framed(0, FrameEnd::Stands)
                }
                EndStep::Refused => framed(0, FrameEnd::Refused(true)),
                EndStep::Stored => unreachable!(),
            };
        }
    }
    wait_halted(local, shape, code, seat, home, halt);
    framed(0, FrameEnd::Stands)
}

/// Whether register work has come to where its frame is over.
#[inline(always)]
fn is_over(what: Reached) -> bool
    ensures { result ≡ is_over what }
{
    match what {
        Reached::AtEnd(end) => match end {
            End::Finish => true,
            End::Next { .. } | End::Trap { .. } | End::Call { .. } | End::Fork { .. } => false,
        },
        Reached::Before(_) => false,
    }
}

/// Whether a capsule has halted where its frame is over.
#[inline(always)]
fn is_finish(halt: Halt) -> bool
    ensures { result ≡ is_finish halt }
{
    match halt {
        Halt::Stopped(_, _, what) => is_over(what),
        Halt::Done | Halt::Broken | Halt::Midway(..) | Halt::Full(_) => false,
    }
}

/// Goes on where a round of a frame has halted, at most so many steps.
#[inline(always)]
pub(crate) fn go_behind<W: Watch>(
    local: &mut Local,
    words: &Words,
    mine: &mut Seat<(), View>,
    watch: &mut W,
    shape: &Shape,
    code: &Code,
    seat: &Place,
    home: &Home,
    halt: Halt,
    most: u64,
) -> Framed
    requires table { IsAtCode mine.old.table_id words.now.shared.table_id words.now.shared.key shape.now code.now }
    requires own { seat.now.own ≡ local.old.own }
    requires sits { IsSeat local.old.own mine.old.me }
    requires seat { IsPlace shape.now seat.now }
    requires home { IsHome home.now }
    requires halts { HaltsAt shape.now code.now seat.now home.now local.old.registers halt
        (stands_by words.now.shared.key local.old.own (deeds_in mine.old.me.0)) }
    ensures table { mine.new.table_id ≡ mine.old.table_id }
    ensures few { (result.made ≤ most) × (result.work ≡ result.made) × (result.looks ≡ 0) }
    ensures framed { HasFramed W.told words.now.shared.key shape.now code.now local.old.own seat.now.place mine.old.me mine.new.me
        watch.old watch.new local.new most result.made result.work result.looks result.end }
    ensures own_stays { local.new.own ≡ local.old.own }
{
    let _ = code.parts().capsules.as_slice().len();
    if most > 0 {
        if let Halt::Stopped(number, next, what) = halt {
            if let Reached::Before(step) = what {
                if let Step::Asks(asked) = step {
                    return fill_and_end(
                        local,
                        words,
                        mine,
                        watch,
                        shape,
                        code,
                        *seat,
                        *home,
                        number as u32,
                        next,
                        asked,
                        most,
                    );
                }
            }
        }
    }
    finish_or_wait(
        local, words, mine, watch, shape, code, *seat, *home, halt, most,
    )
}
