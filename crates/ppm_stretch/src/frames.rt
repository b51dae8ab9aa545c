//! The steps that a processor makes in a row in capsules of a frame, one after the other.
ghost use Rattle.std.specs.Prelude.{◌≡◌, ◌≤◌, ◌<◌, ◌+◌, ◌^◌, Some, length};
ghost use Rattle.ppm_cells.specs.Restart.{IsRestart};
ghost use Rattle.ppm_step.specs.Locals.{IsLocal, standing_of};
ghost use Rattle.ppm_step.specs.Facts.{IsEnd, IsHome, IsSeat as IsPlace};
ghost use Rattle.ppm_step.specs.Frames.{ending};
ghost use Rattle.ppm_step.specs.Standings.{IsAt, running};
ghost use Rattle.ppm_table.specs.Run.{stands_by, deeds_in, IsAtCode, IsSeat};
ghost use Rattle.ppm_widths.specs.Widths.{AreWidths};
ghost use Rattle.ppm_stretch.specs.Entering.{looks_at};
ghost use Rattle.ppm_stretch.specs.Framing.{HasFramed};
ghost use Rattle.ppm_stretch.specs.Rows.{Makes, GivesUpIfRefused};
ghost use Rattle.ppm_stretch.specs.Steady.{looks_behind};

use crate::behind::go_behind;
use crate::ending::end_along;
use crate::entering::round;
use crate::refusing::withdraw;
use crate::way::{EndStep, FrameEnd, Framed, Halt, REFUSED, RoundEnd, Steps, looks_behind, row};
use atomic_table::Seat;
use ppm_cells::{Restart, RestartKind, Shape};
use ppm_code::{Code, End};
use ppm_engine::{wait_at, wait_broken, wait_ending};
use ppm_ports::Watch;
use ppm_step::{Home, Local, Running, Seat as Place, header_of};
use ppm_table::{View, Words};

/// Goes through capsules of the frame that the place goes on with, each from its beginning, with the
/// block that the last one asks for and the stores of its end, at most so many steps.
#[inline(always)]
pub(crate) fn rounds<W: Watch>(
    local: &mut Local,
    words: &Words,
    mine: &mut Seat<(), View>,
    watch: &mut W,
    shape: &Shape,
    sizes: &Shape,
    code: &Code,
    widths: &[u8],
    place: u32,
    restart: Restart,
    most: u64,
) -> Framed
    requires sizes { sizes.now ≡ shape.now }
    requires table { IsAtCode mine.old.table_id words.now.shared.table_id words.now.shared.key shape.now code.now }
    requires widths { AreWidths code.now widths.now }
    requires own { local.old.own < shape.now.processors }
    requires sits { IsSeat local.old.own mine.old.me }
    requires place { place < shape.now.processors }
    requires restart { IsRestart restart }
    requires stands { stands_by words.now.shared.key local.old.own (deeds_in mine.old.me.0) ≡ IsAt place (Some restart) }
    ensures table { mine.new.table_id ≡ mine.old.table_id }
    ensures few { (result.made ≤ most) × (result.work ≤ result.made) × (result.looks ≤ result.made) }
    ensures framed { HasFramed W.told words.now.shared.key shape.now code.now local.old.own place mine.old.me mine.new.me
        watch.old watch.new local.new most result.made result.work result.looks result.end }
    ensures own_stays { local.new.own ≡ local.old.own }
{
    // `sizes` is a copy: after an atomic step the compiler reads anew what a reference leads to, and
    // would work out addresses anew.
    let own = local.own;
    let mut at = restart;
    let mut made = 0;
    let mut work = 0;
    while most - made >= 2 {
        let seat = Place {
            own,
            place,
            restart: at,
        };
        let RestartKind::Run { frame, copy } = at.kind else {
            return framed(made, work, 0, FrameEnd::Installed(at));
        };
        let Some(header) = header_of(sizes, seat) else {
            // A copy: what is handed to a function that isn't inlined lies in memory from its
            // beginning on, and `at` is to stay out of it.
            let last = at;
            wait_at(local, shape, code, place, last);
            return framed(made, work, 0, FrameEnd::Stands);
        };
        let home = Home {
            frame,
            copy,
            block: 0,
        };
        let circuit = round(
            words,
            sizes,
            code,
            widths,
            mine,
            watch,
            &seat,
            &home,
            header,
            &mut local.registers,
            most - made,
        );
        match circuit.end {
            RoundEnd::Round => {
                at = Restart {
                    kind: home.goes_round(),
                    bottom: at.bottom,
                };
                made += circuit.made;
                work += circuit.work;
            }
            RoundEnd::Halts(halt) => {
                made += circuit.made;
                work += circuit.work;
                let behind = go_behind(
                    local,
                    words,
                    mine,
                    watch,
                    shape,
                    code,
                    &seat,
                    &home,
                    halt,
                    most - made,
                );
                return framed_behind(made, work, looks_at(halt), behind);
            }
            RoundEnd::Refused(lives) => {
                return framed(0, 0, 0, FrameEnd::Refused(lives));
            }
        }
    }
    framed(made, work, 0, FrameEnd::Installed(at))
}

/// So many steps, and how they ended.
#[inline(always)]
fn framed(made: u64, work: u64, looks: u64, end: FrameEnd) -> Framed
    ensures { result ≡ record { made = made; work = work; looks = looks; end = end } }
{
    Framed {
        made,
        work,
        looks,
        end,
    }
}

/// These steps, and those after them, which are work.
#[inline(always)]
fn framed_behind(made: u64, work: u64, looks: u64, behind: Framed) -> Framed
    requires { (made + behind.made < 2 ^ 64) × (work ≤ made) × (behind.work ≤ behind.made) × (looks ≤ 1) }
    ensures { result ≡ record { made = made + behind.made; work = work + behind.work; looks = looks_behind looks behind.work 0; end = behind.end } }
{
    Framed {
        made: made + behind.made,
        work: work + behind.work,
        looks: looks_behind(looks, behind.work, 0),
        end: behind.end,
    }
}

/// The looks after its last work where a processor halts.
#[inline(always)]
fn looks_at(halt: Halt) -> u64
    ensures { result ≡ looks_at halt }
{
    match halt {
        Halt::Done => 1,
        Halt::Broken | Halt::Midway(..) | Halt::Stopped(..) | Halt::Full(_) => 0,
    }
}

/// Makes the stores of the end that a capsule of a frame has come to, from the n-th on, at most so
/// many.
#[inline(never)]
pub(crate) fn ends<W: Watch>(
    local: &mut Local,
    words: &Words,
    mine: &mut Seat<(), View>,
    watch: &mut W,
    shape: &Shape,
    code: &Code,
    under_way: Running,
    end: End,
    from: usize,
    most: u64,
) -> Steps
    requires table { IsAtCode mine.old.table_id words.now.shared.table_id words.now.shared.key shape.now code.now }
    requires own { under_way.seat.own ≡ local.old.own }
    requires sits { IsSeat local.old.own mine.old.me }
    requires seat { IsPlace shape.now under_way.seat }
    requires home { IsHome under_way.home }
    requires capsule { under_way.capsule < length code.now.capsules }
    requires end { IsEnd end }
    requires stands { stands_by words.now.shared.key local.old.own (deeds_in mine.old.me.0)
        ≡ running shape.now under_way.seat (ending code.now under_way.home end from) }
    ensures table { mine.new.table_id ≡ mine.old.table_id }
    ensures few { (result.made ≤ most) × (result.work ≤ result.made) × (result.looks ≤ result.made) }
    ensures makes { Makes W.told words.now.shared.key local.old.own mine.old.me mine.new.me watch.old watch.new result }
    ensures stops { GivesUpIfRefused W.told words.now.shared.key local.old.own mine.old.me mine.new.me watch.old watch.new most result }
    ensures sits_on { IsSeat local.old.own mine.new.me }
    ensures stands_on { standing_of shape.now code.now local.new ≡ stands_by words.now.shared.key local.old.own (deeds_in mine.new.me.0) }
    ensures holds { IsLocal shape.now code.now local.new }
    ensures own_stays { local.new.own ≡ local.old.own }
{
    let seat = Place {
        own: local.own,
        place: under_way.seat.place,
        restart: under_way.seat.restart,
    };
    let home = under_way.home;
    let ended = end_along(
        words, shape, code, mine, watch, &seat, &home, end, from, most,
    );
    let made = ended.made;
    match ended.step {
        EndStep::Stored => {
            let n = from + made as usize;
            wait_ending(local, shape, code, seat, home, under_way.capsule, end, n);
            row(made, made, 0, false)
        }
        EndStep::Installed(restart) => {
            wait_at(local, shape, code, seat.place, restart);
            row(made, made, 0, false)
        }
        EndStep::Gone => {
            wait_broken(local, shape, code, seat.place);
            row(made, made, 0, false)
        }
        EndStep::Refused => {
            withdraw(local, words, mine, shape, code, true);
            REFUSED
        }
    }
}
