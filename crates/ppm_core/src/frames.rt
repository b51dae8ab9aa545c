//! Rounds of frames: a capsule gone through from its beginning, and its frame goes on with the next
//! one. Between their steps there are registers and numbers alone.
ghost use Rattle.std.specs.Prelude.{◌≡◌, ◌<◌, ◌≤◌, ◌+◌, ◌^◌, ◌↔◌, IfSome, IsTrue, Some};
ghost use Rattle.ppm_cells.specs.Memory.{AreWordsOf, read};
ghost use Rattle.ppm_cells.specs.Restart.{IsRestart};
ghost use Rattle.ppm_cells.specs.declared.cell.Cell.TheVariants.{FinishWord};
ghost use Rattle.ppm_core.specs.After.{HasFramed, stands_framed};
ghost use Rattle.ppm_core.specs.Moments.{moment, NoFurther};
ghost use Rattle.ppm_core.specs.Rounds.{Circled, HaltsAt, HasBegun, WentAlong};
ghost use Rattle.ppm_step.specs.Facts.{IsHome, IsSeat};
ghost use Rattle.ppm_core.specs.declared.frames.FrameEnd.TheVariants.{Installed};
ghost use Rattle.ppm_step.specs.Locals.{IsLocal, standing_of};
ghost use Rattle.ppm_step.specs.Standings.{IsAt, Standing};
ghost use Rattle.ppm_widths.specs.Widths.{AreWidths};

use crate::acts::{finish_word, found_by};
use crate::after::go_after;
use crate::capsule::{Stretch, Turned, Way, go_along, go_round};
use crate::steps::{NONE, Steps};
use ppm_cells::{Restart, RestartKind, Shape};
use ppm_code::{Code, End, Reached};
use ppm_engine::{wait_broken, wait_midway, wait_stopped};
use ppm_step::{Home, Local, Seat, Want, header_of};
use ppm_widths::set_to_0;

/// A frame whose next capsule is the one with this number.
#[derive(Clone, Copy, Debug, PartialEq, Eq)]
pub(crate) struct NextCapsule {
    pub home: Home,
    pub number: u64,
}

/// The frame of a seat and the number of its next capsule, for which the finish word and the
/// frame's header are read; `None` where the finish word isn't 0, or no header is there.
#[inline(always)]
fn begin(words: &Vec<u64>, shape: &Shape, code: &Code, seat: Seat) -> Option<NextCapsule>
    requires words { AreWordsOf shape.now words.now.items }
    requires own { seat.own < shape.now.processors }
    requires place { seat.place < shape.now.processors }
    requires restart { IsRestart seat.restart }
    ensures { HasBegun shape.now code.now seat words.now.items result }
{
    let _ = code.parts().root;
    if finish_word(words, shape) != 0 {
        return None;
    }
    let Some(header) = header_of(shape, seat) else {
        return None;
    };
    let RestartKind::Run { frame, copy } = seat.restart.kind else {
        return None;
    };
    let home = Home {
        frame,
        copy,
        block: 0,
    };
    let number = found_by(words, shape, Want::Loads(header));
    Some(NextCapsule { home, number })
}

/// Goes through the capsule with a number from its beginning, at most so many steps, up to its
/// end; `None` where there is no such capsule.
#[inline(always)]
fn capsule_along(
    words: &mut Vec<u64>,
    shape: &Shape,
    code: &Code,
    widths: &[u8],
    seat: &Seat,
    coming: &NextCapsule,
    registers: &mut [u64; 64],
    most: u64,
) -> Option<Stretch>
    requires words { AreWordsOf shape.now words.old.items }
    requires widths { AreWidths code.now widths.now }
    requires home { IsHome coming.now.home }
    requires block { coming.now.home.block ≡ 0 }
    ensures few { IfSome result (λ stretch. stretch.made ≤ most) }
    ensures along { WentAlong shape.now code.now seat.now coming.now registers.new words.old.items words.new.items result }
    ensures count { AreWordsOf shape.now words.new.items }
{
    if coming.number >= code.parts().capsules.as_slice().len() as u64 {
        return None;
    }
    let found = code.capsule(coming.number as u32)?;
    let _ = found.procedure;
    set_to_0(registers, widths[coming.number as usize]);
    Some(go_along(
        words,
        shape,
        code,
        seat,
        &coming.home,
        found.instrs.as_slice(),
        registers,
        0,
        most,
    ))
}

/// How a round of a frame ended: the next capsule of the frame is to be entered, or the processor
/// halts in this one.
#[derive(Clone, Copy, Debug, PartialEq, Eq)]
enum RoundEnd {
    Round,
    Halts(Way),
}

/// A round of a frame: so many steps, each of them work, and how it ended.
#[derive(Clone, Copy, Debug, PartialEq, Eq)]
struct Circuit {
    made: u64,
    end: RoundEnd,
}

/// Goes through a capsule of a frame from its beginning, at most so many steps, and on to the next
/// one where it names one.
#[inline(always)]
fn round(
    words: &mut Vec<u64>,
    shape: &Shape,
    code: &Code,
    widths: &[u8],
    seat: &Seat,
    coming: &NextCapsule,
    registers: &mut [u64; 64],
    most: u64,
) -> Circuit
    requires words { AreWordsOf shape.now words.old.items }
    requires widths { AreWidths code.now widths.now }
    requires seat { IsSeat shape.now seat.now }
    requires home { IsHome coming.now.home }
    requires block { coming.now.home.block ≡ 0 }
    ensures few { result.made ≤ most }
    ensures circled { Circled shape.now code.now seat.now coming.now registers.new words.old.items words.new.items result.made result.end }
    ensures count { AreWordsOf shape.now words.new.items }
{
    let Some(stretch) = capsule_along(words, shape, code, widths, seat, coming, registers, most)
    else {
        return Circuit {
            made: 0,
            end: RoundEnd::Halts(Way::Breaks),
        };
    };
    let made = stretch.made;
    if let Way::Stops(_, what) = stretch.way {
        if may_go_round(words, shape, most - made) {
            if let Reached::AtEnd(end) = what {
                if let End::Next { capsule } = end {
                    return match go_round(words, shape, code, seat, &coming.home, capsule) {
                        Turned::Round => Circuit {
                            made: made + 2,
                            end: RoundEnd::Round,
                        },
                        Turned::Breaks(stored) => Circuit {
                            made: made + stored,
                            end: RoundEnd::Halts(Way::Breaks),
                        },
                    };
                }
            }
        }
    }
    Circuit {
        made,
        end: RoundEnd::Halts(stretch.way),
    }
}

/// Whether both stores with which a frame goes round may be made: so many steps are left, and the
/// finish word is 0.
#[inline(always)]
fn may_go_round(words: &Vec<u64>, shape: &Shape, left: u64) -> bool
    requires { AreWordsOf shape.now words.now.items }
    ensures { IsTrue result ↔ (2 ≤ left) × (read shape.now words.now.items FinishWord ≡ 0) }
{
    if left < 2 {
        return false;
    }
    finish_word(words, shape) == 0
}

/// How capsules of a frame ended.
#[derive(Clone, Copy, Debug, PartialEq, Eq)]
pub(crate) enum FrameEnd {
    /// The place goes on with this restart.
    Installed(Restart),
    /// The processor has been put where it stands.
    Stands,
}

/// Capsules of a frame: so many steps, of which so many were work, and how they ended.
#[derive(Clone, Copy, Debug, PartialEq, Eq)]
pub(crate) struct Framed {
    pub made: u64,
    pub work: u64,
    pub end: FrameEnd,
}

/// So many steps, of which so many were work, up to this restart.
#[inline(always)]
fn installed(made: u64, work: u64, restart: Restart) -> Framed
    ensures { result ≡ record { made = made; work = work; end = Installed restart } }
{
    Framed {
        made,
        work,
        end: FrameEnd::Installed(restart),
    }
}

/// These steps, and those after them, all of which are work.
#[inline(always)]
fn framed_after(made: u64, work: u64, after: Framed) -> Framed
    requires { (made + after.made < 2 ^ 64) × (work + after.made < 2 ^ 64) }
    ensures { result ≡ record { made = made + after.made; work = work + after.made; end = after.end } }
{
    Framed {
        made: made + after.made,
        work: work + after.made,
        end: after.end,
    }
}

/// Goes through capsules of the frame that the place goes on with, each from its beginning, with the
/// block that the last one asks for and the stores of its end, at most so many steps, while the
/// finish word is 0. The first step of each is no work.
#[inline(always)]
pub(crate) fn rounds(
    local: &mut Local,
    words: &mut Vec<u64>,
    shape: &Shape,
    code: &Code,
    widths: &[u8],
    place: u32,
    restart: Restart,
    most: u64,
) -> Framed
    requires own { local.old.own < shape.now.processors }
    requires place { place < shape.now.processors }
    requires restart { IsRestart restart }
    requires words { AreWordsOf shape.now words.old.items }
    requires widths { AreWidths code.now widths.now }
    ensures few { (result.made ≤ most) × (result.work ≤ result.made) }
    ensures framed { HasFramed shape.now code.now local.old.own place
        (moment words.old.items (IsAt place (Some restart))) words.new.items local.new result }
    ensures no_further { result.made ≡ 0
        → NoFurther shape.now code.now local.old.own most (moment words.new.items (stands_framed shape.now code.now place local.new result.end)) }
    ensures own_stays { local.new.own ≡ local.old.own }
    ensures count { AreWordsOf shape.now words.new.items }
{
    let own = local.own;
    let mut at = restart;
    let mut steps = NONE;
    while most - steps.made >= 2 {
        let seat = Seat {
            own,
            place,
            restart: at,
        };
        let Some(coming) = begin(words, shape, code, seat) else {
            return installed(steps.made, steps.work, at);
        };
        let left = most - steps.made - 2;
        let circuit = round(
            words,
            shape,
            code,
            widths,
            &seat,
            &coming,
            &mut local.registers,
            left,
        );
        steps = Steps {
            made: steps.made + circuit.made + 2,
            work: steps.work + circuit.made + 1,
        };
        match circuit.end {
            RoundEnd::Round => {
                at = Restart {
                    kind: coming.home.goes_round(),
                    bottom: at.bottom,
                };
            }
            RoundEnd::Halts(way) => {
                let after = go_after(
                    local,
                    words,
                    shape,
                    code,
                    seat,
                    coming,
                    way,
                    most - steps.made,
                );
                return framed_after(steps.made, steps.work, after);
            }
        }
    }
    installed(steps.made, steps.work, at)
}

/// Stands where a round of a frame halts.
#[inline(never)]
pub(crate) fn wait_halted(
    local: &mut Local,
    shape: &Shape,
    code: &Code,
    seat: Seat,
    coming: NextCapsule,
    way: Way,
)
    requires seat { IsSeat shape.now seat }
    requires own { seat.own ≡ local.old.own }
    requires home { IsHome coming.home }
    requires left { (standing : Standing) × HaltsAt shape.now code.now seat coming local.old.registers way standing }
    ensures stands { (standing : Standing) → HaltsAt shape.now code.now seat coming local.old.registers way standing
        → standing_of shape.now code.now local.new ≡ standing }
    ensures holds { IsLocal shape.now code.now local.new }
    ensures own_stays { local.new.own ≡ local.old.own }
{
    let _ = (shape.slots, code.parts().root);
    let NextCapsule { home, number } = coming;
    match way {
        Way::Made(at) => wait_midway(local, shape, code, seat, home, number, at),
        Way::Stops(next, what) => wait_stopped(local, shape, code, seat, home, number, next, what),
        Way::Breaks => wait_broken(local, shape, code, seat.place),
    }
}
