//! How a processor goes on where a round of a frame has halted: by the block that the capsule asks
//! for, and by the stores of its end.
ghost use Rattle.std.specs.Prelude.{◌≡◌, ◌≤◌, ◌<◌, ℕ, IfSome, length};
ghost use Rattle.ppm_cells.specs.Cells.{pool_at};
ghost use Rattle.ppm_cells.specs.Memory.{AreWordsOf};
ghost use Rattle.ppm_core.specs.After.{HasFramed, HasRoom, ask_in, end_in};
ghost use Rattle.ppm_core.specs.Moments.{moment};
ghost use Rattle.ppm_core.specs.Rounds.{HaltsAt};
ghost use Rattle.ppm_core.specs.declared.capsule.Way.TheVariants as ways;
ghost use Rattle.ppm_code.specs.declared.act.Step.TheVariants as asking;
ghost use Rattle.ppm_code.specs.declared.work.Reached.TheVariants as stops;
ghost use Rattle.ppm_step.specs.Facts.{IsAddress, IsHome, IsSeat};
ghost use Rattle.ppm_step.specs.Frames.{Rest, asks};
ghost use Rattle.ppm_step.specs.Standings.{Standing};

use crate::acts::{finish_word, found_by};
use crate::capsule::{Way, go_along};
use crate::ends::{EndStep, end_along};
use crate::frames::{FrameEnd, Framed, NextCapsule, wait_halted};
use ppm_cells::{Cell, Shape};
use ppm_code::{Code, End, Reached, Step};
use ppm_engine::{wait_broken, wait_ending};
use ppm_step::{Home, Local, Seat, Want};

/// A capsule asks for so many words and then goes on with this instruction.
#[derive(Clone, Copy, Debug, PartialEq, Eq)]
struct Asked {
    next: usize,
    words: u32,
}

/// So many steps, all of them work, and how they ended.
#[inline(always)]
fn framed(made: u64, end: FrameEnd) -> Framed
    ensures { result ≡ record { made = made; work = made; end = end } }
{
    Framed {
        made,
        work: made,
        end,
    }
}

/// The end at which a capsule has halted, if it is at one.
#[inline(always)]
fn end_in(way: Way) -> Option<End>
    ensures { result ≡ end_in way }
{
    match way {
        Way::Stops(_, what) => match what {
            Reached::AtEnd(end) => Some(end),
            Reached::Before(_) => None,
        },
        Way::Made(_) | Way::Breaks => None,
    }
}

/// What a capsule asks for that has halted there, if it asks for words.
#[inline(always)]
fn ask_in(way: Way) -> Option<Asked>
    ensures { result ≡ ask_in way }
{
    match way {
        Way::Stops(next, what) => match what {
            Reached::Before(step) => match step {
                Step::Asks(words) => Some(Asked { next, words }),
                Step::Loads(..) | Step::Stores(..) => None,
            },
            Reached::AtEnd(_) => None,
        },
        Way::Made(_) | Way::Breaks => None,
    }
}

/// Where so many words lie in the pool of a place, by its room counter; `None` where the pool has
/// not so many.
#[inline(always)]
fn block_at(shape: &Shape, place: u32, counter: u64, asked: u32) -> Option<u32>
    requires { place < shape.now.processors }
    ensures { (go : ℕ → Rest) → IfSome result (λ block. IsAddress block × (asks (pool_at shape.now place) shape.now.room counter asked (go counter) ≡ go block)) }
{
    let pool = u64::from(shape.pool_at(place));
    if counter < pool {
        return None;
    }
    let end = pool + u64::from(shape.room);
    if counter > end {
        return None;
    }
    if u64::from(asked) > end - counter {
        return None;
    }
    Some(counter as u32)
}

/// Where the words lie for which a capsule asks, while the finish word is 0.
#[inline(always)]
fn room_at(words: &Vec<u64>, shape: &Shape, place: u32, asked: u32) -> Option<u32>
    requires words { AreWordsOf shape.now words.now.items }
    requires place { place < shape.now.processors }
    ensures { IfSome result (λ block. HasRoom shape.now place words.now.items asked block) }
{
    if finish_word(words, shape) != 0 {
        return None;
    }
    let at = shape.address(Cell::RoomCounter { place });
    let counter = found_by(words, shape, Want::Loads(at));
    block_at(shape, place, counter, asked)
}

/// Makes the stores of the end at which a capsule of a frame has halted, at most so many, while the
/// finish word is 0; where it has halted elsewhere, stands there.
#[inline(never)]
fn end_or_wait(
    local: &mut Local,
    words: &mut Vec<u64>,
    shape: &Shape,
    code: &Code,
    seat: Seat,
    coming: NextCapsule,
    way: Way,
    most: u64,
) -> Framed
    requires words { AreWordsOf shape.now words.old.items }
    requires seat { IsSeat shape.now seat × (seat.own ≡ local.old.own) }
    requires home { IsHome coming.home }
    requires left { (standing : Standing) × HaltsAt shape.now code.now seat coming local.old.registers way standing }
    ensures few { (result.made ≤ most) × (result.work ≡ result.made) }
    ensures framed { (standing : Standing) → HaltsAt shape.now code.now seat coming local.old.registers way standing
        → HasFramed shape.now code.now seat.own seat.place (moment words.old.items standing) words.new.items local.new result }
    ensures own_stays { local.new.own ≡ local.old.own }
    ensures count { AreWordsOf shape.now words.new.items }
{
    let _ = code.parts().capsules.as_slice().len();
    if let Some(end) = end_in(way) {
        let ended = end_along(words, shape, code, &seat, &coming.home, end, most);
        return match ended.step {
            EndStep::Installed(restart) => framed(ended.made, FrameEnd::Installed(restart)),
            EndStep::Gone => {
                wait_broken(local, shape, code, seat.place);
                framed(ended.made, FrameEnd::Stands)
            }
            EndStep::Before(n) => {
                let NextCapsule { home, number } = coming;
                wait_ending(local, shape, code, seat, home, number as u32, end, n);
                framed(ended.made, FrameEnd::Stands)
            }
        };
    }
    wait_halted(local, shape, code, seat, coming, way);
    framed(0, FrameEnd::Stands)
}

/// Puts the block at this address into the home of a capsule that asks for it, goes through the
/// capsule after that, and makes the stores of its end, at most so many steps.
#[inline(never)]
fn fill_and_end(
    local: &mut Local,
    words: &mut Vec<u64>,
    shape: &Shape,
    code: &Code,
    seat: Seat,
    coming: NextCapsule,
    asked: Asked,
    block: u32,
    most: u64,
) -> Framed
    requires words { AreWordsOf shape.now words.old.items }
    requires most { 0 < most }
    requires seat { IsSeat shape.now seat × (seat.own ≡ local.old.own) }
    requires home { IsHome coming.home }
    requires capsule { coming.number < length code.now.capsules }
    requires room { HasRoom shape.now seat.place words.old.items asked.words block }
    requires left { (standing : Standing) × HaltsAt shape.now code.now seat coming local.old.registers (ways.Stops asked.next (stops.Before (asking.Asks asked.words))) standing }
    ensures few { (result.made ≤ most) × (result.work ≡ result.made) }
    ensures framed { (standing : Standing)
        → HaltsAt shape.now code.now seat coming local.old.registers (ways.Stops asked.next (stops.Before (asking.Asks asked.words))) standing
        → HasFramed shape.now code.now seat.own seat.place (moment words.old.items standing) words.new.items local.new result }
    ensures own_stays { local.new.own ≡ local.old.own }
    ensures count { AreWordsOf shape.now words.new.items }
{
    let _ = code.parts().capsules.as_slice().len();
    let Some(found) = code.capsule(coming.number as u32) else {
        unreachable!()
    };
    let _ = found.procedure;
    let filled = NextCapsule {
        home: Home {
            frame: coming.home.frame,
            copy: coming.home.copy,
            block,
        },
        number: coming.number,
    };
    let stretch = go_along(
        words,
        shape,
        code,
        &seat,
        &filled.home,
        found.instrs.as_slice(),
        &mut local.registers,
        asked.next,
        most - 1,
    );
    let made = 1 + stretch.made;
    let after = end_or_wait(
        local,
        words,
        shape,
        code,
        seat,
        filled,
        stretch.way,
        most - made,
    );
    framed(made + after.made, after.end)
}

/// Goes on where a round of a frame has halted, at most so many steps.
#[inline(always)]
pub(crate) fn go_after(
    local: &mut Local,
    words: &mut Vec<u64>,
    shape: &Shape,
    code: &Code,
    seat: Seat,
    coming: NextCapsule,
    way: Way,
    most: u64,
) -> Framed
    requires words { AreWordsOf shape.now words.old.items }
    requires seat { IsSeat shape.now seat × (seat.own ≡ local.old.own) }
    requires home { IsHome coming.home }
    requires left { (standing : Standing) × HaltsAt shape.now code.now seat coming local.old.registers way standing }
    ensures few { (result.made ≤ most) × (result.work ≡ result.made) }
    ensures framed { (standing : Standing) → HaltsAt shape.now code.now seat coming local.old.registers way standing
        → HasFramed shape.now code.now seat.own seat.place (moment words.old.items standing) words.new.items local.new result }
    ensures own_stays { local.new.own ≡ local.old.own }
    ensures count { AreWordsOf shape.now words.new.items }
{
    let _ = code.parts().root;
    if most > 0 {
        if let Some(asked) = ask_in(way) {
            if let Some(block) = room_at(words, shape, seat.place, asked.words) {
                return fill_and_end(local, words, shape, code, seat, coming, asked, block, most);
            }
        }
    }
    end_or_wait(local, words, shape, code, seat, coming, way, most)
}
