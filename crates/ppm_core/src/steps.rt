//! The steps that one processor makes in a row: what `act_on` makes of them one by one. A capsule
//! gone through from its beginning is held as registers and numbers (`frames.rt`), one that is
//! already under way as a `Running`; rows of work and the stores of ends are straight code
//! (`rows.rt`, `ends.rt`).
ghost use Rattle.std.specs.Prelude.{◌≡◌, ◌<◌, ◌≤◌, ◌-◌, true};
ghost use Rattle.ppm_cells.specs.Memory.{AreWordsOf, read};
ghost use Rattle.ppm_cells.specs.declared.cell.Cell.TheVariants.{FinishWord};
ghost use Rattle.ppm_core.specs.Moments.{moment, is_under_way, Leads, MovesOn, StepsTo, NoFurther};
ghost use Rattle.ppm_step.specs.Facts.{IsSeat};
ghost use Rattle.ppm_step.specs.Locals.{IsLocal, standing_of};
ghost use Rattle.ppm_step.specs.Stages.{IsUnderWay, WentOn, rest_at, went_on};
ghost use Rattle.ppm_step.specs.Standings.{IsRunning};
ghost use Rattle.ppm_step.specs.declared.going.Going.TheVariants.{Went};
ghost use Rattle.ppm_widths.specs.Widths.{AreWidths};

use crate::acts::{finish_word, make};
use crate::rows::{Count, NOTHING, work_along};
use ppm_cells::Shape;
use ppm_code::Code;
use ppm_step::{Going, Local, Running, Stand};

/// Steps in a row, and how many of them were work.
#[derive(Clone, Copy, Debug, PartialEq, Eq)]
pub(crate) struct Steps {
    pub(crate) made: u64,
    pub(crate) work: u64,
}

/// Makes the word step that comes next in a capsule, at any stage, and goes on with what it found.
#[inline(always)]
fn make_step(
    running: &mut Running,
    registers: &mut [u64; 64],
    words: &mut Vec<u64>,
    shape: &Shape,
    code: &Code,
) -> Going
    requires running { IsUnderWay shape.now code.now running.old registers.old }
    requires words { AreWordsOf shape.now words.old.items }
    ensures { MovesOn shape.now code.now running.old running.new registers.old registers.new words.old.items words.new.items result }
{
    let want = running.want(shape, code, registers);
    let found = make(words, shape, want);
    running.observe(shape, code, registers, found)
}

/// How far a capsule under way came: so many steps were made, each of them work, and this came of
/// the last one; where none was made, it goes on.
#[derive(Clone, Copy, Debug, PartialEq, Eq)]
struct Resumed {
    made: u64,
    going: Going,
}

/// Goes through the rest of a capsule under way, at most so many steps, while the finish word is 0.
#[inline(always)]
fn go_through(
    running: &mut Running,
    registers: &mut [u64; 64],
    words: &mut Vec<u64>,
    shape: &Shape,
    code: &Code,
    most: u64,
) -> Resumed
    requires running { IsUnderWay shape.now code.now running.old registers.old }
    requires words { AreWordsOf shape.now words.old.items }
    ensures few { result.made ≤ most }
    ensures some { 0 < most → read shape.now words.old.items FinishWord ≡ 0 → 0 < result.made }
    ensures leads { StepsTo shape.now code.now running.old.seat.own result.made result.made
        (moment words.old.items (IsRunning running.old.seat (rest_at shape.now code.now running.old running.old.stage registers.old)))
        (moment words.new.items (went_on running.old.seat (rest_at shape.now code.now running.new running.new.stage registers.new) result.going)) }
    ensures holds { WentOn shape.now code.now running.new registers.new result.going }
    ensures seat { running.new.seat ≡ running.old.seat }
    ensures count { AreWordsOf shape.now words.new.items }
{
    let mut made = 0;
    while made < most {
        if finish_word(words, shape) != 0 {
            return under_way(made);
        }
        let going = make_step(running, registers, words, shape, code);
        made += 1;
        if !is_under_way(going) {
            return Resumed { made, going };
        }
    }
    under_way(made)
}

/// Whether the capsule goes on after a step.
#[inline(always)]
fn is_under_way(going: Going) -> bool
    ensures { result ≡ is_under_way going }
{
    match going {
        Going::Went(there) => there,
        Going::Installed(_) => false,
    }
}

/// The capsule goes on after so many steps.
#[inline(always)]
fn under_way(made: u64) -> Resumed
    ensures { result ≡ record { made = made; going = Went true } }
{
    Resumed {
        made,
        going: Going::Went(true),
    }
}

/// Stands where a capsule came to.
#[inline(always)]
fn stand_behind(local: &mut Local, shape: &Shape, code: &Code, running: Running, going: Going)
    requires holds { WentOn shape.now code.now running local.old.registers going }
    requires seat { IsSeat shape.now running.seat }
    requires own { running.seat.own ≡ local.old.own }
    ensures stands { standing_of shape.now code.now local.new
        ≡ went_on running.seat (rest_at shape.now code.now running running.stage local.old.registers) going }
    ensures holds { IsLocal shape.now code.now local.new }
    ensures own_stays { local.new.own ≡ local.old.own }
{
    let _ = (shape.slots, code.parts().root);
    let place = running.seat.place;
    match going {
        Going::Went(true) => local.stand = Stand::Runs(running),
        Going::Went(false) => local.stand = Stand::Broken { place },
        Going::Installed(restart) => {
            local.stand = Stand::At {
                place,
                restart: Some(restart),
            };
        }
    }
}

/// No steps.
pub(crate) const NONE: Steps = Steps { made: 0, work: 0 };

/// Goes on in the capsule under way, at most so many steps, while the finish word is 0.
#[inline(never)]
fn resume(
    local: &mut Local,
    words: &mut Vec<u64>,
    shape: &Shape,
    code: &Code,
    running: Running,
    most: u64,
) -> Steps
    requires running { IsUnderWay shape.now code.now running local.old.registers }
    requires own { running.seat.own ≡ local.old.own }
    requires words { AreWordsOf shape.now words.old.items }
    requires most { 0 < most }
    requires finish { read shape.now words.old.items FinishWord ≡ 0 }
    ensures few { (result.made ≤ most) × (result.work ≤ result.made) }
    ensures some { 0 < result.made }
    ensures leads { StepsTo shape.now code.now local.old.own result.made result.work
        (moment words.old.items (IsRunning running.seat (rest_at shape.now code.now running running.stage local.old.registers)))
        (moment words.new.items (standing_of shape.now code.now local.new)) }
    ensures holds { IsLocal shape.now code.now local.new }
    ensures own_stays { local.new.own ≡ local.old.own }
    ensures count { AreWordsOf shape.now words.new.items }
{
    let mut ran = running;
    let resumed = go_through(&mut ran, &mut local.registers, words, shape, code, most);
    stand_behind(local, shape, code, ran, resumed.going);
    Steps {
        made: resumed.made,
        work: resumed.made,
    }
}

/// Steps among which there is neither a fork nor a take.
#[inline(always)]
fn plain(steps: Steps) -> Count
    ensures { result
        ≡ record { made = steps.made; work = steps.work; forks = 0; takes = 0 } }
{
    Count {
        made: steps.made,
        work: steps.work,
        forks: 0,
        takes: 0,
    }
}

/// Makes steps of a processor in a row, in its capsules of frames and by its rows of work, at most
/// so many, while the finish word is 0.
pub(crate) fn step_along(
    local: &mut Local,
    words: &mut Vec<u64>,
    shape: &Shape,
    code: &Code,
    widths: &[u8],
    most: u64,
) -> Count
    requires local { IsLocal shape.now code.now local.old }
    requires words { AreWordsOf shape.now words.old.items }
    requires widths { AreWidths code.now widths.now }
    ensures few { (result.made ≤ most) × (result.work ≤ result.made) × (result.forks ≤ result.made) × (result.takes ≤ result.made) }
    ensures leads { Leads shape.now code.now local.old.own result.made result.work result.forks result.takes
        (moment words.old.items (standing_of shape.now code.now local.old))
        (moment words.new.items (standing_of shape.now code.now local.new)) }
    ensures no_further { NoFurther shape.now code.now local.old.own (most - result.made)
        (moment words.new.items (standing_of shape.now code.now local.new)) }
    ensures holds { IsLocal shape.now code.now local.new }
    ensures own { local.new.own ≡ local.old.own }
    ensures count { AreWordsOf shape.now words.new.items }
{
    let mut steps = NOTHING;
    while steps.made < most {
        if finish_word(words, shape) != 0 {
            return steps;
        }
        let more = steps_from(local, words, shape, code, widths, most - steps.made);
        if more.made == 0 {
            return steps;
        }
        steps = Count {
            made: steps.made + more.made,
            work: steps.work + more.work,
            forks: steps.forks + more.forks,
            takes: steps.takes + more.takes,
        };
    }
    steps
}

/// Goes on by the capsule in which the processor stands, or by the capsules or the rows of work
/// before which it stands; elsewhere by none.
fn steps_from(
    local: &mut Local,
    words: &mut Vec<u64>,
    shape: &Shape,
    code: &Code,
    widths: &[u8],
    most: u64,
) -> Count
    requires local { IsLocal shape.now code.now local.old }
    requires words { AreWordsOf shape.now words.old.items }
    requires widths { AreWidths code.now widths.now }
    requires most { 0 < most }
    requires finish { read shape.now words.old.items FinishWord ≡ 0 }
    ensures few { (result.made ≤ most) × (result.work ≤ result.made) × (result.forks ≤ result.made) × (result.takes ≤ result.made) }
    ensures leads { Leads shape.now code.now local.old.own result.made result.work result.forks result.takes
        (moment words.old.items (standing_of shape.now code.now local.old))
        (moment words.new.items (standing_of shape.now code.now local.new)) }
    ensures no_further { result.made ≡ 0
        → NoFurther shape.now code.now local.old.own most (moment words.new.items (standing_of shape.now code.now local.new)) }
    ensures holds { IsLocal shape.now code.now local.new }
    ensures own { local.new.own ≡ local.old.own }
    ensures count { AreWordsOf shape.now words.new.items }
{
    match local.stand {
        Stand::At { place, restart } => match restart {
            Some(restart) => { work_along(local, words, shape, code, widths, place, restart, most) }
            None => NOTHING,
        },
        Stand::Runs(running) => plain(resume(local, words, shape, code, running, most)),
        Stand::Lost
        | Stand::Placed { .. }
        | Stand::Within { .. }
        | Stand::Broken { .. }
        | Stand::Done => NOTHING,
    }
}
