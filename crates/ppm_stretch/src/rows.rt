//! The steps that a processor makes in a row, up to one for which something is to be chosen.
ghost use Rattle.std.specs.Prelude.{◌≡◌, ◌≢◌, ◌≤◌, ◌<◌, ◌+◌, ◌^◌, ◌||◌, ℕ, Bool, true, false, not, if◌then◌else◌};
ghost use Rattle.ppm_cells.specs.declared.shape.Shape.{Shape};
ghost use Rattle.ppm_code.specs.declared.code.CodeParts.{CodeParts};
ghost use Rattle.ppm_ports.specs.Told.{KeepsFront};
ghost use Rattle.ppm_step.specs.Locals.{IsLocal, standing_of};
ghost use Rattle.ppm_step.specs.Standings.{IsDone};
ghost use Rattle.ppm_step.specs.State.{is_done_at, next_of, seeks_holder};
ghost use Rattle.ppm_step.specs.Told.{is_work_next};
ghost use Rattle.ppm_step.specs.declared.turn.Next.TheVariants.{Seek};
ghost use Rattle.ppm_table.specs.Run.{stands_by, deed_by, deeds_in, IsAtCode, IsSeat};
ghost use Rattle.ppm_table.specs.Shown.{IsOf, opening_of};
ghost use Rattle.ppm_widths.specs.Widths.{AreWidths};
ghost use Rattle.ppm_stretch.specs.Rows.{IsChoosing, IsFree, Makes, GivesUpIfRefused};
ghost use Rattle.ppm_stretch.specs.Steady.{Moves, Refuses, is_exchange, looks_behind};

use crate::asking::fills;
use crate::frames::ends;
use crate::looking::{is_look, looks_along};
use crate::refusing::give_way;
use crate::scheduling::{MOST_OF_A_ROW, work_along};
use crate::seated::Seated;
use crate::way::{NONE, OneStep, REFUSED, Steps, looks_behind, one_of, row};
use atomic_table::Seat;
use ppm_cells::{RestartKind, Shape};
use ppm_code::{Code, Step};
use ppm_engine::has_row;
use ppm_ports::Watch;
use ppm_step::{Local, Next, Point, Row, Seat as Place, Stage, Stand, Then, Want};
use ppm_table::{Processor, Shared, View, Words, tell};

/// Whether a victim is due for the coming step.
#[inline(always)]
pub fn is_due(local: &Local) -> bool
    ensures { (s : Shape) (code : CodeParts) → result ≡ seeks_holder (standing_of s code local.now) }
{
    match local.stand {
        Stand::Within {
            row: Row::Now(Then::Load(Point::SeekHolder)),
            ..
        } => true,
        Stand::Lost
        | Stand::Placed { .. }
        | Stand::At { .. }
        | Stand::Within { .. }
        | Stand::Runs(_)
        | Stand::Broken { .. }
        | Stand::Done => false,
    }
}

/// Whether a word step is a compare-and-modify.
#[inline(always)]
fn is_exchange(want: Want) -> bool
    ensures { (found : ℕ) → result ≡ is_exchange (deed_by want found) }
{
    match want {
        Want::Exchanges(..) => true,
        Want::Loads(_) | Want::Stores(..) | Want::Nothing => false,
    }
}

/// Makes the step that comes next, whatever it is, for which no victim is due.
#[inline(never)]
fn one<W: Watch>(
    local: &mut Local,
    words: &Words,
    mine: &mut Seat<(), View>,
    watch: &mut W,
    shape: &Shape,
    code: &Code,
) -> OneStep
    requires table { IsAtCode mine.old.table_id words.now.shared.table_id words.now.shared.key shape.now code.now }
    requires local { IsLocal shape.now code.now local.old }
    requires sits { IsSeat local.old.own mine.old.me }
    requires stands { standing_of shape.now code.now local.old ≡ stands_by words.now.shared.key local.old.own (deeds_in mine.old.me.0) }
    requires lives { standing_of shape.now code.now local.old ≢ IsDone }
    requires due { seeks_holder (standing_of shape.now code.now local.old) ≡ false }
    requires seeks { next_of (standing_of shape.now code.now local.old) ≢ Seek }
    ensures table { mine.new.table_id ≡ mine.old.table_id }
    ensures moves { result.fine ≡ true → (b : Bool) → is_work_next shape.now code.now (next_of (standing_of shape.now code.now local.old)) ≡ b
        → Moves W.told words.now.shared.key local.old.own mine.old.me mine.new.me watch.old watch.new 1 (if b then 1 else 0) (if b then 0 else 1) result.exchanged }
    ensures refuses { result.fine ≡ false → Refuses W.told words.now.shared.key local.old.own mine.old.me mine.new.me watch.old watch.new
        (not (is_done_at (standing_of shape.now code.now local.new))) 1 }
    ensures sits_on { IsSeat local.old.own mine.new.me }
    ensures stands_on { standing_of shape.now code.now local.new ≡ stands_by words.now.shared.key local.old.own (deeds_in mine.new.me.0) }
    ensures holds { IsLocal shape.now code.now local.new }
    ensures own_stays { local.new.own ≡ local.old.own }
{
    let place = local.place();
    let want = local.want(shape, code, 0);
    let exchanged = is_exchange(want);
    let found = tell(words, shape, mine, watch, place, want);
    local.observe(shape, code, 0, found.word);
    OneStep {
        fine: found.fine,
        exchanged,
    }
}

/// Goes on by the capsules of frames and rows of work before which the processor stands, by the
/// block that a capsule asks for, or by the stores of an end; where it stands elsewhere, by no step.
#[inline(always)]
fn frame_steps<W: Watch>(
    local: &mut Local,
    words: &Words,
    mine: &mut Seat<(), View>,
    watch: &mut W,
    shape: &Shape,
    code: &Code,
    widths: &[u8],
    most: u64,
) -> Steps
    requires table { IsAtCode mine.old.table_id words.now.shared.table_id words.now.shared.key shape.now code.now }
    requires widths { AreWidths code.now widths.now }
    requires most { 0 < most }
    requires local { IsLocal shape.now code.now local.old }
    requires sits { IsSeat local.old.own mine.old.me }
    requires stands { standing_of shape.now code.now local.old ≡ stands_by words.now.shared.key local.old.own (deeds_in mine.old.me.0) }
    ensures table { mine.new.table_id ≡ mine.old.table_id }
    ensures few { (result.made ≤ most) × (result.work ≤ result.made) × (result.looks ≤ result.made) }
    ensures makes { Makes W.told words.now.shared.key local.old.own mine.old.me mine.new.me watch.old watch.new result }
    ensures stops { GivesUpIfRefused W.told words.now.shared.key local.old.own mine.old.me mine.new.me watch.old watch.new most result }
    ensures sits_on { IsSeat local.old.own mine.new.me }
    ensures stands_on { standing_of shape.now code.now local.new ≡ stands_by words.now.shared.key local.old.own (deeds_in mine.new.me.0) }
    ensures holds { IsLocal shape.now code.now local.new }
    ensures own_stays { local.new.own ≡ local.old.own }
{
    let _ = code.parts().root;
    if let Stand::At { place, restart } = local.stand {
        if let Some(restart) = restart {
            if goes_along(restart.kind) && most >= MOST_OF_A_ROW {
                let memory = Seated {
                    words,
                    shape: *shape,
                };
                let seat = Place {
                    own: local.own,
                    place,
                    restart,
                };
                return work_along(local, &memory, mine, watch, code, widths, &seat, most);
            }
        }
    }
    if let Stand::Runs(under_way) = local.stand {
        if let Stage::Ending(end, n) = under_way.stage {
            return ends(
                local, words, mine, watch, shape, code, under_way, end, n, most,
            );
        }
        if let Stage::Before(step) = under_way.stage {
            if let Step::Asks(asked) = step {
                return fills(
                    local, words, mine, watch, shape, code, under_way, asked, most,
                );
            }
        }
    }
    NONE
}

/// Whether there was any step, one that was refused among them.
#[inline(always)]
fn is_any(steps: Steps) -> bool
    ensures some { result ≡ true → steps.refused ≡ false → 0 < steps.made }
    ensures none { result ≡ false → (steps.refused ≡ false) × (steps.made ≡ 0) }
{
    if steps.refused {
        return true;
    }
    steps.made > 0
}

/// Whether a processor stands within the row of a restart kind, where `frame_steps` makes no step.
/// For speed alone: either answer is right.
#[inline(always)]
fn stands_within(local: &Local) -> bool {
    matches!(local.stand, Stand::Within { .. })
}

/// Goes on by the loads with which a place looks for a job, where the processor stands before one
/// of them; where it stands elsewhere, by one step for which nothing is to be chosen, or by none.
#[inline(always)]
fn steps_within<W: Watch>(
    local: &mut Local,
    words: &Words,
    mine: &mut Seat<(), View>,
    watch: &mut W,
    shape: &Shape,
    code: &Code,
    most: u64,
) -> Steps
    requires table { IsAtCode mine.old.table_id words.now.shared.table_id words.now.shared.key shape.now code.now }
    requires most { 0 < most }
    requires local { IsLocal shape.now code.now local.old }
    requires sits { IsSeat local.old.own mine.old.me }
    requires stands { standing_of shape.now code.now local.old ≡ stands_by words.now.shared.key local.old.own (deeds_in mine.old.me.0) }
    ensures table { mine.new.table_id ≡ mine.old.table_id }
    ensures few { (result.made ≤ most) × (result.work ≤ result.made) × (result.looks ≤ result.made) }
    ensures makes { Makes W.told words.now.shared.key local.old.own mine.old.me mine.new.me watch.old watch.new result }
    ensures stops { GivesUpIfRefused W.told words.now.shared.key local.old.own mine.old.me mine.new.me watch.old watch.new most result }
    ensures on { result.refused ≡ false → result.made ≡ 0 → IsChoosing (standing_of shape.now code.now local.new) }
    ensures sits_on { IsSeat local.old.own mine.new.me }
    ensures stands_on { standing_of shape.now code.now local.new ≡ stands_by words.now.shared.key local.old.own (deeds_in mine.new.me.0) }
    ensures holds { IsLocal shape.now code.now local.new }
    ensures own_stays { local.new.own ≡ local.old.own }
{
    let _ = code.parts().root;
    if let Stand::Within { seat, row } = local.stand {
        if let Row::Now(next) = row {
            if let Then::Load(point) = next {
                if is_look(seat.restart.kind, point) {
                    return looks_along(local, words, mine, watch, shape, code, &seat, point, most);
                }
            }
        }
    }
    other_step(local, words, mine, watch, shape, code)
}

/// Goes on by capsules of frames and rows of work, by the block that a capsule asks for, by the
/// stores of an end, by the loads with which a place looks for a job, or by one other step for which
/// nothing is to be chosen; where something is to be chosen, by none.
#[inline(always)]
fn some_steps<W: Watch>(
    local: &mut Local,
    words: &Words,
    mine: &mut Seat<(), View>,
    watch: &mut W,
    shape: &Shape,
    code: &Code,
    widths: &[u8],
    most: u64,
) -> Steps
    requires table { IsAtCode mine.old.table_id words.now.shared.table_id words.now.shared.key shape.now code.now }
    requires widths { AreWidths code.now widths.now }
    requires most { 0 < most }
    requires local { IsLocal shape.now code.now local.old }
    requires sits { IsSeat local.old.own mine.old.me }
    requires stands { standing_of shape.now code.now local.old ≡ stands_by words.now.shared.key local.old.own (deeds_in mine.old.me.0) }
    ensures table { mine.new.table_id ≡ mine.old.table_id }
    ensures few { (result.made ≤ most) × (result.work ≤ result.made) × (result.looks ≤ result.made) }
    ensures makes { Makes W.told words.now.shared.key local.old.own mine.old.me mine.new.me watch.old watch.new result }
    ensures stops { GivesUpIfRefused W.told words.now.shared.key local.old.own mine.old.me mine.new.me watch.old watch.new most result }
    ensures on { result.refused ≡ false → result.made ≡ 0 → IsChoosing (standing_of shape.now code.now local.new) }
    ensures sits_on { IsSeat local.old.own mine.new.me }
    ensures stands_on { standing_of shape.now code.now local.new ≡ stands_by words.now.shared.key local.old.own (deeds_in mine.new.me.0) }
    ensures holds { IsLocal shape.now code.now local.new }
    ensures own_stays { local.new.own ≡ local.old.own }
{
    if stands_within(local) {
        return steps_within(local, words, mine, watch, shape, code, most);
    }
    let framed = frame_steps(local, words, mine, watch, shape, code, widths, most);
    if is_any(framed) {
        return framed;
    }
    other_step(local, words, mine, watch, shape, code)
}

/// Whether a restart is that of a frame, or of another row of work. For speed alone: either answer
/// is right.
#[inline(always)]
fn goes_along(kind: RestartKind) -> bool {
    matches!(kind, RestartKind::Run { .. }) || has_row(kind)
}

/// One step for which nothing is to be chosen, or none.
#[inline(always)]
fn other_step<W: Watch>(
    local: &mut Local,
    words: &Words,
    mine: &mut Seat<(), View>,
    watch: &mut W,
    shape: &Shape,
    code: &Code,
) -> Steps
    requires table { IsAtCode mine.old.table_id words.now.shared.table_id words.now.shared.key shape.now code.now }
    requires local { IsLocal shape.now code.now local.old }
    requires sits { IsSeat local.old.own mine.old.me }
    requires stands { standing_of shape.now code.now local.old ≡ stands_by words.now.shared.key local.old.own (deeds_in mine.old.me.0) }
    ensures table { mine.new.table_id ≡ mine.old.table_id }
    ensures few { (result.made ≤ 1) × (result.work ≤ result.made) × (result.looks ≤ result.made) }
    ensures makes { Makes W.told words.now.shared.key local.old.own mine.old.me mine.new.me watch.old watch.new result }
    ensures stops { GivesUpIfRefused W.told words.now.shared.key local.old.own mine.old.me mine.new.me watch.old watch.new 1 result }
    ensures on { result.refused ≡ false → result.made ≡ 0 → IsChoosing (standing_of shape.now code.now local.new) }
    ensures sits_on { IsSeat local.old.own mine.new.me }
    ensures stands_on { standing_of shape.now code.now local.new ≡ stands_by words.now.shared.key local.old.own (deeds_in mine.new.me.0) }
    ensures holds { IsLocal shape.now code.now local.new }
    ensures own_stays { local.new.own ≡ local.old.own }
{
    let _ = code.parts().root;
    if is_choosing(local) {
        return NONE;
    }
    let works = is_work(local);
    let step = one(local, words, mine, watch, shape, code);
    if step.fine {
        row_of_one(works, step.exchanged)
    } else {
        give_way(local, words, mine, shape, code);
        REFUSED
    }
}

/// One step, by whether it is work and whether it was a compare-and-modify.
#[inline(always)]
fn row_of_one(works: bool, exchanged: bool) -> Steps
    ensures { result
        ≡ record { made = 1; work = if works then 1 else 0; looks = if works then 0 else 1; exchanged = exchanged; refused = false } }
{
    if works {
        row(1, 1, 0, exchanged)
    } else {
        row(1, 0, 1, exchanged)
    }
}

/// Whether something is to be chosen for the coming step, or the processor takes none any more.
#[inline(always)]
fn is_choosing(local: &Local) -> bool
    ensures choosing { result ≡ true → (s : Shape) (code : CodeParts) → IsChoosing (standing_of s code local.now) }
    ensures free { result ≡ false → (s : Shape) (code : CodeParts) → IsFree (standing_of s code local.now) }
{
    if is_due(local) {
        return true;
    }
    match local.next() {
        Next::Work => false,
        Next::Look => false,
        Next::Seek => true,
        Next::Done => true,
    }
}

/// Whether the coming step is work.
#[inline(always)]
fn is_work(local: &Local) -> bool
    ensures { (s : Shape) (code : CodeParts) → result ≡ is_work_next s code (next_of (standing_of s code local.now)) }
{
    match local.next() {
        Next::Work => true,
        Next::Look => false,
        Next::Seek => false,
        Next::Done => false,
    }
}

/// Makes steps in a row, at most so many, up to one for which something is to be chosen.
pub(crate) fn steps_along<W: Watch>(
    local: &mut Local,
    words: &Words,
    mine: &mut Seat<(), View>,
    watch: &mut W,
    shape: &Shape,
    code: &Code,
    widths: &[u8],
    most: u64,
) -> Steps
    requires table { IsAtCode mine.old.table_id words.now.shared.table_id words.now.shared.key shape.now code.now }
    requires widths { AreWidths code.now widths.now }
    requires local { IsLocal shape.now code.now local.old }
    requires sits { IsSeat local.old.own mine.old.me }
    requires stands { standing_of shape.now code.now local.old ≡ stands_by words.now.shared.key local.old.own (deeds_in mine.old.me.0) }
    ensures table { mine.new.table_id ≡ mine.old.table_id }
    ensures few { (result.made ≤ most) × (result.work ≤ result.made) × (result.looks ≤ result.made) }
    ensures makes { Makes W.told words.now.shared.key local.old.own mine.old.me mine.new.me watch.old watch.new result }
    ensures stops { GivesUpIfRefused W.told words.now.shared.key local.old.own mine.old.me mine.new.me watch.old watch.new most result }
    ensures on { result.refused ≡ false → result.made < most → IsChoosing (standing_of shape.now code.now local.new) }
    ensures sits_on { IsSeat local.old.own mine.new.me }
    ensures stands_on { standing_of shape.now code.now local.new ≡ stands_by words.now.shared.key local.old.own (deeds_in mine.new.me.0) }
    ensures holds { IsLocal shape.now code.now local.new }
    ensures own_stays { local.new.own ≡ local.old.own }
{
    let mut made = 0;
    let mut work = 0;
    let mut looks = 0;
    let mut exchanged = false;
    while made < most {
        let more = some_steps(local, words, mine, watch, shape, code, widths, most - made);
        if more.refused {
            return REFUSED;
        }
        if more.made == 0 {
            return row(made, work, looks, exchanged);
        }
        looks = looks_behind(looks, more.work, more.looks);
        exchanged = one_of(exchanged, more.exchanged);
        made += more.made;
        work += more.work;
    }
    row(made, work, looks, exchanged)
}

/// Makes steps of a processor in a row, at most so many, up to one for which something is to be
/// chosen, and tells the watcher of each. Where it refuses one, the processor gives up, if it is
/// still to take a step. The table's processors don't count their acts.
pub fn steps<W: Watch>(
    processor: &mut Processor,
    shared: &Shared,
    most: u64,
    watch: &mut W,
) -> Steps
    requires of { IsOf shared.now processor.old }
    requires plain { shared.now.counted ≡ false }
    ensures of { IsOf shared.now processor.new }
    ensures own { processor.new.local.own ≡ processor.old.local.own }
    ensures keeps { KeepsFront (W.told watch.old) (W.told watch.new) }
    ensures few { (result.made ≤ most) × (result.work ≤ result.made) × (result.looks ≤ result.made) }
    ensures makes { Makes W.told (opening_of shared.now) processor.old.local.own processor.old.seat.me processor.new.seat.me
        watch.old watch.new result }
    ensures stops { GivesUpIfRefused W.told (opening_of shared.now) processor.old.local.own processor.old.seat.me processor.new.seat.me
        watch.old watch.new most result }
    ensures on { result.refused ≡ false → result.made < most → IsChoosing (standing_of shared.now.shape shared.now.code processor.new.local) }
{
    steps_along(
        &mut processor.local,
        &shared.words,
        &mut processor.seat,
        watch,
        &shared.shape,
        &shared.code,
        shared.widths.as_slice(),
        most,
    )
}
