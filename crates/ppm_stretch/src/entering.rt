//! The steps with which a capsule of a frame begins and goes round, each an atomic step of the
//! table.
ghost use Rattle.std.specs.Prelude.{◌≡◌, ◌≤◌, ◌<◌, slice_get, IfSome, Some, true, false};
ghost use Rattle.ppm_cells.specs.Cells.{word_count};
ghost use Rattle.ppm_cells.specs.declared.restart.RestartKind.TheVariants.{Run};
ghost use Rattle.ppm_step.specs.Locals.{IsHeaderOf};
ghost use Rattle.ppm_step.specs.State.{before_kind};
ghost use Rattle.ppm_step.specs.declared.turn.Next.TheVariants.{Look};
ghost use Rattle.ppm_code.specs.declared.act.End.TheVariants.{Next};
ghost use Rattle.ppm_step.specs.Facts.{IsHome, IsSeat as IsPlace};
ghost use Rattle.ppm_step.specs.Frames.{Rest, ending};
ghost use Rattle.ppm_step.specs.declared.ask.Want.TheVariants as wants;
ghost use Rattle.ppm_step.specs.Standings.{at_finish, enters, running, went_rest, wanted_rest, IsRunning};
ghost use Rattle.ppm_stretch.specs.Entering.{HasBegun, HasTurned, Circled, WentAlong, halt_behind, StandsBefore, StandsAtHeader, IsToStore};
ghost use Rattle.ppm_ports.specs.Told.{KeepsList};
ghost use Rattle.ppm_stretch.specs.declared.way.RoundEnd.TheVariants.{Refused, Round};
ghost use Rattle.ppm_table.specs.Run.{stands_by, deeds_in, IsAtCode, IsAtTable, IsSeat};
ghost use Rattle.ppm_widths.specs.Widths.{AreWidths};
ghost use Rattle.ppm_stretch.specs.Steady.{Goes, Moves};

use crate::capsule::go_along;
use crate::way::{Begun, Circuit, Halt, RoundEnd, Stretch, Turned, Way};
use atomic_table::Seat;
use ppm_cells::{Cell, Shape};
use ppm_code::{Code, End, Reached};
use ppm_ports::Watch;
use ppm_step::{Home, Running, Seat as Place, Stage, Want};
use ppm_table::{Found, View, Words, tell};
use ppm_widths::set_to_0;

/// Loads the finish word, before the row of a place that doesn't seek work.
#[inline(always)]
pub(crate) fn load_finish<W: Watch>(
    words: &Words,
    shape: &Shape,
    code: &Code,
    mine: &mut Seat<(), View>,
    watch: &mut W,
    place: &Place,
) -> Found
    requires table { IsAtCode mine.old.table_id words.now.shared.table_id words.now.shared.key shape.now code.now }
    requires sits { IsSeat place.now.own mine.old.me }
    requires place { place.now.own < shape.now.processors }
    requires looks { before_kind place.now.restart.kind ≡ Look }
    requires stands { StandsBefore words.now.shared.key place.now mine.old.me }
    ensures table { mine.new.table_id ≡ mine.old.table_id }
    ensures refused { result.fine ≡ false → KeepsList (W.told watch.old) (W.told watch.new) }
    ensures sits_on { IsSeat place.now.own mine.new.me }
    ensures goes { Goes words.now.shared.key place.now.own mine.old.me mine.new.me 1 0 1 false }
    ensures moves { result.fine ≡ true → Moves W.told words.now.shared.key place.now.own mine.old.me mine.new.me watch.old watch.new 1 0 1 false }
    ensures stands { stands_by words.now.shared.key place.now.own (deeds_in mine.new.me.0)
        ≡ at_finish shape.now code.now place.now.own place.now.place (Some place.now.restart) result.word }
{
    let _ = shape.slots;
    let _ = code.parts().root;
    tell(words, shape, mine, watch, place.place, Want::Loads(0))
}

/// Loads the header of the frame.
#[inline(always)]
pub(crate) fn load_header<W: Watch>(
    words: &Words,
    shape: &Shape,
    code: &Code,
    mine: &mut Seat<(), View>,
    watch: &mut W,
    place: &Place,
    header: u32,
) -> Found
    requires table { IsAtCode mine.old.table_id words.now.shared.table_id words.now.shared.key shape.now code.now }
    requires sits { IsSeat place.now.own mine.old.me }
    requires place { place.now.own < shape.now.processors }
    requires within { header < word_count shape.now }
    requires stands { StandsAtHeader words.now.shared.key place.now header mine.old.me }
    ensures table { mine.new.table_id ≡ mine.old.table_id }
    ensures refused { result.fine ≡ false → KeepsList (W.told watch.old) (W.told watch.new) }
    ensures sits_on { IsSeat place.now.own mine.new.me }
    ensures goes { Goes words.now.shared.key place.now.own mine.old.me mine.new.me 1 1 0 false }
    ensures moves { result.fine ≡ true → Moves W.told words.now.shared.key place.now.own mine.old.me mine.new.me watch.old watch.new 1 1 0 false }
    ensures stands { stands_by words.now.shared.key place.now.own (deeds_in mine.new.me.0)
        ≡ enters shape.now code.now place.now place.now.restart.kind (slice_get code.now.capsules result.word) }
{
    let _ = shape.slots;
    let _ = code.parts().root;
    tell(words, shape, mine, watch, place.place, Want::Loads(header))
}

/// Makes the step of a capsule under way that is the store of a word at an address.
#[inline(always)]
pub(crate) fn store_next<W: Watch>(
    words: &Words,
    shape: &Shape,
    mine: &mut Seat<(), View>,
    watch: &mut W,
    place: &Place,
    at: u32,
    word: u64,
) -> bool
    requires table { IsAtTable mine.old.table_id words.now.shared.table_id words.now.shared.key shape.now }
    requires sits { IsSeat place.now.own mine.old.me }
    requires place { place.now.own < shape.now.processors }
    requires within { at < word_count shape.now }
    requires stores { IsToStore words.now.shared.key shape.now place.now at word mine.old.me }
    ensures table { mine.new.table_id ≡ mine.old.table_id }
    ensures refused { result ≡ false → KeepsList (W.told watch.old) (W.told watch.new) }
    ensures made { (rest : Rest) → stands_by words.now.shared.key place.now.own (deeds_in mine.old.me.0) ≡ IsRunning place.now rest
        → wanted_rest shape.now place.now rest ≡ wants.Stores at word
        → (stands_by words.now.shared.key place.now.own (deeds_in mine.new.me.0) ≡ went_rest shape.now place.now 0 rest) × Goes words.now.shared.key place.now.own mine.old.me mine.new.me 1 1 0 false
        × (result ≡ true → Moves W.told words.now.shared.key place.now.own mine.old.me mine.new.me watch.old watch.new 1 1 0 false) }
{
    let _ = shape.slots;
    let _ = place.own;
    tell(
        words,
        shape,
        mine,
        watch,
        place.place,
        Want::Stores(at, word),
    )
    .fine
}

/// Stores the number of the capsule with which the frame goes on, and the restart word with which
/// it does, where both are there.
#[inline(always)]
pub(crate) fn go_round<W: Watch>(
    words: &Words,
    shape: &Shape,
    code: &Code,
    mine: &mut Seat<(), View>,
    watch: &mut W,
    place: &Place,
    home: &Home,
    capsule: u32,
) -> Turned
    requires table { IsAtTable mine.old.table_id words.now.shared.table_id words.now.shared.key shape.now }
    requires sits { IsSeat place.now.own mine.old.me }
    requires seat { IsPlace shape.now place.now }
    requires home { IsHome home.now }
    requires stands { stands_by words.now.shared.key place.now.own (deeds_in mine.old.me.0)
        ≡ running shape.now place.now (ending code.now home.now (Next capsule) 0) }
    ensures table { mine.new.table_id ≡ mine.old.table_id }
    ensures turned { HasTurned W.told words.now.shared.key shape.now place.now home.now mine.old.me mine.new.me watch.old watch.new result }
{
    let _ = code.parts().root;
    let running = Running {
        seat: *place,
        home: *home,
        capsule,
        next: 0,
        stage: Stage::Filled,
    };
    if !running.next_is_there(shape, 0) {
        return Turned::Breaks(0);
    }
    let number = u64::from(capsule);
    if !store_next(words, shape, mine, watch, place, home.header(), number) {
        return Turned::Refused;
    }
    if !running.next_is_there(shape, 1) {
        return Turned::Breaks(1);
    }
    let at = shape.address(Cell::RestartWord { place: place.place });
    let restart = running.restart(home.goes_round());
    if store_next(words, shape, mine, watch, place, at, restart.pack()) {
        Turned::Round
    } else {
        Turned::Refused
    }
}

/// Loads the finish word and, where that is 0, the header of the frame.
#[inline(always)]
pub(crate) fn begin<W: Watch>(
    words: &Words,
    shape: &Shape,
    code: &Code,
    mine: &mut Seat<(), View>,
    watch: &mut W,
    place: &Place,
    frame: u32,
    copy: u32,
    header: u32,
) -> Begun
    requires table { IsAtCode mine.old.table_id words.now.shared.table_id words.now.shared.key shape.now code.now }
    requires sits { IsSeat place.now.own mine.old.me }
    requires place { place.now.own < shape.now.processors }
    requires header { IsHeaderOf shape.now place.now header }
    requires kind { place.now.restart.kind ≡ Run frame copy }
    requires stands { StandsBefore words.now.shared.key place.now mine.old.me }
    ensures table { mine.new.table_id ≡ mine.old.table_id }
    ensures begun { HasBegun W.told words.now.shared.key shape.now code.now place.now frame copy mine.old.me mine.new.me watch.old watch.new result }
{
    let _ = (frame, copy);
    let finish = load_finish(words, shape, code, mine, watch, place);
    if finish.word != 0 {
        return if finish.fine {
            Begun::Over
        } else {
            Begun::Refused(false)
        };
    }
    if !finish.fine {
        return Begun::Refused(true);
    }
    let number = load_header(words, shape, code, mine, watch, place, header);
    if number.fine {
        Begun::Entered(number.word)
    } else {
        Begun::Refused(true)
    }
}

/// Goes through the capsule with this number, from registers that hold 0 where it
/// reads them, at most so many steps, up to its
/// end; `None` where there is no such capsule.
#[inline(always)]
pub(crate) fn capsule_along<W: Watch>(
    words: &Words,
    shape: &Shape,
    code: &Code,
    widths: &[u8],
    mine: &mut Seat<(), View>,
    watch: &mut W,
    place: &Place,
    home: &Home,
    number: u64,
    registers: &mut [u64; 64],
    most: u64,
) -> Option<Stretch>
    requires table { IsAtTable mine.old.table_id words.now.shared.table_id words.now.shared.key shape.now }
    requires widths { AreWidths code.now widths.now }
    requires home { IsHome home.now }
    requires block { home.now.block ≡ 0 }
    requires sits { IsSeat place.now.own mine.old.me }
    requires place { place.now.own < shape.now.processors }
    requires stands { stands_by words.now.shared.key place.now.own (deeds_in mine.old.me.0)
        ≡ enters shape.now code.now place.now (Run home.now.frame home.now.copy) (slice_get code.now.capsules number) }
    ensures table { mine.new.table_id ≡ mine.old.table_id }
    ensures few { IfSome result (λ stretch. stretch.made ≤ most) }
    ensures along { WentAlong W.told words.now.shared.key shape.now code.now place.now home.now number registers.new mine.old.me mine.new.me watch.old watch.new most result }
{
    if number >= code.parts().capsules.as_slice().len() as u64 {
        return None;
    }
    let found = code.capsule(number as u32)?;
    let _ = found.procedure;
    set_to_0(registers, widths[number as usize]);
    Some(go_along(
        words,
        shape,
        code,
        mine,
        watch,
        place,
        home,
        found.instrs.as_slice(),
        registers,
        0,
        most,
    ))
}

/// Goes through the next capsule of a frame, at most so many steps, and on to the one after it
/// where it names one.
#[inline(always)]
pub(crate) fn round<W: Watch>(
    words: &Words,
    shape: &Shape,
    code: &Code,
    widths: &[u8],
    mine: &mut Seat<(), View>,
    watch: &mut W,
    place: &Place,
    home: &Home,
    header: u32,
    registers: &mut [u64; 64],
    most: u64,
) -> Circuit
    requires table { IsAtCode mine.old.table_id words.now.shared.table_id words.now.shared.key shape.now code.now }
    requires widths { AreWidths code.now widths.now }
    requires most { 2 ≤ most }
    requires sits { IsSeat place.now.own mine.old.me }
    requires header { IsHeaderOf shape.now place.now header }
    requires home { IsHome home.now }
    requires block { home.now.block ≡ 0 }
    requires kind { place.now.restart.kind ≡ Run home.now.frame home.now.copy }
    requires stands { StandsBefore words.now.shared.key place.now mine.old.me }
    ensures table { mine.new.table_id ≡ mine.old.table_id }
    ensures few { result.made ≤ most }
    ensures on { (result.work ≤ result.made) × (result.end ≡ Round → 0 < result.made) }
    ensures circled { Circled W.told words.now.shared.key shape.now code.now place.now home.now registers.new mine.old.me mine.new.me watch.old watch.new most result.made result.work result.end }
{
    let number = match begin(
        words, shape, code, mine, watch, place, home.frame, home.copy, header,
    ) {
        Begun::Entered(number) => number,
        Begun::Over => {
            return Circuit {
                made: 1,
                work: 0,
                end: RoundEnd::Halts(Halt::Done),
            };
        }
        Begun::Refused(lives) => return refused(lives),
    };
    let Some(stretch) = capsule_along(
        words,
        shape,
        code,
        widths,
        mine,
        watch,
        place,
        home,
        number,
        registers,
        most - 2,
    ) else {
        return Circuit {
            made: 2,
            work: 1,
            end: RoundEnd::Halts(Halt::Broken),
        };
    };
    let made = stretch.made;
    if let Way::Stops(_, what) = stretch.way {
        if most - made >= 4 {
            if let Reached::AtEnd(End::Next { capsule }) = what {
                return match go_round(words, shape, code, mine, watch, place, home, capsule) {
                    Turned::Round => Circuit {
                        made: made + 4,
                        work: made + 3,
                        end: RoundEnd::Round,
                    },
                    Turned::Breaks(stored) => Circuit {
                        made: made + 2 + stored,
                        work: made + 1 + stored,
                        end: RoundEnd::Halts(Halt::Broken),
                    },
                    Turned::Refused => refused(true),
                };
            }
        }
    }
    Circuit {
        made: made + 2,
        work: made + 1,
        end: halt_behind(number, stretch.way),
    }
}

/// Where a round halts in the capsule with this number, by what came of its instructions.
#[inline(always)]
pub(crate) fn halt_behind(number: u64, way: Way) -> RoundEnd
    ensures { result ≡ halt_behind number way }
{
    match way {
        Way::Made(at) => RoundEnd::Halts(Halt::Midway(number, at)),
        Way::Stops(next, what) => RoundEnd::Halts(Halt::Stopped(number, next, what)),
        Way::Breaks => RoundEnd::Halts(Halt::Broken),
        Way::Refused => RoundEnd::Refused(true),
    }
}

/// The watcher refused; whether the processor is still to take a step.
fn refused(lives: bool) -> Circuit
    ensures { result ≡ record { made = 0; work = 0; end = Refused lives } }
{
    Circuit {
        made: 0,
        work: 0,
        end: RoundEnd::Refused(lives),
    }
}
