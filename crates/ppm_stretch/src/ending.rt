//! The stores with which a capsule ends, each an atomic step of the table.
ghost use Rattle.std.specs.Prelude.{◌≡◌, ◌≢◌, ◌<◌, ◌≤◌, ◌+◌};
ghost use Rattle.ppm_code.specs.declared.act.End.TheVariants.{Finish};
ghost use Rattle.ppm_step.specs.Contents.{IsContent};
ghost use Rattle.ppm_step.specs.Facts.{IsEnd, IsHome, IsSeat as IsPlace};
ghost use Rattle.ppm_step.specs.Frames.{Rest, Stores, Installs, ending};
ghost use Rattle.ppm_step.specs.Standings.{running};
ghost use Rattle.ppm_table.specs.Run.{stands_by, deeds_in, IsAtTable, IsSeat};
ghost use Rattle.ppm_stretch.specs.Ending.{HasEnded, HasMadeEnds, IsPutting, is_stored, made_by};
ghost use Rattle.ppm_stretch.specs.declared.way.EndStep.TheVariants.{Stored};

use crate::entering::store_next;
use crate::way::{EndStep, Ended};
use atomic_table::Seat;
use ppm_cells::{Cell, Restart, RestartKind, Shape};
use ppm_code::{Code, End};
use ppm_ports::Watch;
use ppm_step::{Home, Put, Seat as Place, address, cell_is_there, restart_there, restart_word};
use ppm_table::{View, Words};

/// Makes a store of an end, whatever comes after that.
#[inline(always)]
fn put_at<W: Watch>(
    words: &Words,
    shape: &Shape,
    mine: &mut Seat<(), View>,
    watch: &mut W,
    place: &Place,
    put: Put,
) -> EndStep
    requires table { IsAtTable mine.old.table_id words.now.shared.table_id words.now.shared.key shape.now }
    requires sits { IsSeat place.now.own mine.old.me }
    requires place { place.now.own < shape.now.processors }
    requires content { IsContent put.content }
    requires stands { IsPutting words.now.shared.key shape.now place.now put mine.old.me }
    ensures table { mine.new.table_id ≡ mine.old.table_id }
    ensures ended { (rest : Rest) → stands_by words.now.shared.key place.now.own (deeds_in mine.old.me.0)
        ≡ running shape.now place.now (Stores put.cell put.content rest)
        → HasEnded W.told words.now.shared.key shape.now place.now rest mine.old.me mine.new.me watch.old watch.new result }
{
    if !cell_is_there(shape, put.cell) {
        return EndStep::Gone;
    }
    let at = address(shape, put.cell);
    if store_next(words, shape, mine, watch, place, at, put.content.word()) {
        EndStep::Stored
    } else {
        EndStep::Refused
    }
}

/// Stores the restart word with which a place goes on.
#[inline(always)]
fn install_at<W: Watch>(
    words: &Words,
    shape: &Shape,
    mine: &mut Seat<(), View>,
    watch: &mut W,
    place: &Place,
    kind: RestartKind,
) -> EndStep
    requires table { IsAtTable mine.old.table_id words.now.shared.table_id words.now.shared.key shape.now }
    requires sits { IsSeat place.now.own mine.old.me }
    requires seat { IsPlace shape.now place.now }
    requires stands { stands_by words.now.shared.key place.now.own (deeds_in mine.old.me.0)
        ≡ running shape.now place.now (Installs kind) }
    ensures table { mine.new.table_id ≡ mine.old.table_id }
    ensures ended { (rest : Rest) → HasEnded W.told words.now.shared.key shape.now place.now rest
        mine.old.me mine.new.me watch.old watch.new result }
    ensures last { result ≢ Stored }
{
    // The proof needs its limits.
    let _ = shape.word_count();
    let restart = Restart {
        kind,
        bottom: place.restart.bottom,
    };
    if !restart_there(shape, restart) {
        return EndStep::Gone;
    }
    let at = shape.address(Cell::RestartWord { place: place.place });
    let word = restart_word(shape, restart);
    if store_next(words, shape, mine, watch, place, at, word) {
        EndStep::Installed(restart)
    } else {
        EndStep::Refused
    }
}

/// Makes the n-th store of an end, or after the last one that of the restart word.
#[inline(always)]
pub(crate) fn end_at<W: Watch>(
    words: &Words,
    shape: &Shape,
    code: &Code,
    mine: &mut Seat<(), View>,
    watch: &mut W,
    place: &Place,
    home: &Home,
    end: End,
    n: usize,
) -> EndStep
    requires table { IsAtTable mine.old.table_id words.now.shared.table_id words.now.shared.key shape.now }
    requires sits { IsSeat place.now.own mine.old.me }
    requires seat { IsPlace shape.now place.now }
    requires home { IsHome home.now }
    requires end { IsEnd end }
    requires stands { stands_by words.now.shared.key place.now.own (deeds_in mine.old.me.0)
        ≡ running shape.now place.now (ending code.now home.now end n) }
    ensures table { mine.new.table_id ≡ mine.old.table_id }
    ensures few { result ≡ Stored → n < 11 }
    ensures ended { HasEnded W.told words.now.shared.key shape.now place.now (ending code.now home.now end (n + 1))
        mine.old.me mine.new.me watch.old watch.new result }
{
    let _ = code.parts().root;
    match home.coming_put(code, end, n) {
        Some(put) => put_at(words, shape, mine, watch, place, put),
        None => install_at(words, shape, mine, watch, place, home.installed(end)),
    }
}

/// The steps of a store of an end.
#[inline(always)]
fn made_by(step: EndStep) -> u64
    ensures { result ≡ made_by step }
{
    match step {
        EndStep::Stored | EndStep::Installed(_) => 1,
        EndStep::Gone | EndStep::Refused => 0,
    }
}

/// Whether a store was made, and the next one comes.
#[inline(always)]
fn is_stored(step: EndStep) -> bool
    ensures { result ≡ is_stored step }
{
    match step {
        EndStep::Stored => true,
        EndStep::Installed(_) | EndStep::Gone | EndStep::Refused => false,
    }
}

/// So many stores suffice for each end, with that of the restart word.
pub(crate) const MOST_OF_AN_END: u64 = 16;

/// Makes the stores of an end, from the n-th on, at most so many.
#[inline(never)]
pub(crate) fn end_along<W: Watch>(
    words: &Words,
    shape: &Shape,
    code: &Code,
    mine: &mut Seat<(), View>,
    watch: &mut W,
    place: &Place,
    home: &Home,
    end: End,
    from: usize,
    most: u64,
) -> Ended
    requires table { IsAtTable mine.old.table_id words.now.shared.table_id words.now.shared.key shape.now }
    requires sits { IsSeat place.now.own mine.old.me }
    requires seat { IsPlace shape.now place.now }
    requires home { IsHome home.now }
    requires end { IsEnd end }
    requires stands { stands_by words.now.shared.key place.now.own (deeds_in mine.old.me.0)
        ≡ running shape.now place.now (ending code.now home.now end from) }
    ensures table { mine.new.table_id ≡ mine.old.table_id }
    ensures few { result.made ≤ most }
    ensures last { result.step ≡ Stored → (result.made ≡ most) × (0 < most → from + most ≤ 11) }
    ensures ended { HasMadeEnds W.told words.now.shared.key shape.now place.now (ending code.now home.now end (from + result.made))
        mine.old.me mine.new.me watch.old watch.new most result.made result.step }
{
    // Copies, as in `rounds`.
    let sizes = *shape;
    let at = *place;
    let own = *home;
    let mut n = from;
    let mut made = 0;
    while made < most {
        let step = end_at(words, &sizes, code, mine, watch, &at, &own, end, n);
        if !is_stored(step) {
            let more = made_by(step);
            return Ended {
                made: made + more,
                step,
            };
        }
        n += 1;
        made += 1;
    }
    Ended {
        made,
        step: EndStep::Stored,
    }
}

/// Makes the one store of the end of a frame that is over.
#[inline(always)]
pub(crate) fn finish_along<W: Watch>(
    words: &Words,
    shape: &Shape,
    code: &Code,
    mine: &mut Seat<(), View>,
    watch: &mut W,
    place: &Place,
    home: &Home,
) -> EndStep
    requires table { IsAtTable mine.old.table_id words.now.shared.table_id words.now.shared.key shape.now }
    requires sits { IsSeat place.now.own mine.old.me }
    requires seat { IsPlace shape.now place.now }
    requires home { IsHome home.now }
    requires stands { stands_by words.now.shared.key place.now.own (deeds_in mine.old.me.0)
        ≡ running shape.now place.now (ending code.now home.now Finish 0) }
    ensures table { mine.new.table_id ≡ mine.old.table_id }
    ensures ended { (rest : Rest) → HasEnded W.told words.now.shared.key shape.now place.now rest
        mine.old.me mine.new.me watch.old watch.new result }
    ensures last { result ≢ Stored }
{
    let _ = code.parts().root;
    let kind = RestartKind::Unwind { frame: home.frame };
    install_at(words, shape, mine, watch, place, kind)
}
