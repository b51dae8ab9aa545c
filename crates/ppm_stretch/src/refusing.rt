//! What a processor does whose watcher has refused to be told of a step.
ghost use Rattle.std.specs.Prelude.{◌≡◌, ◌<◌, not};
ghost use Rattle.ppm_step.specs.Locals.{IsLocal, standing_of};
ghost use Rattle.ppm_step.specs.State.{is_done_at};
ghost use Rattle.ppm_table.specs.Run.{stands_by, deeds_in, IsAtCode, IsSeat};
ghost use Rattle.ppm_stretch.specs.Rows.{Quits};
ghost use Rattle.ppm_stretch.specs.Steady.{Lives};

use atomic_table::Seat;
use ppm_cells::Shape;
use ppm_code::Code;
use ppm_step::{Local, Stand, Why};
use ppm_table::{View, Words, give_up, is_done};

/// A processor whose watcher has refused gives up, if it is still to take a step.
#[inline(never)]
pub(crate) fn withdraw(
    local: &mut Local,
    words: &Words,
    mine: &mut Seat<(), View>,
    shape: &Shape,
    code: &Code,
    lives: bool,
)
    requires table { IsAtCode mine.old.table_id words.now.shared.table_id words.now.shared.key shape.now code.now }
    requires own { local.old.own < shape.now.processors }
    requires lives { Lives words.now.shared.key local.old.own mine.old.me lives }
    ensures table { mine.new.table_id ≡ mine.old.table_id }
    ensures quits { Quits mine.old.me mine.new.me lives }
    ensures sits { IsSeat local.old.own mine.new.me }
    ensures stands { standing_of shape.now code.now local.new ≡ stands_by words.now.shared.key local.old.own (deeds_in mine.new.me.0) }
    ensures holds { IsLocal shape.now code.now local.new }
    ensures own_stays { local.new.own ≡ local.old.own }
{
    let _ = code.parts().root;
    if lives {
        give_up(words, shape, mine, local.own, Why::Watch);
        local.stand = Stand::Lost;
    } else {
        local.stand = Stand::Done;
    }
}

/// A processor whose watcher has refused gives up, if it isn't done.
#[inline(never)]
pub(crate) fn give_way(
    local: &mut Local,
    words: &Words,
    mine: &mut Seat<(), View>,
    shape: &Shape,
    code: &Code,
)
    requires table { IsAtCode mine.old.table_id words.now.shared.table_id words.now.shared.key shape.now code.now }
    requires local { IsLocal shape.now code.now local.old }
    requires sits { IsSeat local.old.own mine.old.me }
    requires stands { standing_of shape.now code.now local.old ≡ stands_by words.now.shared.key local.old.own (deeds_in mine.old.me.0) }
    ensures table { mine.new.table_id ≡ mine.old.table_id }
    ensures quits { Quits mine.old.me mine.new.me (not (is_done_at (standing_of shape.now code.now local.old))) }
    ensures sits_on { IsSeat local.old.own mine.new.me }
    ensures stands_on { standing_of shape.now code.now local.new ≡ stands_by words.now.shared.key local.old.own (deeds_in mine.new.me.0) }
    ensures holds { IsLocal shape.now code.now local.new }
    ensures own_stays { local.new.own ≡ local.old.own }
{
    let done = is_done(local);
    withdraw(local, words, mine, shape, code, !done);
}
