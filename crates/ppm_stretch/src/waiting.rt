//! A processor stands where a round of a frame has halted.
ghost use Rattle.std.specs.Prelude.{◌≡◌};
ghost use Rattle.ppm_step.specs.Facts.{IsHome, IsSeat as IsPlace};
ghost use Rattle.ppm_step.specs.Locals.{IsLocal, standing_of};
ghost use Rattle.ppm_step.specs.Standings.{Standing};
ghost use Rattle.ppm_stretch.specs.Entering.{HaltsAt};

use crate::way::Halt;
use ppm_cells::Shape;
use ppm_code::Code;
use ppm_engine::{wait_broken, wait_full, wait_midway, wait_stopped};
use ppm_step::{Home, Local, Seat as Place, Stand};

/// Stands where a round of a frame has halted.
#[inline(never)]
pub(crate) fn wait_halted(
    local: &mut Local,
    shape: &Shape,
    code: &Code,
    seat: Place,
    home: Home,
    halt: Halt,
)
    requires seat { IsPlace shape.now seat }
    requires own { seat.own ≡ local.old.own }
    requires home { IsHome home }
    requires halts { (standing : Standing) × HaltsAt shape.now code.now seat home local.old.registers halt standing }
    ensures stands { (standing : Standing) → HaltsAt shape.now code.now seat home local.old.registers halt standing
        → standing_of shape.now code.now local.new ≡ standing }
    ensures holds { IsLocal shape.now code.now local.new }
    ensures own_stays { local.new.own ≡ local.old.own }
{
    let _ = (shape.slots, code.parts().root);
    match halt {
        Halt::Done => local.stand = Stand::Done,
        Halt::Broken => wait_broken(local, shape, code, seat.place),
        Halt::Midway(number, at) => wait_midway(local, shape, code, seat, home, number, at),
        Halt::Stopped(number, next, what) => {
            wait_stopped(local, shape, code, seat, home, number, next, what);
        }
        Halt::Full(number) => wait_full(local, shape, code, seat, home, number),
    }
}
