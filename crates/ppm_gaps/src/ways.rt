//! Whether a path leads from one place of a capsule to another.
ghost use Rattle.std.specs.Prelude.{◌≡◌, ◌↔◌, ◌<◌, ◌≤◌, IsTrue, length};
ghost use Rattle.ppm_code.specs.Limits.{instr_limit};
ghost use Rattle.ppm_code.specs.Paths.{Path, may as may_do};
ghost use Rattle.ppm_war.specs.Marks.{Allows};

use ppm_code::{Class, Instr, May};
use ppm_war::{decoded, places_from};

/// Whether what an instruction may do is this.
pub(crate) fn may_be(instr: &Instr, may: May) -> bool
    ensures { IsTrue result ↔ (may_do instr.now ≡ may) }
{
    instr.may() == may
}

/// Whether a path leads to a place from another one, past instructions that are allowed: any, or
/// those that leave the class exposed.
pub fn leads(instrs: &[Instr], from: usize, to: usize, class: Option<Class>) -> bool
    requires most { length instrs.now ≤ instr_limit }
    requires there { to < length instrs.now }
    ensures { IsTrue result ↔ Path instrs.now (Allows class) from to }
{
    let mays = decoded(instrs);
    let marks = places_from(&mays[..instrs.len()], from, class);
    marks[to]
}
