//! What the order word of a fork block says to a branch that has arrived. It is 0 until a branch
//! arrives, then 1 if the left one was first and 2 if the right one was; it is 3 before either
//! begins where one strand runs both, the left one first.
ghost use Rattle.std.specs.Prelude.{◌↔◌, IsTrue};
ghost use Rattle.ppm_cells.specs.JoinOrder.{IsLast, IsInline};

use crate::side::Side;

/// Whether the branch is the last one to arrive, so that its strand goes on after the join.
pub fn last(order: u64, side: Side) -> bool
    ensures exactly { IsTrue result ↔ IsLast order side }
{
    match side {
        Side::Left => order == 2,
        Side::Right => order == 1 || order == 3,
    }
}

/// Whether the strand of this branch is to run the other one next.
pub fn inline(order: u64, side: Side) -> bool
    ensures exactly { IsTrue result ↔ IsInline order side }
{
    match side {
        Side::Left => order == 3,
        Side::Right => false,
    }
}
