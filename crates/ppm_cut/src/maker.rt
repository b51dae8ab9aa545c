//! What the capsules of a procedure are made with.
ghost use Rattle.std.specs.Prelude.{◌≤◌, ◌*◌};
ghost use Rattle.ppm_cut.specs.Counts.{count_limit};

use crate::callees::Callees;
use std::alloc::Global;

/// The procedure that capsules are made for, and where its spare slots begin.
#[derive(Clone, Copy)]
pub struct Home {
    pub procedure: u32,
    pub spare: u32,
    ghost within: { spare ≤ 3 * count_limit },
}

/// What the capsules of a procedure are made with: memory, the procedures that are called, and the
/// procedure itself.
#[derive(Clone, Copy)]
pub struct Maker<'a> {
    pub alloc: Global,
    pub callees: &'a Callees<'a>,
    pub home: Home,
}
