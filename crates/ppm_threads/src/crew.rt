//! What the processors of a run have in common.

use crate::parking::IdleUnparker;
use ppm_choice::Limits;
use ppm_plan::Plan;
use ppm_table::Shared;

/// What the processors of a run have in common: the table, the plan and the limits that they obey,
/// and the tokens by which those are woken that have parked.
#[derive(Drop)]
pub(crate) struct Crew<'a> {
    pub(crate) shared: Shared,
    pub(crate) plan: &'a Plan,
    pub(crate) limits: Limits,
    pub(crate) unparkers: Vec<IdleUnparker>,
}
