//! The outcome of a fork.
ghost use Rattle.std.specs.Prelude.{◌≡◌};
ghost use Rattle.ppm_cells.specs.Finish.{IsFinish, IsOutcome};
ghost use Rattle.ppm_cells.specs.JoinOutcome.{outcome_of_both};

use crate::finish::Finish;

/// The outcome of a fork by those of its branches: the left one's trap, else the right one's, else
/// its end.
pub fn joined(left: Finish, right: Finish) -> Finish
    ensures value { result ≡ outcome_of_both left right }
    ensures outcome { IsOutcome result }
    ensures fits { IsFinish left → IsFinish right → IsFinish result }
{
    match (left, right) {
        (Finish::Trapped { .. }, _) => left,
        (_, Finish::Trapped { .. }) => right,
        _ => Finish::Ended,
    }
}
