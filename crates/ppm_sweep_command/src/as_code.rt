//! That sweeps are as their codes, shown by a call that does nothing.
ghost use Rattle.ppm_sweep_command.specs.SweepRows.{SweepsAreAsCode};

use ppm_outcomes::replays_are_as_code;

/// With options in their ranges, and a schedule that is accepted: where a sweep of a sound code
/// tells a difference, the replay came to no end. All its acts were made, or room is not enough.
pub fn sweeps_are_as_code()
    ensures law { SweepsAreAsCode }
{
    // The law rests on this one; the call does nothing.
    replays_are_as_code();
}
