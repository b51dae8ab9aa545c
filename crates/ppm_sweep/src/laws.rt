//! Laws of sweeps, each shown by a call that does nothing.
ghost use Rattle.ppm_sweep.specs.Fair.{SweepsAreFair};
ghost use Rattle.ppm_sweep.specs.Strikes.{EachActIsStruck};

/// Each schedule of a sweep may be obeyed as the base schedule may, with the same keeper, unless it
/// has more items than a schedule may.
pub fn sweeps_are_fair()
    ensures law { SweepsAreFair }
{}

/// The runs of a sweep with one fault at most, over each act of a window: that of the base schedule,
/// and then, for each act of this run that is in the window, in order, one that begins with the acts
/// before it and then has a soft fault of its processor, and one with a hard fault unless it is the
/// keeper.
pub fn each_act_is_struck()
    ensures law { EachActIsStruck }
{}
