//! That runs end as their codes and their programs do, shown by calls that do nothing.
ghost use Rattle.ppm_outcomes.specs.AsCode.{RunsAreAsCode};
ghost use Rattle.ppm_outcomes.specs.CodeReplays.{ReplaysAreAsCode};
ghost use Rattle.ppm_outcomes.specs.Meant.{RunsAreAsPrograms};
ghost use Rattle.ppm_outcomes.specs.ProgramsAsCode.{ProgramsAreAsCode};

use ppm_cut_code::keeps_the_rules;
use ppm_cut_correct::{end_as_meant, ends_serially, name_arrays, start_with_input};
use ppm_cut_sound::code_is_sound;
use ppm_opening::images_begin_the_depth_first_run;
use ppm_rows::trees_are_within;
use ppm_runs::{nothing_breaks, room_is_spent, runs_end_so, work_is_bounded};

/// From the machine with which a run of a sound code begins, whoever wrote the code, and whatever
/// the turns are that its processors make: no right branch is forked or taken twice. Where the
/// finish word says an outcome, it is that of the code, run depth first, with the arrays of the
/// words then, or its trap; and each right branch that was forked was taken: as many as that run
/// forks. Where it says that a pool is full, that run takes more words than a pool has, or has no
/// end. That words are broken it says only after more than 2^34 work turns. All work turns are
/// fewer than 256 for each capsule of that run and each fault that undoes work.
pub fn runs_are_as_code()
    ensures law { RunsAreAsCode }
{
    // The law rests on these; the calls do nothing.
    images_begin_the_depth_first_run();
    runs_end_so();
    room_is_spent();
    work_is_bounded();
    nothing_breaks();
}

/// With options in their ranges, and a schedule that is accepted: the answer of a replay of a sound
/// code is the outcome of the code, run depth first, with the forks of its run, and as many takes;
/// or that all acts were made, or that room is not enough for it.
pub fn replays_are_as_code()
    ensures law { ReplaysAreAsCode }
{
    // The law rests on this one; the call does nothing.
    runs_are_as_code();
}

/// From the machine with which a run of a text's program begins, whatever the turns are that its
/// processors make: no right branch is forked or taken twice. Where the finish word says an
/// outcome, it is the program's serial outcome, with the arrays of the words then, or its trap; and
/// each right branch that was forked was taken: as many as the code of the program, run depth
/// first, forks. Where it says that a pool is full, the program, run whole, takes more words than a
/// pool has, or has no end. That words are broken it says only after more than 2^34 work turns.
/// All work turns are fewer than 256 for each capsule that its code runs depth first and each fault
/// that undoes work.
pub fn runs_are_as_programs()
    ensures law { RunsAreAsPrograms }
{
    // The law rests on these; the calls do nothing.
    programs_are_as_code();
    runs_are_as_code();
}

/// The code of each text's program is sound with the arrays that the program starts with, and may
/// run on them. An outcome of it, run depth first, is the program's serial outcome; and where a
/// pool is too small for it, the program, run whole, takes more words too, or has no end.
pub fn programs_are_as_code()
    ensures law { ProgramsAreAsCode }
{
    // The law rests on these; the calls do nothing.
    trees_are_within();
    keeps_the_rules();
    code_is_sound();
    start_with_input();
    name_arrays();
    ends_serially();
    end_as_meant();
}
