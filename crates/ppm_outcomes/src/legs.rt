//! That runs in legs end as their codes and their programs do, shown by calls that do nothing.
ghost use Rattle.ppm_outcomes.specs.CodeResumes.{CodeWordsComeBack};
ghost use Rattle.ppm_outcomes.specs.Legs.{RunsInLegsAreAsPrograms, TagsMayRiseInLegs};
ghost use Rattle.ppm_outcomes.specs.LegsAsCode.{RunsInLegsAreAsCode, TagsMayRiseInLegsOfCode};
ghost use Rattle.ppm_outcomes.specs.Resumes.{LeftWordsComeBack};

use crate::meant::programs_are_as_code;
use ppm_opening::images_begin_the_depth_first_run;
use ppm_resumed::renewed_words_come_back;
use ppm_runs::{
    legs_come_to, nothing_breaks, nothing_breaks_over_legs, room_is_spent, room_over_legs,
    runs_end_so, tags_stay_low, work_is_bounded, work_over_legs,
};

/// With takeover by places, from the machine with which a run of a sound code begins, whoever wrote
/// the code, whatever the turns are that its processors make, and however often the words come back
/// after them: over all of it no right branch is forked or taken twice. Where the finish word says
/// an outcome, it is that of the code, run depth first, with the arrays of the words then, or its
/// trap; and each right branch that was forked was taken. Where it says that a pool is full, that
/// run takes more words than a pool has, or has no end. All work turns are fewer than 256 for each
/// capsule of that run, each fault that strikes a row of work, and each fresh processor. That words
/// are broken it says only after more than 2^34 + 2^28 work turns, if words came back at most 2^50
/// times. And no place's holder has the last tag then.
pub fn runs_in_legs_are_as_code()
    ensures law { RunsInLegsAreAsCode }
    ensures tags { TagsMayRiseInLegsOfCode }
{
    // The law rests on these; the calls do nothing.
    images_begin_the_depth_first_run();
    runs_end_so();
    room_is_spent();
    work_is_bounded();
    nothing_breaks();
    legs_come_to();
    room_over_legs();
    work_over_legs();
    nothing_breaks_over_legs();
    tags_stay_low();
}

/// With takeover by places, from the machine with which a run of a text's program begins, whatever
/// the turns are that its processors make, and however often the words come back after them: over
/// all of it no right branch is forked or taken twice. Where the finish word says an outcome, it is
/// the program's serial outcome, with the arrays of the words then, or its trap; and each right
/// branch that was forked was taken. Where it says that a pool is full, the program, run whole,
/// takes more words than a pool has, or has no end. All work turns are fewer than 256 for each
/// capsule that its code runs depth first, each fault that strikes a row of work, and each fresh
/// processor. That words are broken it says only after more than 2^34 + 2^28 work turns, if words
/// came back at most 2^50 times. And no place's holder has the last tag then.
pub fn runs_in_legs_are_as_programs()
    ensures law { RunsInLegsAreAsPrograms }
    ensures tags { TagsMayRiseInLegs }
{
    // The law rests on these; the calls do nothing.
    programs_are_as_code();
    runs_in_legs_are_as_code();
}

/// The words that fresh processors find, where a run of a sound code left a state, or one of a
/// program, are words that come back: no holder has the last tag, as words came back fewer than
/// 2^50 times.
pub fn left_words_come_back()
    ensures law { LeftWordsComeBack }
    ensures of_code { CodeWordsComeBack }
{
    // The law rests on these; the calls do nothing.
    runs_in_legs_are_as_code();
    programs_are_as_code();
    renewed_words_come_back();
}
