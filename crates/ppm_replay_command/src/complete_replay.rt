//! That replays with acts and room enough end, shown by calls that do nothing. The law of replays by
//! places is proved in `ppm_takeover`, which is no lower than this crate: so it is a premise here.
ghost use Rattle.ppm_progress.specs.Replays.{ReplaysEndByPlaces};
ghost use Rattle.ppm_replay_command.specs.ReplayLaws.{CaseReplaysComplete, ReplaysComplete, ReplaysOfCodeComplete};
ghost use Rattle.ppm_replay_command.specs.ReplayLaws.{UnfinishedNeedMore, UnfinishedProgramsNeedMore};

use ppm_case::faults_tell_cases;
use ppm_opening::images_begin_the_depth_first_run;
use ppm_outcomes::{programs_are_as_code, replays_are_as_code};
use ppm_plan::have_one_answer as schedules_have_one_answer;
use ppm_program::have_one_answer as texts_have_one_program;
use ppm_progress::replays_end;

/// With options in their ranges, and a schedule that is accepted: where the replay of a sound code
/// is unfinished, its acts are not known to be enough, or its depth-first run has no end. So it
/// ends, with arrays or in a trap, if that run does, the acts are enough, and a pool has as many
/// words as that run takes.
pub fn replays_of_code_complete()
    ensures few { ReplaysEndByPlaces → UnfinishedNeedMore }
    ensures law { ReplaysEndByPlaces → ReplaysOfCodeComplete }
{
    // The law rests on these; the calls do nothing.
    images_begin_the_depth_first_run();
    replays_end();
    replays_are_as_code();
}

/// With such a schedule the replay of a text's program that is unfinished needs more acts. With
/// acts and room enough for the program, or for the sound case of a text, each answer of the text
/// is that its replay ended.
pub fn replays_complete()
    ensures few { ReplaysEndByPlaces → UnfinishedProgramsNeedMore }
    ensures law { ReplaysEndByPlaces → ReplaysComplete }
    ensures cases { ReplaysEndByPlaces → CaseReplaysComplete }
{
    // The laws rest on these; the calls do nothing.
    replays_of_code_complete();
    programs_are_as_code();
    texts_have_one_program();
    faults_tell_cases();
    schedules_have_one_answer();
}
