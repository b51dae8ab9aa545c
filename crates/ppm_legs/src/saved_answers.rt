//! That a saved text has one answer where it goes on by a schedule, shown by a call that does
//! nothing.
ghost use Rattle.ppm_legs.specs.CountedReplays.{HaveOneAnswer as CountedHaveOneAnswer};
ghost use Rattle.ppm_legs.specs.SavedReplays.{HaveOneAnswer as ReplaysHaveOneAnswer};
ghost use Rattle.ppm_legs.specs.SavedStops.{HaveOneAnswer};
ghost use Rattle.ppm_legs.specs.SavedTraces.{HaveOneAnswer as TracesHaveOneAnswer};

use ppm_plan::have_one_answer as schedules_have_one_answer;
use ppm_saved_reader::faults_tell_saved_texts;

/// With all options and each schedule a saved text has one answer at most where it is stopped again:
/// it is refused for one fault, or the schedule is for one number, or its words are broken, or the
/// state after its leg is saved as one text.
pub fn saved_stops_have_one_answer()
    ensures law { HaveOneAnswer }
{
    // The law rests on these; the calls do nothing.
    faults_tell_saved_texts();
    schedules_have_one_answer();
}

/// With all options and each schedule a saved text has one answer at most where it is replayed: it
/// is refused for one fault, or the schedule is for one number, or its words are broken, or the words
/// after its leg say one thing.
pub fn saved_replays_have_one_answer()
    ensures law { ReplaysHaveOneAnswer }
{
    // The law rests on these; the calls do nothing.
    faults_tell_saved_texts();
    schedules_have_one_answer();
}

/// With all options and each schedule a saved text has one answer at most where it is replayed, its
/// counts included: it is refused for one fault, or the schedule is for one number, or its words are
/// broken, or the words after its leg say one thing, and so much is counted in the leg.
pub fn counted_saved_replays_have_one_answer()
    ensures law { CountedHaveOneAnswer }
{
    // The law rests on these; the calls do nothing.
    faults_tell_saved_texts();
    schedules_have_one_answer();
}

/// With all options and each schedule a saved text has one answer at most where it is traced: it is
/// refused for one fault, or the schedule is for one number, or its words are broken, or its leg is
/// told by one text.
pub fn saved_traces_have_one_answer()
    ensures law { TracesHaveOneAnswer }
{
    // The law rests on these; the calls do nothing.
    faults_tell_saved_texts();
    schedules_have_one_answer();
}
