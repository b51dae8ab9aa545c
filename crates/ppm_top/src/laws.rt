//! The laws of all commands, shown by a call that does nothing.
ghost use Rattle.ppm_top.specs.Laws.{ProgramLaws};
ghost use Rattle.ppm_top.specs.SoundCases.{SoundCasesRunAsDepth};

use ppm_case::faults_tell_cases;
use ppm_commands::{
    case_texts_are_cases, case_texts_have_one_answer, cases_have_one_answer, codes_are_faithful,
    codes_have_one_answer, depth_runs_have_one_answer, listings_have_one_answer,
    outcomes_have_one_answer, racing_listings_have_one_answer, saved_texts_have_one_answer,
};
use ppm_driver::{
    answers_are_as_code, answers_are_as_rams, answers_are_one as runs_have_one_answer,
    case_answers_are_one, counted_answers_are_one, counted_case_answers_are_one, examples_sum_up,
    ram_answers_are_one, runs_complete,
};
use ppm_explained::{
    orders_have_one_answer, texts_have_one_answer as explained_texts_have_one_answer,
    traps_have_one_answer,
};
use ppm_legs::{
    counted_saved_replays_have_one_answer, saved_replays_have_one_answer,
    saved_stops_have_one_answer, saved_traces_have_one_answer, stops_go_on_chains,
};
use ppm_opening::images_begin_the_depth_first_run;
use ppm_outcomes::{programs_are_as_code, replays_are_as_code, resume_laws, runs_are_as_programs};
use ppm_plan::have_one_answer as plans_have_one_answer;
use ppm_ram::texts_are_of_rams;
use ppm_replay_command::{
    case_replays_have_one_answer, counted_case_replays_have_one_answer,
    counted_replays_have_one_answer, replays_complete, replays_have_one_answer,
    replays_of_code_complete,
};
use ppm_stop_command::{case_stops_have_one_answer, stops_have_one_answer, stops_leave_states};
use ppm_strands_command::{drawn_strands_have_one_answer, strands_have_one_answer};
use ppm_sweep_command::{case_sweeps_have_one_answer, sweeps_are_as_code, sweeps_have_one_answer};
use ppm_takeover::{legs_replayed_end_by_places, replays_end_by_places};
use ppm_trace_command::{case_traces_have_one_answer, traces_have_one_answer};

/// What the crates of the commands show of every text: all laws on which the rows of `ppm` rest.
pub fn program_laws()
    ensures law { ProgramLaws }
{
    // It rests on the laws of these crates; the calls do nothing.
    runs_have_one_answer();
    runs_are_as_programs();
    runs_complete();
    replays_end_by_places();
    legs_replayed_end_by_places();
    images_begin_the_depth_first_run();
    replays_of_code_complete();
    replays_complete();
    examples_sum_up();
    resume_laws();
    stops_leave_states();
    outcomes_have_one_answer();
    codes_have_one_answer();
    codes_are_faithful();
    listings_have_one_answer();
    racing_listings_have_one_answer();
    saved_texts_have_one_answer();
    explained_texts_have_one_answer();
    orders_have_one_answer();
    traps_have_one_answer();
    depth_runs_have_one_answer();
    cases_have_one_answer();
    strands_have_one_answer();
    drawn_strands_have_one_answer();
    case_texts_have_one_answer();
    case_texts_are_cases();
    plans_have_one_answer();
    replays_have_one_answer();
    stops_have_one_answer();
    saved_stops_have_one_answer();
    saved_replays_have_one_answer();
    counted_saved_replays_have_one_answer();
    saved_traces_have_one_answer();
    stops_go_on_chains();
    answers_are_as_code();
    replays_are_as_code();
    faults_tell_cases();
    case_answers_are_one();
    case_replays_have_one_answer();
    case_stops_have_one_answer();
    sweeps_have_one_answer();
    case_sweeps_have_one_answer();
    sweeps_are_as_code();
    programs_are_as_code();
    traces_have_one_answer();
    case_traces_have_one_answer();
    counted_replays_have_one_answer();
    counted_case_replays_have_one_answer();
    counted_answers_are_one();
    counted_case_answers_are_one();
    answers_are_as_rams();
    ram_answers_are_one();
    texts_are_of_rams();
}

/// A case that `races` calls sound comes to the result of `depth` in each `run`, with every plan,
/// schedule and takeover, or a limit is too low for its counts and the plan's faults.
pub fn sound_cases_run_as_depth()
    ensures law { SoundCasesRunAsDepth }
{
    answers_are_as_code();
    faults_tell_cases();
    plans_have_one_answer();
}
