//! The laws that neither a command nor another law calls, each called once: a law is a call that does
//! nothing, whose contract is what it says.
use ppm_choice::{
    runs_finish, schedules_go_on, schedules_keep_order, schedules_skip_done, unfinished_is_exact,
};
use ppm_cli::any_command_may_be_added;
use ppm_commands::instructions_have_their_lines;
use ppm_cut_code::{few_capsules, lines_alone, names_have_slots, procedures_stand};
use ppm_driver::runs_of_code_complete;
use ppm_outcomes::runs_in_legs_are_as_programs;
use ppm_plan::{plan_items_read_as_written, schedule_items_read_as_written, texts_read_as_written};
use ppm_printer::{canonical_texts_tell_programs, printed_texts_have_their_tree};
use ppm_replay_command::counts_are_as_traced;
use ppm_step::{done_has_cause, finish_stays, records_lead, room_has_cause, turns_have_cause};
use ppm_stop_command::{
    fronts_decide_resumed, resumes_leave_states, runs_leave_states, runs_of_code_complete_in_legs,
    stopped_cases_go_on, stopped_runs_go_on,
};
use ppm_top::sound_cases_run_as_depth;

#[test]
fn laws_of_texts_are_called(_: HostRuntime) {
    instructions_have_their_lines();
    printed_texts_have_their_tree();
    canonical_texts_tell_programs();
    any_command_may_be_added();
    plan_items_read_as_written();
    schedule_items_read_as_written();
    texts_read_as_written();
}

#[test]
fn laws_of_the_compiler_are_called(_: HostRuntime) {
    procedures_stand();
    names_have_slots();
    few_capsules();
    lines_alone();
}

#[test]
fn laws_of_steps_and_schedules_are_called(_: HostRuntime) {
    schedules_go_on();
    schedules_keep_order();
    schedules_skip_done();
    unfinished_is_exact();
    runs_finish();
    done_has_cause();
    finish_stays();
    records_lead();
    room_has_cause();
    turns_have_cause();
}

#[test]
fn laws_of_runs_are_called(_: HostRuntime) {
    fronts_decide_resumed();
    runs_leave_states();
    runs_in_legs_are_as_programs();
    stopped_runs_go_on();
    stopped_cases_go_on();
    resumes_leave_states();
    runs_of_code_complete();
    runs_of_code_complete_in_legs();
    sound_cases_run_as_depth();
    counts_are_as_traced();
}
