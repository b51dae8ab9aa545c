//! The laws that a run has something to do, and comes to its end, are there to be called.
use ppm_advance::{advancing_trees_are_ready, trees_advance};
use ppm_progress::{
    idle_deques_are_empty, left_comes_later, replays_end, runs_end_fairly,
    single_facts_allow_stuck_pieces, somebody_works, something_is_ready, work_turns_come_soon,
};
use ppm_takeover::{
    legs_replayed_end_by_places, looks_are_short, nothing_is_lost, replays_end_by_places,
    runs_end_by_places, work_turns_come_soon_by_places,
};

#[test]
fn the_laws_of_progress_are_called() {
    advancing_trees_are_ready();
    trees_advance();
    left_comes_later();
    something_is_ready();
    idle_deques_are_empty();
    somebody_works();
    work_turns_come_soon();
    single_facts_allow_stuck_pieces();
    runs_end_fairly();
    replays_end();
}

#[test]
fn the_laws_of_takeover_are_called() {
    nothing_is_lost();
    work_turns_come_soon_by_places();
    looks_are_short();
    runs_end_by_places();
    replays_end_by_places();
    legs_replayed_end_by_places();
}
