//! The words of a machine show the tree of the run's strands, row by row; laws alone.
//! Model: words by cells and what each place is at (`specs/Kept`, `State`), and a skeleton of the
//! tree (`ppm_frames`); what always holds of them is `IsKept`.
//! Contract: an opening is kept; each step of a place in the rows of its strand keeps it, with the
//! tree's own steps; what other places have done stays meanwhile (`specs/Others`).
//! With takeover by entries a place also goes on with what a closed one was at (`specs/Heirs`).
//! Stands on `ppm_step`, `ppm_ends` and `ppm_frames`.
//! After the capsules and work stealing of Blelloch et al., SPAA 2018.
#![tactic(auto)]

mod laws;

pub use laws::{
    arrive_row_keeps, branch_values_pass, bump_row_keeps, capsules_are_counted, copies_stay,
    credit_stays, early_join_row_keeps, ends_as_meant, exchanges_are_seen, fates_agree,
    forks_are_new, frames_run, heir_turns_keep, heirs_keep, join_row_keeps, last_join_row_keeps,
    loads_show, openings_are_kept, others_keep, push1_row_keeps, push2_row_keeps, room_is_bounded,
    run_row_keeps, steps_are_seen, take_rows_keep, turns_bear, turns_keep, turns_keep_left,
    turns_show, unruns_stay, untaken_stays, unwind_row_keeps,
};
