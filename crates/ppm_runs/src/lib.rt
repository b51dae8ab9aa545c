//! Runs: the tickets' half and the frames' half joined; laws alone.
//! Model: a machine's state by places, where each branch is, and the tree of strands; what holds of
//! them is `IsRun` (`specs/Run`), and with takeover by entries `IsHeired` (`specs/Entries`).
//! Contract: a machine that opens an image is in such a state (`specs/Openings`). In each the next
//! turn owes the tickets nothing that the frames don't show, and words are lawful and kept after it,
//! or the run was stopped (`specs/Laws`); at an outcome all is as the depth-first run has it
//! (`specs/Outcomes`).
//! Thus each turn leads from one such state to the next, and whole runs come to what the
//! depth-first run does (`specs/Whole`, `specs/Entries`): all turns are orderly (`specs/EveryRun`), and at each
//! moment the words show what is left of that run (`specs/Trees`).
//! Stands on `ppm_tickets` and `ppm_kept`.
//! After the scheduler of Blelloch et al., SPAA 2018.
#![tactic(auto)]

mod laws;
mod legs;
mod moments;

pub use laws::{
    births_follow, heirs_lead, joints_stay, nothing_breaks, room_is_spent, runs_come_back,
    runs_come_to, runs_end, runs_end_so, runs_open, runs_stay, runs_stay_heired, takers_have,
    turns_are_orderly, turns_go_on, work_is_bounded,
};
pub use legs::{
    legs_come_to, nothing_breaks_over_legs, room_over_legs, tags_stay_low, work_over_legs,
};
pub use moments::{runners_are_counted, runs_are_orderly, seekers_are_idle, what_is_left_ends_so};
