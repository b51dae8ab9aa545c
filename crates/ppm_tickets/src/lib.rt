//! Where each forked branch is along a run, and that none is taken twice; laws alone.
//! Model: the words of a machine by spots (`specs/View`), the home of each branch (`specs/Homes`),
//! and what always holds of both (`specs/Lawful`, `specs/Saw`).
//! Contract: in every run of orderly turns (`specs/Along`, `IsOrderly`) deques have their shape, by
//! entries but for what was inherited; entries change lawfully, and no branch is taken twice; what
//! a place is about to go on with by entries was not followed before (`specs/Heirs`).
//! Stands on `ppm_step`; what turns owe is for the frames to show (`ppm_kept`).
//! After the scheduler of Blelloch et al., SPAA 2018, and Chase and Lev's deque, SPAA 2005;
//! takeover by entries is this project's.
#![tactic(auto)]

mod laws;

pub use laws::{
    entries_change_lawfully, heirs_follow, heirs_see, images_open, in_every_run,
    in_every_run_by_entries, places_stay_home, resumes, turns_follow,
};
