//! Which capsules of a code are ordered and filled, as far as paths tell: faults of these are
//! invisible though strands race, where what they do stands without faults.
//! Model: the strands of a code as those of `ppm_unseen` (`specs/Racing`), and paths through
//! instructions (`specs/Filled`).
//! Contract: laws alone; a code whose paths are filled and have no conflict has capsules that are
//! ordered and filled, and its faults are invisible where what they do stands; the strands are
//! those of the code, capsule by capsule (`specs/Alone`).
//! Stands on `ppm_code` and `ppm_unseen`; `ppm_gaps` and `ppm_racy` stand on it.
//! After the capsules with compare-and-modify of Blelloch et al., SPAA 2018; the conditions are
//! this project's.
#![tactic(auto)]

mod laws;

pub use laws::{
    a_racy_read_is_filled, faults_of_filled_paths_are_invisible, filled_paths_are_filled,
    racing_code_is_of_the_code,
};
