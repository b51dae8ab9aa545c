//! The stores of an end, in the machine's words; laws alone.
//! Model: the machine's stores of an end (`ppm_step`), and the capsules of a code with such stores
//! after them (`ppm_strands`).
//! Contract: all but one go into the new block, where no tree shows them; after them the words
//! show the tree that the end opens.
//! Stands on `ppm_step` and `ppm_layout`, so that neither stands on the other.
//! After the capsules of Blelloch et al., SPAA 2018; blocks and headers are this project's.
#![tactic(auto)]

mod laws;

pub use laws::{
    beside_keeps_with_stores, capsules_show, ends_show, ends_split, fork_is_shown,
    long_capsules_may_begin_again, stores_are_unseen,
};
