//! That the machine begins as the depth-first run does; laws alone.
//! Model: an image (`ppm_layout`), and the strand and words with which the depth-first run begins
//! (`ppm_depth`).
//! Contract: the frame at the keeper's place shows that strand, and the array words are those
//! words; as trees of strands and words by cells they are one (`ShowsTheRun`).
//! Stands on `ppm_layout` and `ppm_depth`, so that neither stands on the other, and on `ppm_frames`;
//! `ppm_outcomes` carries by it what is said of the machine's runs over to the program's meaning.
//! After the root of a fork-join computation in Blelloch et al., SPAA 2018; images are this
//! project's.
#![tactic(auto)]

mod laws;

pub use laws::images_begin_the_depth_first_run;
