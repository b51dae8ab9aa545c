//! Frames have no words but their slots, and new blocks are filled in slots alone; laws alone.
//! Model: the strands and capsules of a code (`ppm_code`).
//! Contract: a frame with 0 after its slots opens and becomes such frames; what a capsule of a
//! tidy code writes into its block is a slot of a frame that its end builds.
//! Stands on `ppm_code`; the machine's frames (`ppm_ends`, `ppm_frames`) are to show these strands.
//! After the capsules of Blelloch et al., SPAA 2018; slots are this project's.
#![tactic(auto)]

mod laws;

pub use laws::{frames_stay_trim, writes_are_slots};
