//! The opening words of the machine: what stands in each cell before the first step.
//! Model: a function from cells to words, told by the values that they stand for (`specs/Opening`).
//! Contract: `image` gives as many words as the shape has, and in each cell its opening word.
//! Stands on `ppm_cells` and `ppm_code`; `ppm_core` loads the machine from an image.
//! After the frames, deques and restart pointers of Blelloch et al., SPAA 2018; the layout is this
//! project's.
#![tactic(auto)]

mod images;
mod laws;
mod opening;
mod root;
mod sequence;
mod start;

pub use images::Image;
pub use laws::{images_are_one, images_begin_with_the_root, words_stand_for_values};
pub use opening::image;
pub use ppm_code::{fork_size, frame_size};
