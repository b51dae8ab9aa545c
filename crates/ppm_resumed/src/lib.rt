//! Runs in parts: what fresh processors find of a saved state is what tickets call words that come
//! back.
//! Model: the words that `renew` gives (`ppm_saved`), and renewals as the tickets have them
//! (`ppm_tickets`).
//! Contract: the one is the other, where no holder has the last tag (`renewed_words_come_back`).
//! Stands on `ppm_saved` and `ppm_tickets`; what `ppm_outcomes` says of a resumed run stands on it.
//! After the restart from persistent memory of Blelloch et al., SPAA 2018.
#![tactic(auto)]

mod laws;

pub use laws::renewed_words_come_back;
