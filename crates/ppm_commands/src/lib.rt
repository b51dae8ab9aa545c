//! The commands that judge a text and tell no watcher: `check`, `code`, `serial`, `depth`, `races`
//! and `show`, each in the file of its name, `code` with arrays in `case`, and `check` of a code whose
//! strands may race in `racing_check`.
//! Model: a text has an answer by each: of the listing of a code, whether its capsules may be
//! stopped anywhere and begun again; of a program, its code, with or without its arrays, or its
//! outcome within a number of turns; of a case, what its depth-first run comes to within a number
//! of capsules, and whether it is sound; of a saved text, its state in words (`specs/Check`,
//! `specs/RacingCheck`, `specs/Code`, `specs/Case`, `specs/Serial`, `specs/Depth`, `specs/Races`,
//! `specs/Show`; `specs/Cases` has what `depth` and `races` share).
//! Contract: each call delivers the answer of the text that was read, or says that a port failed or
//! memory was refused, and what follows from each status is a sentence of its table (`CheckSays`,
//! `RacingCheckSays`, `CodeSays`, `CaseSays`, `SerialSays`, `DepthSays`, `RacesSays`, `ShowSays`).
//! Stands on `ppm_listing_reader`, `ppm_racy_listing`, `ppm_war` and `ppm_racy_gaps`, on
//! `ppm_program`, `ppm_cut` and `ppm_serial`, on `ppm_case`, `ppm_depth` and `ppm_races`, on
//! `ppm_saved_reader` and `ppm_show`, on `ppm_loading` for the refusals of cases, and on
//! `ppm_answers`; `ppm_explained` and `ppm_top` call it.
//! After the write-after-read conflicts of Blelloch et al., SPAA 2018; the commands and their
//! answers are this project's.
#![tactic(auto)]

mod case;
mod check;
mod code;
mod depth;
mod laws;
mod race;
mod races;
mod racing_check;
mod serial;
mod show;

pub use case::case_command;
pub use check::{check_command, conflict_told};
pub use code::code_command;
pub use depth::depth_command;
pub use laws::{
    case_texts_are_cases, case_texts_have_one_answer, cases_have_one_answer, codes_are_faithful,
    codes_have_one_answer, depth_runs_have_one_answer, instructions_have_their_lines,
    listings_have_one_answer, outcomes_have_one_answer, racing_listings_have_one_answer,
    saved_texts_have_one_answer,
};
pub use races::races_command;
pub use racing_check::racing_check_command;
pub use serial::serial_command;
pub use show::show_command;
