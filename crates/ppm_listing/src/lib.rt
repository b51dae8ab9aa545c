//! The listing of a code: its text of lines, of which there is one for each code.
//! Model: a listing is the text of a list of lines, a line a keyword with what it is said of
//! (`specs/Listing.antt`).
//! Contract: `write_listing` gives the listing of a code (`listing_of`), which no other has
//! (`listings_tell_codes`).
//! Stands on `ppm_code`; `ppm_listing_reader` and the command `code` stand on it.
//! After the textual form of an assembler's input, one line an instruction; the spellings are this
//! project's.
#![tactic(auto)]

mod end;
mod instr;
mod keyword;
mod laws;
mod line;
mod listing;
mod token;

pub use keyword::Keyword;
pub use laws::listings_tell_codes;
pub use listing::write_listing;
