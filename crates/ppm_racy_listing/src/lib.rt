//! Listings with exchanges: the lines of a listing, and a line `cam a b o n L` for a
//! compare-and-modify.
//! Model: a listing is that of the code with puts, in which the line of each exchange says `cam`
//! and one register more (`specs/Listing`).
//! Contract: a text with puts in place of its `cam` lines is read as a listing, and its code then
//! has the exchanges of these lines.
//! A text has a fault exactly where it is the listing of no code.
//! Stands on `ppm_racy` and `ppm_listing_reader`; `ppm_racy_case` reads cases with it.
//! After the listings of `ppm_listing`; the line is this project's.
#![tactic(auto)]

mod exchanges;
mod laws;
mod plain;
mod reading;

pub use exchanges::with_exchanges;
pub use laws::{plain_listings_stay, racy_faults_tell_listings};
pub use plain::{Plain, plain_text};
pub use reading::read_racy_listing;
