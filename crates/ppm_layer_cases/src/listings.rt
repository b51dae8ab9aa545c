//! Listings and saved texts: whether they are read, and written again as they stand, or by which
//! number and line they are refused.
use crate::said::Said;
use ppm_listing::write_listing;
use ppm_listing_reader::{ListingError, read_listing};
use ppm_saved::write_saved;
use ppm_saved_reader::{SavedError, read_saved};
use ppm_sheets::Fault;
use ppm_words::NoMemory;
use std::alloc::Global;

/// `listing`: whether a listing is read and written again.
pub(crate) fn listing(alloc: Global, text: &[u8]) -> Result<Said, Fault> {
    match read_listing(alloc, text) {
        Ok(code) => again(alloc, text, write_listing(alloc, &code)),
        Err(ListingError::NoMemory) => Err(Fault::NoMemory),
        Err(error) => refused(alloc, error.number(), error.line()),
    }
}

/// `saved`: whether a saved text is read and written again.
pub(crate) fn saved(alloc: Global, text: &[u8]) -> Result<Said, Fault> {
    match read_saved(alloc, text) {
        Ok(saved) => {
            let words = saved.words.as_slice();
            let written = write_saved(alloc, &saved.code, saved.shape, &saved.names, words);
            again(alloc, text, written)
        }
        Err(SavedError::NoMemory) => Err(Fault::NoMemory),
        Err(error) => refused(alloc, error.number(), error.line()),
    }
}

/// `as it stands`, where the text that is written again is the one that was read; else that text.
fn again(alloc: Global, read: &[u8], written: Result<Vec<u8>, NoMemory>) -> Result<Said, Fault> {
    match written {
        Ok(written) => {
            if written.as_slice() == read {
                return Said::of_text(alloc, "as it stands\n");
            }
            Ok(Said::Out(written))
        }
        Err(NoMemory) => Err(Fault::NoMemory),
    }
}

/// What is said of a text that is refused.
fn refused(alloc: Global, number: u32, line: u32) -> Result<Said, Fault> {
    Ok(Said::Refused(format!(in alloc; "{number} line {line}\n")?))
}
