//! Reads listings.
ghost use Rattle.std.specs.Prelude.{◌≡◌, ◌≤◌, ◌<◌, nat_lt, length, is_some, false, if◌then◌else◌};
ghost use Rattle.std.specs.Prelude.{IfOk, IfErr};
ghost use Rattle.ppm_listing.specs.Listing.{listing_of};
ghost use Rattle.ppm_listing.specs.Correct.{NumbersFit};
ghost use Rattle.ppm_listing_reader.specs.Limits.{listing_limit};
ghost use Rattle.ppm_listing_reader.specs.Places.{standing};
ghost use Rattle.ppm_listing_reader.specs.declared.place.Place.TheVariants.{AtVersion};
ghost use Rattle.ppm_listing_reader.specs.declared.listing_error.ListingError.TheVariants.{NotThere};
ghost use Rattle.ppm_listing_reader.specs.declared.listing_error.ListingError.TheVariants.{NoSuchForm};
ghost use Rattle.ppm_listing_reader.specs.Correct.{IsRefusal, standing_of};
ghost use Rattle.ppm_listing_reader.specs.Fronts.{HasRead};

use crate::declared::declared;
use crate::first::first_fault;
use crate::listing_error::ListingError;
use crate::part::{Part, read_line};
use crate::place::Place;
use crate::reader::Reader;
use crate::token::Token;
use ppm_code::Code;
use ppm_pieces::split_once;
use ppm_words::NoMemory;
use std::alloc::Global;

/// The bytes of a listing, at most.
pub const LISTING_LIMIT: usize = 536_870_912;

/// What was read of a text, line by line.
fn read_lines(alloc: Global, text: &[u8]) -> Result<Reader, NoMemory>
    requires { length text.now ≤ listing_limit }
    ensures lines { IfOk result (λ r. HasRead r (standing_of text.now)) }
    ensures most { IfOk result (λ r. length r.kept.items ≤ length text.now) }
{
    let mut reader = Reader::new(alloc);
    let mut tokens = Vec::new(alloc);
    let mut left = text;
    while let Some((bytes, rest)) = split_once(left, b'\n') {
        reader.take(read_line(alloc, bytes, &mut tokens)?)?;
        left = rest;
    }
    if left.is_empty() {
        return Ok(reader);
    }
    reader.take(None)?;
    Ok(reader)
}

/// Whether so many bytes are more than a listing may have.
fn is_too_long(bytes: usize) -> bool
    ensures { result ≡ nat_lt listing_limit bytes }
{
    bytes > LISTING_LIMIT
}

/// The fault of a text with too many bytes, by its first line: that stands, or it does not.
fn too_long_by(line: Option<Part>) -> ListingError
    ensures { result ≡ (if is_some (standing AtVersion line) then NotThere 1 else NoSuchForm 1) }
{
    match Place::AtVersion.standing(line) {
        Some(_) => ListingError::NotThere(1),
        None => ListingError::NoSuchForm(1),
    }
}

/// The first fault of a text with too many bytes.
fn too_long(alloc: Global, text: &[u8]) -> Result<ListingError, NoMemory>
    requires { listing_limit < length text.now }
    ensures { IfOk result (IsRefusal text.now) }
{
    match split_once(text, b'\n') {
        Some((bytes, _)) => {
            let line = read_line(alloc, bytes, &mut Vec::new(alloc))?;
            Ok(too_long_by(line))
        }
        None => Ok(ListingError::NoSuchForm(1)),
    }
}

/// Whether the first line of a text stands, if it has a whole one. Where it does not, the rest need
/// not be read.
fn begins(alloc: Global, text: &[u8]) -> Result<bool, NoMemory>
    ensures { IfOk result (λ stands. stands ≡ false → IsRefusal text.now (NoSuchForm 1)) }
{
    match split_once(text, b'\n') {
        Some((bytes, _)) => {
            let line = read_line(alloc, bytes, &mut Vec::new(alloc))?;
            Ok(Place::AtVersion.standing(line).is_some())
        }
        None => Ok(true),
    }
}

/// The code of a listing. `Err` with the first fault of a text that is none, or where memory is
/// refused: no more lines are kept than the largest code has.
pub fn read_listing(alloc: Global, text: &[u8]) -> Result<Code, ListingError>
    ensures ok { IfOk result (λ code. text.now ≡ listing_of code) }
    ensures fits { IfOk result (λ code. NumbersFit code) }
    ensures err { IfErr result (IsRefusal text.now) }
{
    if is_too_long(text.len()) {
        return Err(too_long(alloc, text)?);
    }
    if !begins(alloc, text)? {
        return Err(ListingError::NoSuchForm(1));
    }
    let read = read_lines(alloc, text)?;
    match first_fault(&read.outline, &read.kept) {
        Some((fault, line)) => Err(fault.at(line + 1)),
        None => Ok(Code::from_parts(declared(alloc, &read.kept)?)),
    }
}
