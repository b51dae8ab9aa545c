//! The first fault of some lines.
ghost use Rattle.std.specs.Prelude.{◌≡◌, ◌+◌, ◌<◌, ◌^◌, MatchOption, Some, length};
ghost use Rattle.ppm_listing_reader.specs.Faults.{IsLeastRule, IsFirstBreak, KeepsRules};
ghost use Rattle.ppm_listing_reader.specs.Faults.{ends_early as is_early};
ghost use Rattle.ppm_listing_reader.specs.declared.listing_error.Fault.TheVariants.{NotThere};
ghost use Rattle.ppm_listing_reader.specs.declared.place.Place.TheVariants.{AtVersion};

use crate::listing_error::Fault;
use crate::outline::Outline;
use crate::part::Part;
use crate::place::Place;
use crate::rules::{has_wrong_room, is_no_end, is_not_forward, is_not_there, is_out_of_range};

/// The rule of the least number that a line of some form breaks.
fn part_fault(code: &Outline, place: Place, part: &Part) -> Option<Fault>
    ensures { IsLeastRule code.now place (Some part.now) result }
{
    if is_out_of_range(code, place, part) {
        return Some(Fault::OutOfRange);
    }
    if is_not_forward(code, place, part) {
        return Some(Fault::NotForward);
    }
    if is_no_end(code, place, part) {
        return Some(Fault::NoEnd);
    }
    if has_wrong_room(code, place, part) {
        return Some(Fault::WrongRoom);
    }
    if is_not_there(code, place, part) {
        return Some(Fault::NotThere);
    }
    None
}

/// The rule of the least number that a line breaks.
fn line_fault(code: &Outline, place: Place, line: &Option<Part>) -> Option<Fault>
    ensures { IsLeastRule code.now place line.now result }
{
    match line {
        Some(part) => part_fault(code, place, part),
        None => Some(Fault::NoSuchForm),
    }
}

/// Whether a text may not end at a place: no capsule has come.
fn ends_early(place: Place) -> bool
    ensures { result ≡ is_early NotThere place }
{
    match place {
        Place::Within { .. } => false,
        Place::AtVersion | Place::AtRoot | Place::AtProcedure { .. } => true,
    }
}

/// The first fault of lines that declare a code, with its line from 0.
pub(crate) fn first_fault(code: &Outline, lines: &[Option<Part>]) -> Option<(Fault, u32)>
    requires { length lines.now + 1 < 2 ^ 32 }
    ensures { MatchOption result
        (KeepsRules code.now AtVersion lines.now)
        (λ p. IsFirstBreak code.now AtVersion lines.now p.0 p.1) }
{
    let mut place = Place::AtVersion;
    let mut number: u32 = 0;
    let mut left = lines;
    while let [line, rest @ ..] = left {
        if let Some(fault) = line_fault(code, place, line) {
            return Some((fault, number));
        }
        place = place.next(line);
        number += 1;
        left = rest;
    }
    if ends_early(place) {
        return Some((Fault::NotThere, number));
    }
    None
}
