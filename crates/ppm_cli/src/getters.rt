//! What the matches of a command hold of its options, by the form of the value.
ghost use Rattle.std.specs.Prelude.{◌≡◌, ◌≤◌, IfOk, IfSome, codes, map, option_map};
ghost use Rattle.std.specs.Str.{bytes_eq};
ghost use Rattle.clap.specs.Words.{first_of, found_of, rows_of};
ghost use Rattle.ppm_cli.specs.Application.{choice_rule, number_rule, text_rule};
ghost use Rattle.ppm_cli.specs.CommandLine.{AnyText};
ghost use Rattle.ppm_cli.specs.Values.{choice_given, kept_in as kept, number_given, text_given};
ghost use Rattle.ppm_cli.specs.Values.{stated_given, stated_in, text_in, value_among as value_by};

use crate::table::{ChoiceOption, NumberOption, TextOption};
use clap::ArgMatches;
use ppm_words::Items;
use std::alloc::{AllocError, Global};

/// The number of an option in the matches of its command, if its text writes one in the option's
/// range.
pub(crate) fn number_of(matches: &ArgMatches<'_>, option: NumberOption) -> Option<u32>
    ensures value { result ≡ number_given (number_rule option) (rows_of (found_of matches.now)) }
    ensures in_range { IfSome result (λ n. (option.low ≤ n) × (n ≤ option.high)) }
{
    let number = matches.get_one::<u32>(option.name)?;
    kept_in(number, option.low, option.high)
}

/// The number, if it is in the range.
fn kept_in(number: u32, low: u32, high: u32) -> Option<u32>
    ensures value { result ≡ kept low high number }
    ensures in_range { IfSome result (λ n. (low ≤ n) × (n ≤ high)) }
{
    if low <= number && number <= high {
        Some(number)
    } else {
        None
    }
}

/// What an option stands for whose value is one of some words, of these values in the order of the
/// words.
pub(crate) fn choice_of<T: Copy>(
    matches: &ArgMatches<'_>,
    option: ChoiceOption,
    values: &[T],
) -> Option<T>
    ensures { result
        ≡ choice_given (choice_rule option) values.now (rows_of (found_of matches.now)) }
{
    let word = text_of(matches, option.name)?;
    value_among(option.words, values, word)
}

/// The value that a word stands for among these words, which stand in the order of the values.
fn value_among<T: Copy>(words: &[&str], values: &[T], word: &str) -> Option<T>
    ensures { result ≡ value_by (map (λ w. w.now) words.now) values.now word.now }
{
    match (words.split_first(), values.split_first()) {
        (Some((first, other_words)), Some((value, other_values))) => {
            if word == *first {
                Some(*value)
            } else {
                value_among(other_words, other_values, word)
            }
        }
        (Some(_), None) | (None, Some(_)) | (None, None) => None,
    }
}

/// The bytes of an option whose value is any text that does not begin with a hyphen.
pub(crate) fn bytes_of(
    alloc: Global,
    matches: &ArgMatches<'_>,
    option: TextOption,
) -> Result<Option<Items<u8>>, AllocError>
    ensures { IfOk result (λ bytes. bytes
        ≡ text_given (text_rule option) (rows_of (found_of matches.now))) }
{
    match text_of(matches, option.name) {
        Some(text) => free_text(alloc, text.as_bytes()),
        None => Ok(None),
    }
}

/// The text of these bytes, if the first is no hyphen.
fn free_text(alloc: Global, bytes: &[u8]) -> Result<Option<Items<u8>>, AllocError>
    ensures { IfOk result (λ text. text ≡ text_in AnyText bytes.now) }
{
    match bytes {
        [b'-', ..] => Ok(None),
        _ => Ok(Some(Items::from_vec(bytes.to_vec(alloc)?))),
    }
}

/// The bytes of an option whose value is any text that does not begin with a hyphen, if it is
/// stated: `unstated` says that there is none.
pub(crate) fn stated_of(
    alloc: Global,
    matches: &ArgMatches<'_>,
    option: TextOption,
) -> Result<Option<Option<Items<u8>>>, AllocError>
    ensures { IfOk result (λ bytes. bytes
        ≡ stated_given (text_rule option) (rows_of (found_of matches.now))) }
{
    match text_of(matches, option.name) {
        Some(text) => stated(alloc, text.as_bytes()),
        None => Ok(None),
    }
}

/// Whether bytes say that nothing is stated.
fn is_unstated(bytes: &[u8]) -> bool
    ensures { result ≡ bytes_eq bytes.now (codes "unstated") }
{
    bytes == b"unstated".as_slice()
}

/// The text of these bytes, if it is stated.
fn stated(alloc: Global, bytes: &[u8]) -> Result<Option<Option<Items<u8>>>, AllocError>
    ensures { IfOk result (λ text. text ≡ stated_in AnyText bytes.now) }
{
    if is_unstated(bytes) {
        return Ok(Some(None));
    }
    match free_text(alloc, bytes)? {
        Some(text) => Ok(Some(Some(text))),
        None => Ok(None),
    }
}

/// The text of the option of this name in the matches of its command.
fn text_of<'a>(matches: &ArgMatches<'a>, name: &str) -> Option<&'a str>
    ensures { option_map (λ s. s.now) result ≡ first_of name.now (rows_of (found_of matches.now)) }
{
    matches.get_str(name)
}
