//! What could stand at a place of a line.
ghost use Rattle.std.specs.Prelude.{◌≡◌, ◌++◌, OnOk};
ghost use Rattle.ppm_notes.specs.Words.{keywords_text, more_keywords, sort_text, wanted_text};

use ppm_explain::{push_quoted, push_word};
use ppm_listing::Keyword;
use ppm_listing_reader::Sort;
use ppm_pieces::push_number;
use ppm_words::NoMemory;

/// What could stand at a place of a line after its keyword.
#[derive(Clone, Copy, Debug)]
pub enum Wanted {
    /// A word of this sort.
    Word(Sort),
    /// This number.
    Number(u64),
    /// The end of the line.
    End,
}

/// A sort of words.
fn sort_name(sort: Sort) -> &'static str
    ensures { result.now ≡ sort_text sort }
{
    match sort {
        Sort::Register => "a register",
        Sort::Number => "a number",
        Sort::Constant => "a constant",
        Sort::Slot => "a slot or `-`",
        Sort::Version => "`1`",
        Sort::Slots => "`slots`",
        Sort::Entry => "`entry`",
        Sort::Proc => "`proc`",
    }
}

/// Appends a sort of words.
pub(crate) fn push_sort(text: &mut Vec<u8>, sort: Sort) -> Result<(), NoMemory>
    ensures { OnOk result (text.new.items ≡ text.old.items ++ sort_text sort) }
{
    push_word(text, sort_name(sort))
}

/// Appends what could stand at a place.
pub(crate) fn push_wanted(text: &mut Vec<u8>, wanted: Wanted) -> Result<(), NoMemory>
    ensures { OnOk result (text.new.items ≡ text.old.items ++ wanted_text wanted) }
{
    match wanted {
        Wanted::Word(sort) => push_sort(text, sort),
        Wanted::Number(number) => {
            push_word(text, "`")?;
            push_number(text, number)?;
            push_word(text, "`")
        }
        Wanted::End => push_word(text, "the end of the line"),
    }
}

/// Appends keywords after others.
fn push_more_keywords(text: &mut Vec<u8>, keywords: &[Keyword]) -> Result<(), NoMemory>
    ensures { OnOk result (text.new.items ≡ text.old.items ++ more_keywords keywords.now) }
{
    let mut left = keywords;
    'keywords: while let Some((keyword, rest)) = left.split_first() {
        push_word(text, ", ")?;
        push_quoted(text, keyword.spelling())?;
        left = rest;
    }
    Ok(())
}

/// Appends keywords, with a comma between each two.
pub(crate) fn push_keywords(text: &mut Vec<u8>, keywords: &[Keyword]) -> Result<(), NoMemory>
    ensures { OnOk result (text.new.items ≡ text.old.items ++ keywords_text keywords.now) }
{
    match keywords.split_first() {
        None => Ok(()),
        Some((first, rest)) => {
            push_quoted(text, first.spelling())?;
            push_more_keywords(text, rest)
        }
    }
}
