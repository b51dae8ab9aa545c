//! The form of a line.
ghost use Rattle.std.specs.Prelude.{◌≡◌, ◌++◌, OnOk};
ghost use Rattle.ppm_notes.specs.Listings.{form_end as end_of_form, form_text, sorts_text};

use crate::wanted::push_sort;
use ppm_explain::{push_quoted, push_word};
use ppm_listing::Keyword;
use ppm_listing_reader::{Sort, sorts};
use ppm_words::NoMemory;

/// Appends the sorts of the words after a keyword.
fn push_sorts(text: &mut Vec<u8>, sorts: &[Sort]) -> Result<(), NoMemory>
    ensures { OnOk result (text.new.items ≡ text.old.items ++ sorts_text sorts.now) }
{
    let mut left = sorts;
    'sorts: while let Some((sort, rest)) = left.split_first() {
        push_word(text, ", ")?;
        push_sort(text, *sort)?;
        left = rest;
    }
    Ok(())
}

/// What the form of the root's line has after its number.
fn form_end(keyword: Keyword) -> &'static str
    ensures { result.now ≡ end_of_form keyword }
{
    if keyword == Keyword::Root {
        ", then a number for each array"
    } else {
        ""
    }
}

/// Appends the form of a line by its keyword, if it has one.
pub(crate) fn push_form(text: &mut Vec<u8>, keyword: Option<Keyword>) -> Result<(), NoMemory>
    ensures { OnOk result (text.new.items ≡ text.old.items ++ form_text keyword) }
{
    match keyword {
        None => Ok(()),
        Some(keyword) => {
            push_word(text, "form: ")?;
            push_quoted(text, keyword.spelling())?;
            push_sorts(text, sorts(keyword))?;
            push_word(text, form_end(keyword))?;
            push_word(text, "\n")
        }
    }
}
