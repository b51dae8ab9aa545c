//! What is due at each place of a line of a saved text, or of a line of a case above its listing.
ghost use Rattle.std.specs.Prelude.{◌≡◌, ◌++◌, get_or, OnOk};
ghost use Rattle.ppm_pieces.specs.Pieces.{split};
ghost use Rattle.ppm_case.specs.Rules.{said_fits as said_fits_in};
ghost use Rattle.ppm_case.specs.Spelling.{run_in as value_in};
ghost use Rattle.ppm_saved_reader.specs.Lines.{run_in as run_of};
ghost use Rattle.ppm_explain.specs.Words.{counted_text};
ghost use Rattle.ppm_notes.specs.Dues.{due_notes, due_text, has_word as has_some_word, index_text};
ghost use Rattle.ppm_notes.specs.Dues.{may_be as may_be_there, often_text, range_text, run_text, spelling};
ghost use Rattle.ppm_notes.specs.Dues.{standing as standing_in, stop_after, value_text};
ghost use Rattle.ppm_notes.specs.declared.due.Due.TheVariants as variants;

use crate::listing::push_stop_text;
use crate::words::after_words;
use ppm_case::{is_array_name, run_in as values_in};
use ppm_explain::{line_bytes, push_quoted, push_word};
use ppm_pieces::{is_numeral, push_number, same_bytes, split_once, value};
use ppm_saved_reader::run_in;
use ppm_words::NoMemory;
use std::alloc::Global;

/// A word that is always the same.
#[derive(Clone, Copy, Debug)]
pub enum Literal {
    Saved,
    /// The number of the version.
    One,
    Shape,
    Array,
    Code,
    Words,
    Ppm,
    Root,
}

/// What may stand at a place of a line. A range with `ranged` is kept; else any number may stand
/// there, and the range is only told.
#[derive(Clone, Copy, Debug)]
pub enum Due {
    /// This word.
    This(Literal),
    /// A number from `least` to `most`.
    Number { least: u64, most: u64, ranged: bool },
    /// A number up to `most`; up to `bound` it may stand there.
    Length { most: u64, bound: u64 },
    /// The name of an array.
    Name,
    /// Such a name in place of one that an array above has.
    OtherName,
    /// A value, or some in a row, of an array with so much room, or the end of the line.
    Value { room: u64, ranged: bool },
    /// The number of one of so many arrays, or the end of the line.
    Index { count: u64 },
    /// The word `array` or the word `code`, in place of another.
    ArrayOrCode,
    /// A word of a machine, or some in a row, where so many are left.
    Run { left: u64, ranged: bool },
    /// Such a word in place of that of the line above.
    OtherRun { left: u64 },
    /// The end of the text, in place of a line.
    EndOfText,
    /// The end of the line.
    End,
}

impl Literal {
    /// How it is spelled.
    pub fn spelling(self) -> &'static str
        ensures { result.now ≡ spelling self }
    {
        match self {
            Literal::Saved => "saved",
            Literal::One => "1",
            Literal::Shape => "shape",
            Literal::Array => "array",
            Literal::Code => "code",
            Literal::Words => "words",
            Literal::Ppm => "ppm",
            Literal::Root => "root",
        }
    }
}

/// Whether what a word says of values is in its range, where there is room for so many.
fn values_fit(room: u64, word: &[u8]) -> bool
    ensures { result ≡ said_fits_in room (value_in word.now) }
{
    match values_in(word) {
        None => false,
        Some(run) => run.number.is_some() && (1 <= run.times && run.times <= room),
    }
}

/// Whether a word that may be repeated has 64 bits.
fn has_word(bytes: &[u8]) -> bool
    ensures { result ≡ has_some_word (run_of bytes.now) }
{
    match run_in(bytes) {
        None => false,
        Some((word, _)) => word.is_some(),
    }
}

/// Whether a word may stand where it is due.
fn may_be(due: Due, word: &[u8]) -> bool
    ensures { result ≡ may_be_there due word.now }
{
    match due {
        Due::This(literal) => same_bytes(word, literal.spelling().as_bytes()),
        Due::Number {
            least,
            most,
            ranged,
        } => is_numeral(word) && (!ranged || (least <= value(word) && value(word) <= most)),
        Due::Length { bound, .. } => is_numeral(word) && value(word) <= bound,
        Due::Name => is_array_name(word),
        Due::Value { room, ranged } => {
            values_in(word).is_some() && (!ranged || values_fit(room, word))
        }
        Due::Index { count } => is_numeral(word) && value(word) < count,
        Due::Run { ranged, .. } => run_in(word).is_some() && (!ranged || has_word(word)),
        Due::OtherName | Due::ArrayOrCode | Due::OtherRun { .. } | Due::EndOfText | Due::End =>
            false,
    }
}

/// Appends a number from one to another, in words.
fn push_range(text: &mut Vec<u8>, least: u64, most: u64) -> Result<(), NoMemory>
    ensures { OnOk result (text.new.items ≡ text.old.items ++ range_text least most) }
{
    if least == most {
        push_word(text, "`")?;
        push_number(text, most)?;
        return push_word(text, "`");
    }
    push_word(text, "a number from ")?;
    push_number(text, least)?;
    push_word(text, " to ")?;
    push_number(text, most)?;
    Ok(())
}

/// Appends a number after words.
fn push_counted(text: &mut Vec<u8>, words: &str, number: u64) -> Result<(), NoMemory>
    ensures { OnOk result (text.new.items ≡ text.old.items ++ counted_text words.now number) }
{
    push_word(text, words)?;
    push_number(text, number)?;
    Ok(())
}

/// Appends what could stand where there is room for so many values.
fn push_value(text: &mut Vec<u8>, room: u64) -> Result<(), NoMemory>
    ensures { OnOk result (text.new.items ≡ text.old.items ++ value_text room) }
{
    if room == 0 {
        return push_word(text, "the end of the line");
    }
    push_counted(text, "a value, a value and `*N` with N from 1 to ", room)?;
    push_word(text, ", the end of the line")
}

/// Appends what could stand where one of so many arrays is named.
fn push_index(text: &mut Vec<u8>, count: u64) -> Result<(), NoMemory>
    ensures { OnOk result (text.new.items ≡ text.old.items ++ index_text count) }
{
    if count == 0 {
        return push_word(text, "the end of the line");
    }
    push_range(text, 0, count.saturating_sub(1))?;
    push_word(text, ", the end of the line")
}

/// Appends how often a word of a machine may come in a row, where so many are left.
fn push_often(text: &mut Vec<u8>, left: u64) -> Result<(), NoMemory>
    ensures { OnOk result (text.new.items ≡ text.old.items ++ often_text left) }
{
    if 1 < left {
        return push_counted(text, ", such a number and `*N` with N from 2 to ", left);
    }
    Ok(())
}

/// Appends words, and after them how often a word of a machine may come in a row.
fn push_repeated(text: &mut Vec<u8>, words: &str, left: u64) -> Result<(), NoMemory>
    ensures { OnOk result (text.new.items ≡ text.old.items ++ (words.now ++ often_text left)) }
{
    push_word(text, words)?;
    push_often(text, left)
}

/// Appends what could stand where so many words of a machine are left.
fn push_run(text: &mut Vec<u8>, left: u64) -> Result<(), NoMemory>
    ensures { OnOk result (text.new.items ≡ text.old.items ++ run_text left) }
{
    push_repeated(
        text,
        "a number up to 18446744073709551615 but that of the line above",
        left,
    )
}

/// Appends what could stand where this is due.
fn push_due(text: &mut Vec<u8>, due: Due) -> Result<(), NoMemory>
    ensures { OnOk result (text.new.items ≡ text.old.items ++ due_text due) }
{
    match due {
        Due::This(literal) => push_quoted(text, literal.spelling()),
        Due::Number { least, most, .. } => push_range(text, least, most),
        Due::Length { most, .. } => push_range(text, 0, most),
        Due::Name | Due::OtherName => push_word(
            text,
            "a name that is no word of the language and of no array above",
        ),
        Due::Value { room, .. } => push_value(text, room),
        Due::Index { count } => push_index(text, count),
        Due::ArrayOrCode => push_word(text, "`array`, `code`"),
        Due::Run { left, .. } => push_run(text, left),
        Due::OtherRun { left } => push_run(text, left),
        Due::EndOfText => push_word(text, "the end of the text"),
        Due::End => push_word(text, "the end of the line"),
    }
}

/// How many words of a line stand where they are due, in front of the first that may not.
#[tactic(auto, using(crate::proofs::DueLemmas::next_stands, crate::proofs::DueLemmas::last_stands, crate::proofs::DueLemmas::one_stops))]
fn standing(dues: &[Due], line: &[u8]) -> usize
    ensures { result ≡ standing_in dues.now (split 32 line.now) }
{
    let mut ahead = dues;
    let mut left = line;
    let mut count = 0;
    'words: while let Some((due, more)) = ahead.split_first() {
        match split_once(left, b' ') {
            Some((word, rest)) => {
                if !may_be(*due, word) {
                    return count;
                }
                ahead = more;
                left = rest;
                count += 1;
            }
            None => {
                if !may_be(*due, left) {
                    return count;
                }
                return count + 1;
            }
        }
    }
    count
}

/// What is due after so many words.
fn due_at(dues: &[Due], count: usize) -> Due
    ensures { result ≡ get_or dues.now count variants.End }
{
    match dues.get(count) {
        Some(due) => *due,
        None => Due::End,
    }
}

/// Appends the word after so many of a line, with a mark under it, and what could stand there.
fn push_stop_after(
    alloc: Global,
    notes: &mut Vec<u8>,
    text: &[u8],
    line: u32,
    dues: &[Due],
    count: usize,
) -> Result<(), NoMemory>
    ensures { OnOk result (notes.new.items ≡ notes.old.items ++ stop_after text.now line dues.now count) }
{
    let mut expected = Vec::new(alloc);
    push_due(&mut expected, due_at(dues, count))?;
    let rest = after_words(line_bytes(text, line as usize), count);
    push_stop_text(notes, text, line, rest, &expected)
}

/// Appends the first word of a line that may not stand there, with a mark under it, and what could.
pub(crate) fn push_dues(
    alloc: Global,
    notes: &mut Vec<u8>,
    text: &[u8],
    line: u32,
    dues: &[Due],
) -> Result<(), NoMemory>
    ensures { OnOk result (notes.new.items ≡ notes.old.items ++ due_notes text.now line dues.now) }
{
    let count = standing(dues, line_bytes(text, line as usize));
    push_stop_after(alloc, notes, text, line, dues, count)
}
