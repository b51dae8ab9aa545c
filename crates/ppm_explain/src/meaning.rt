//! What refusals mean, in words.
ghost use Rattle.std.specs.Prelude.{◌≡◌, ◌++◌, OnOk};
ghost use Rattle.ppm_explain.specs.Meanings.{meaning_text};
ghost use Rattle.ppm_explain.specs.Meanings.{text_meaning as text_words};
ghost use Rattle.ppm_explain.specs.Meanings.{syntax_meaning as syntax_words};
ghost use Rattle.ppm_explain.specs.Meanings.{region_meaning as region_words};
ghost use Rattle.ppm_explain.specs.Meanings.{cut_meaning as cut_words, meaning_by};

use crate::words::push_word;
use ppm_answers::{Pass, Refusal};
use ppm_words::NoMemory;

/// What a fault of bytes means, by its number.
#[tactic(auto, unfolding(crate::specs::Meanings::text_meaning))]
fn text_meaning(number: u32) -> &'static str
    ensures { result.now ≡ text_words number }
{
    match number {
        1 => "the text is of ASCII alone, in comments too",
        2 => "no token begins with this byte; a comment begins with `#`",
        3 => "a number is 9223372036854775807 at most",
        4 => "a name has 32 bytes at most",
        5 => "a text has 1048576 bytes at most",
        _ => "",
    }
}

/// What a fault of tokens means, by its number.
#[tactic(auto, unfolding(crate::specs::Meanings::syntax_meaning))]
fn syntax_meaning(number: u32) -> &'static str
    ensures { result.now ≡ syntax_words number }
{
    match number {
        1 => "no text of the grammar has this here",
        2 => "the text ends too early: a block, a list or a statement is not closed",
        3 =>
            "with this more than 32 openings are open: `(`, `[`, `{` and a `-` in front of an operand",
        4 =>
            "with this a limit is passed: 64 arrays, 4194304 words of all arrays, 1024 procedures and blocks of `each`, 12 parameters or arguments, 48 operands and operators in the expressions of a statement",
        _ => "",
    }
}

/// What a fault of names and regions means, by its number.
#[tactic(auto, unfolding(crate::specs::Meanings::region_meaning))]
fn region_meaning(number: u32) -> &'static str
    ensures { result.now ≡ region_words number }
{
    match number {
        1 =>
            "a name of this line is not in force here: it is no parameter of the procedure, and no `let`, part or index of a block that is open here; an array is seen only as a parameter. Or it is called, and no procedure has it",
        2 =>
            "a name is declared in this line that is in force already, hidden or not; or a second array, procedure or input has it",
        3 =>
            "a region (an array, a `mut`, a `ref` or a part) stands where a number is asked for, or a number where the name of a region is",
        4 =>
            "the procedure that is called in this line has more or fewer parameters than the call has arguments",
        5 => "a region that is `ref` is written in this line, or lent to a `mut` parameter",
        6 =>
            "a region of this line is lent twice in one call or fork, both sides counted, and not to `ref` parameters alone; `split` makes two regions of one",
        7 =>
            "a region of this line is in parts here: in the block of its `split` or `each` only the parts may be used",
        8 =>
            "the program needs one `proc main`; each parameter of it is `mut` or `ref` with the name of an array, and it ends without `give`",
        9 => "the input of this line is for no array, or has more values than its array has words",
        10 => "a value is taken of a procedure that gives none: its body ends without `give`",
        11 => "both sides of a fork give their value to one name",
        12 =>
            "in the block of an `each` a region of outside is written in this line, or lent to a `mut` parameter; there only the element may be",
        13 =>
            "in the block of an `each` its index, or a number of outside, is assigned in this line",
        _ => "",
    }
}

/// What a fault of the bounds of the compiler means, by its number.
#[tactic(auto, unfolding(crate::specs::Meanings::cut_meaning))]
fn cut_meaning(number: u32) -> &'static str
    ensures { result.now ≡ cut_words number }
{
    match number {
        1 =>
            "the procedure, or the block of an `each` in it, has more than 24 slots: one for each name in force at one place, parameters among them, and two more where it assigns to an element",
        2 =>
            "the program has more than 65535 capsules: four for each statement and two for each procedure; a `give` is a statement, an `each` is five and a procedure",
        3 => "the block of an `each` in the procedure names more than 10 names of outside",
        _ => "",
    }
}

/// What a refusal means.
fn meaning(refusal: Refusal) -> &'static str
    ensures { result.now ≡ meaning_by refusal.pass refusal.number }
{
    match refusal.pass {
        Pass::Text => text_meaning(refusal.number),
        Pass::Syntax => syntax_meaning(refusal.number),
        Pass::Region => region_meaning(refusal.number),
        Pass::Cut => cut_meaning(refusal.number),
        Pass::Ram => "",
    }
}

/// Appends the line of what a refusal means.
pub(crate) fn push_meaning(text: &mut Vec<u8>, refusal: Refusal) -> Result<(), NoMemory>
    ensures { OnOk result (text.new.items ≡ text.old.items ++ meaning_text refusal) }
{
    push_word(text, "note: ")?;
    push_word(text, meaning(refusal))?;
    push_word(text, "\n")
}
