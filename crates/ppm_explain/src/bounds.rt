//! How far a program passes a bound of the compiler, in words.
ghost use Rattle.std.specs.Prelude.{◌≡◌, ◌++◌, OnOk, None, Some, map, MatchOption};
ghost use Rattle.ppm_tree.specs.Tree.{procedure_of, tree_of};
ghost use Rattle.ppm_cut_bounds.specs.Bounds.{limit_of};
ghost use Rattle.ppm_excess.specs.Excess.{bound_of, excess_of};
ghost use Rattle.ppm_explain.specs.Bounds.{past_text, counted_words as words_of_counted};
ghost use Rattle.ppm_explain.specs.Bounds.{each_text, excess_text, found_excess, capsules_text, count_text};
ghost use Rattle.ppm_explain.specs.Bounds.{procedure_at as procedure_with, procedure_excess};

use crate::words::push_word;
use ppm_answers::Refusal;
use ppm_excess::{Counted, Excess, capsule_count, excess_in};
use ppm_pieces::push_number;
use ppm_tree::{Proc, Tree};
use ppm_words::{CAPSULE_LIMIT, NoMemory};
use std::alloc::Global;

/// Appends a count after words, and the most that it may be.
fn push_past(text: &mut Vec<u8>, words: &str, count: usize, limit: u32) -> Result<(), NoMemory>
    ensures { OnOk result (text.new.items ≡ text.old.items ++ past_text words.now count limit) }
{
    push_word(text, words)?;
    push_number(text, count as u64)?;
    push_word(text, ", at most ")?;
    push_number(text, u64::from(limit))?;
    push_word(text, "\n")
}

/// What is counted, in words.
fn counted_words(counted: Counted) -> &'static str
    ensures { result.now ≡ words_of_counted counted }
{
    match counted {
        Counted::Slots => "slots: ",
        Counted::Outside => "names of outside: ",
    }
}

/// The greatest count that keeps the bound.
fn limit(counted: Counted) -> u32
    ensures { result ≡ limit_of (bound_of counted) }
{
    match counted {
        Counted::Slots => 24,
        Counted::Outside => 10,
    }
}

/// Appends the line of an `each`.
fn push_each(text: &mut Vec<u8>, line: u32) -> Result<(), NoMemory>
    ensures { OnOk result (text.new.items ≡ text.old.items ++ each_text line) }
{
    push_word(text, "each: line ")?;
    push_number(text, u64::from(line))?;
    push_word(text, "\n")
}

/// Appends the count that passes a bound, and where it is that of an `each`, the line of this.
fn push_excess(text: &mut Vec<u8>, counted: Counted, excess: Excess) -> Result<(), NoMemory>
    ensures { OnOk result (text.new.items ≡ text.old.items ++ excess_text counted excess) }
{
    match excess {
        Excess::Whole(count) => push_past(text, counted_words(counted), count, limit(counted)),
        Excess::Each(line, count) => {
            push_each(text, line)?;
            push_past(text, counted_words(counted), count, limit(counted))
        }
    }
}

/// Appends what passes a bound first in a procedure, if something does.
fn push_excess_of(
    alloc: Global,
    text: &mut Vec<u8>,
    counted: Counted,
    procedure: &Proc,
) -> Result<(), NoMemory>
    ensures { OnOk result (text.new.items ≡ text.old.items
        ++ found_excess counted (excess_of (bound_of counted) (procedure_of procedure.now))) }
{
    match excess_in(alloc, counted, procedure)? {
        None => Ok(()),
        Some(excess) => push_excess(text, counted, excess),
    }
}

/// The procedure with this number, from 0.
fn procedure_at(procedures: &[Proc], number: u32) -> Option<&Proc>
    ensures { MatchOption result
        (procedure_with number (map procedure_of procedures.now) ≡ None)
        (λ p. procedure_with number (map procedure_of procedures.now) ≡ Some (procedure_of p.now)) }
{
    let mut ahead = number;
    let mut left = procedures;
    'procedures: while let Some((procedure, rest)) = left.split_first() {
        if ahead == 0 {
            return Some(procedure);
        }
        ahead = ahead.saturating_sub(1);
        left = rest;
    }
    None
}

/// Appends what passes a bound first in the procedure with this number, from 0.
fn push_excess_at(
    alloc: Global,
    text: &mut Vec<u8>,
    counted: Counted,
    tree: &Tree,
    number: u32,
) -> Result<(), NoMemory>
    ensures { OnOk result (text.new.items ≡ text.old.items
        ++ procedure_excess counted (procedure_with number (map procedure_of tree.now.procedures))) }
{
    match procedure_at(tree.procedures.as_slice(), number) {
        None => Ok(()),
        Some(procedure) => push_excess_of(alloc, text, counted, procedure),
    }
}

/// Appends how many capsules the code of a program has at most.
fn push_capsules(text: &mut Vec<u8>, tree: &Tree) -> Result<(), NoMemory>
    ensures { OnOk result (text.new.items ≡ text.old.items ++ capsules_text (tree_of tree.now)) }
{
    let count = capsule_count(tree)?;
    push_past(text, "capsules: ", count, CAPSULE_LIMIT)
}

/// Appends the count that passes the bound of a refusal.
pub(crate) fn push_count(
    alloc: Global,
    text: &mut Vec<u8>,
    tree: &Tree,
    refusal: Refusal,
) -> Result<(), NoMemory>
    ensures { OnOk result (text.new.items
        ≡ text.old.items ++ count_text (tree_of tree.now) refusal) }
{
    if refusal.number == 1 {
        return push_excess_at(alloc, text, Counted::Slots, tree, refusal.place);
    }
    if refusal.number == 2 {
        return push_capsules(text, tree);
    }
    if refusal.number == 3 {
        return push_excess_at(alloc, text, Counted::Outside, tree, refusal.place);
    }
    Ok(())
}
