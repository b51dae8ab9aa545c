//! What is still to come, as a stack of items, of which the last comes first.
ghost use Rattle.std.specs.Prelude.{◌≡◌, ◌++◌, IfOk};
ghost use Rattle.ppm_rows.specs.Language.{language};
ghost use Rattle.ppm_expected.specs.Machine.{comes_first, may_end};
ghost use Rattle.ppm_expected.specs.Language.{terminal_of, item_of, items_of, to_come};
ghost use Rattle.ppm_expected.specs.Steps.{Enters, Advances};

use crate::choice::{begins, lacks, row_for};
use crate::row::Item;
use crate::terminal::Terminal;
use ppm_words::NoMemory;

/// Whether a token of the kind can come first.
pub(crate) fn can_come(stack: &[Item], kind: Terminal) -> bool
    ensures { result ≡ comes_first language (to_come stack.now) (terminal_of kind) }
{
    let mut left = stack;
    'items: while let Some((last, rest)) = left.split_last() {
        if begins(*last, kind) {
            return true;
        }
        if !lacks(*last) {
            return false;
        }
        left = rest;
    }
    false
}

/// Whether a text may end.
pub(crate) fn can_end(stack: &[Item]) -> bool
    ensures { result ≡ may_end language (to_come stack.now) }
{
    let mut left = stack;
    'items: while let Some((last, rest)) = left.split_last() {
        if !lacks(*last) {
            return false;
        }
        left = rest;
    }
    true
}

/// Puts the items on the stack, so that the first of them comes first.
fn push_items(stack: &mut Vec<Item>, items: &[Item]) -> Result<(), NoMemory>
    ensures { IfOk result (λ _. to_come stack.new.items ≡ items_of items.now ++ to_come stack.old.items) }
{
    let mut left = items;
    'items: while let Some((last, rest)) = left.split_last() {
        stack.push(*last)?;
        left = rest;
    }
    Ok(())
}

/// What a token of the kind leaves to come, where the item can begin with it and the stack comes
/// after the item.
fn enter(stack: &mut Vec<Item>, item: Item, kind: Terminal) -> Result<(), NoMemory>
    ensures { IfOk result (λ _. Enters (item_of item) (terminal_of kind)
        (to_come stack.old.items) (to_come stack.new.items)) }
{
    match item {
        Item::Take(_) => Ok(()),
        Item::Part(phrase) => match row_for(phrase, kind) {
            Some(items) => match items.split_first() {
                Some((first, rest)) => {
                    push_items(stack, rest)?;
                    enter(stack, *first, kind)
                }
                None => Ok(()),
            },
            None => Ok(()),
        },
    }
}

/// What a token of the kind leaves to come, where it can come first.
pub(crate) fn advance(stack: &mut Vec<Item>, kind: Terminal) -> Result<(), NoMemory>
    ensures { IfOk result (λ _. Advances (terminal_of kind)
        (to_come stack.old.items) (to_come stack.new.items)) }
{
    'items: while let Some(item) = stack.pop() {
        if begins(item, kind) {
            return enter(stack, item, kind);
        }
    }
    Ok(())
}
