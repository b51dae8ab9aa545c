//! What is said of a plan or a schedule that is refused.
ghost use Rattle.std.specs.Prelude.{◌≡◌, ◌++◌, ◌-◌, IfOk, OnOk, decimal, option_map};
ghost use Rattle.ppm_explain.specs.Meanings.{note_text};
ghost use Rattle.ppm_notes.specs.Orders.{item_meaning as item_words, item_notes, item_text};
ghost use Rattle.ppm_notes.specs.Orders.{killed_meaning, many_meaning, orders_notes as notes_of_orders};
ghost use Rattle.ppm_notes.specs.Orders.{processors_meaning};

use crate::meaning::{note_of, push_note};
use crate::words::{after_pieces, column, first_piece};
use ppm_cli::ExplainedOrders;
use ppm_explain::{push_mark, push_shown, push_word};
use ppm_pieces::push_number;
use ppm_plan::PlanError;
use ppm_words::NoMemory;
use std::alloc::Global;

/// An item: what stands in front of the next comma.
fn item(rest: Option<&[u8]>) -> &[u8]
    ensures { result.now ≡ item_text (option_map (λ r. r.now) rest.entry) }
{
    match rest {
        Some(rest) => first_piece(rest, b','),
        None => b"",
    }
}

/// Appends an item by its number, from 1: its column, the text with a mark under it, and the item.
fn push_item_notes(notes: &mut Vec<u8>, text: &[u8], number: u64) -> Result<(), NoMemory>
    ensures { OnOk result (notes.new.items ≡ notes.old.items ++ item_notes text.now number) }
{
    let rest = after_pieces(text, b',', number.saturating_sub(1) as usize);
    let column = column(text, rest);
    push_word(notes, "item ")?;
    push_number(notes, number)?;
    push_word(notes, " column ")?;
    push_number(notes, column as u64)?;
    push_word(notes, "\n")?;
    push_shown(notes, text)?;
    push_mark(notes, text, column)?;
    push_word(notes, "found: `")?;
    notes.extend_from_slice(item(rest))?;
    push_word(notes, "`\n")
}

/// What an item is.
fn item_meaning(orders: ExplainedOrders) -> &'static str
    ensures { result.now ≡ item_words orders }
{
    match orders {
        ExplainedOrders::Plan =>
            "an item of a plan is `C@Ts` or `C@Th`: at turn T of processor C a soft or a hard fault, C and T below 4294967296; items have commas between them, and `none` is no item",
        ExplainedOrders::Schedule =>
            "an item of a schedule is `C` or `C>V`, a step of processor C that may look at place V, with `*N` behind it N such steps, 1 to 268435456, or `C!s` or `C!h`, a soft or a hard fault; items have commas between them, and `none` is no item",
    }
}

/// The number of the last of so many processors, which count from 0.
fn last_processor(processors: u32) -> u64
    ensures { result ≡ processors - 1 }
{
    u64::from(processors.saturating_sub(1))
}

/// Appends a note that ends in a number.
fn push_counted_note(notes: &mut Vec<u8>, words: &str, number: u64) -> Result<(), NoMemory>
    ensures { OnOk result (notes.new.items
        ≡ notes.old.items ++ note_text (words.now ++ decimal number)) }
{
    push_word(notes, "note: ")?;
    push_word(notes, words)?;
    push_number(notes, number)?;
    push_word(notes, "\n")
}

/// Appends which processors there are, and in a schedule places.
fn push_processors(
    notes: &mut Vec<u8>,
    orders: ExplainedOrders,
    processors: u32,
) -> Result<(), NoMemory>
    ensures { OnOk result (notes.new.items
        ≡ notes.old.items ++ note_text (processors_meaning orders processors)) }
{
    let last = last_processor(processors);
    match orders {
        ExplainedOrders::Plan => push_counted_note(notes, "processors are 0 to ", last),
        ExplainedOrders::Schedule => {
            push_counted_note(notes, "processors and places are 0 to ", last)
        }
    }
}

/// What is said of too many items.
fn many_words() -> &'static str
    ensures { result.now ≡ many_meaning }
{
    "there are more than 4096 items"
}

/// What is said where no processor is spared.
fn killed_words() -> &'static str
    ensures { result.now ≡ killed_meaning }
{
    "each processor has a hard fault; one has to be spared"
}

/// What is said of an item that has no form.
fn bad_item_notes(
    alloc: Global,
    orders: ExplainedOrders,
    text: &[u8],
    number: u64,
) -> Result<Vec<u8>, NoMemory>
    ensures { IfOk result (λ notes. notes.items
        ≡ item_notes text.now number ++ note_text (item_words orders)) }
{
    let mut notes = Vec::new(alloc);
    push_item_notes(&mut notes, text, number)?;
    push_note(&mut notes, item_meaning(orders))?;
    Ok(notes)
}

/// What is said of an item that names a processor which is not there.
fn no_processor_notes(
    alloc: Global,
    orders: ExplainedOrders,
    processors: u32,
    text: &[u8],
    number: u64,
) -> Result<Vec<u8>, NoMemory>
    ensures { IfOk result (λ notes. notes.items
        ≡ item_notes text.now number ++ note_text (processors_meaning orders processors)) }
{
    let mut notes = Vec::new(alloc);
    push_item_notes(&mut notes, text, number)?;
    push_processors(&mut notes, orders, processors)?;
    Ok(notes)
}

/// What is said, after the line of its refusal, of a plan or a schedule for so many processors, for
/// this error: the item with a mark under it, and what the refusal means. `Err` only where memory is
/// refused.
pub fn orders_notes(
    alloc: Global,
    orders: ExplainedOrders,
    processors: u32,
    text: &[u8],
    error: PlanError,
) -> Result<Vec<u8>, NoMemory>
    ensures { IfOk result (λ notes. notes.items ≡ notes_of_orders orders processors text.now error) }
{
    match error {
        PlanError::BadItem(number) => bad_item_notes(alloc, orders, text, number),
        PlanError::NoSuchProcessor(number) => no_processor_notes(
            alloc, orders, processors, text, number,
        ),
        PlanError::TooManyFaults => note_of(alloc, many_words()),
        PlanError::AllKilled => note_of(alloc, killed_words()),
        PlanError::NoMemory => Ok(Vec::new(alloc)),
    }
}
