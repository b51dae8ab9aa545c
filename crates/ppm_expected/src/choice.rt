//! Which row of a part comes, by the kind of the token in front.
ghost use Rattle.std.specs.Prelude.{◌≡◌, IfSome, is_some};
ghost use Rattle.ppm_grammar.specs.Predictive.{can_start, starts, may_be_empty};
ghost use Rattle.ppm_rows.specs.Language.{language};
ghost use Rattle.ppm_expected.specs.Machine.{can_begin, may_lack};
ghost use Rattle.ppm_expected.specs.Language.{terminal_of, phrase_of, item_of, items_of};
ghost use Rattle.ppm_expected.specs.Steps.{BeginsRow};

use crate::phrase::Phrase;
use crate::row::{Item, rows};
use crate::terminal::Terminal;

/// Whether the item can begin with a token of the kind.
#[cycle(choice)]
pub(crate) fn begins(item: Item, kind: Terminal) -> bool
    ensures { result ≡ can_begin language (item_of item) (terminal_of kind) }
{
    match item {
        Item::Take(terminal) => terminal.is(kind),
        Item::Part(phrase) => row_for(phrase, kind).is_some(),
    }
}

/// Whether the items of a row can begin with a token of the kind.
#[cycle(choice)]
fn begins_row(items: &[Item], kind: Terminal) -> bool
    ensures { result ≡ can_start language (starts language) (items_of items.now) (terminal_of kind) }
{
    match items.split_first() {
        None => false,
        Some((first, _)) => begins(*first, kind),
    }
}

/// The items of the row of the part that a token of the kind begins, if one does.
#[cycle(choice)]
pub(crate) fn row_for(phrase: Phrase, kind: Terminal) -> Option<&'static [Item]>
    ensures begins { is_some result ≡ starts language (phrase_of phrase) (terminal_of kind) }
    ensures row { IfSome result
        (λ items. BeginsRow (phrase_of phrase) (terminal_of kind) (items_of items.now)) }
{
    let mut left = rows(phrase);
    'rows: while let Some((row, rest)) = left.split_first() {
        if begins_row(row.items, kind) {
            return Some(row.items);
        }
        left = rest;
    }
    None
}

/// Whether the part may have no tokens.
fn may_be_empty(phrase: Phrase) -> bool
    ensures { result ≡ may_be_empty language (phrase_of phrase) }
{
    let mut left = rows(phrase);
    'rows: while let Some((row, rest)) = left.split_first() {
        if row.items.is_empty() {
            return true;
        }
        left = rest;
    }
    false
}

/// Whether the item may have no tokens.
pub(crate) fn lacks(item: Item) -> bool
    ensures { result ≡ may_lack language (item_of item) }
{
    match item {
        Item::Take(_) => false,
        Item::Part(phrase) => may_be_empty(phrase),
    }
}
