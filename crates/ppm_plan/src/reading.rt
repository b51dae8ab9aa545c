//! Reads the items of a text.
ghost use Rattle.std.specs.Prelude.{◌≡◌, IfOk, IfErr, OnOk, map, Some, ◌++◌, ◌∷◌, [], length};
ghost use Rattle.std.specs.Prelude.{codes};
ghost use Rattle.std.specs.Str.{bytes_eq};
ghost use Rattle.ppm_plan.specs.Refusals.{HasItems, IsBadItem};
ghost use Rattle.ppm_plan.specs.Fronts.{StopsAt};

use crate::item::Item;
use crate::plan_error::PlanError;
use ppm_pieces::{same_bytes, split_once};
use std::alloc::Global;

/// Whether a text says that there are no items.
fn says_none(text: &[u8]) -> bool
    ensures { result ≡ bytes_eq text.now (codes "none") }
{
    same_bytes(text, "none".as_bytes())
}

/// Reads one piece more.
fn take<T: Item>(items: &mut Vec<T>, piece: &[u8]) -> Result<(), PlanError>
    ensures taken { OnOk result (map Some items.new.items
        ≡ map Some items.old.items ++ T.form.reading piece.now ∷ []) }
    ensures stops { IfErr result (StopsAt T.form items.old.items piece.now) }
{
    let number = items.len() as u64 + 1;
    match T::read(piece) {
        Some(item) => {
            items.push(item)?;
            Ok(())
        }
        None => Err(PlanError::BadItem(number)),
    }
}

/// The items of a text, or the first piece that reads as none.
pub(crate) fn read_items<T: Item>(alloc: Global, text: &[u8]) -> Result<Vec<T>, PlanError>
    ensures items { IfOk result (λ items. HasItems T.form text.now items.items) }
    ensures bad { IfErr result (IsBadItem T.form text.now) }
{
    let mut items: Vec<T> = Vec::new(alloc);
    if says_none(text) {
        return Ok(items);
    }
    let mut left = text;
    while let Some((piece, rest)) = split_once(left, b',') {
        take(&mut items, piece)?;
        left = rest;
    }
    take(&mut items, left)?;
    Ok(items)
}
