//! What an expression is worth.
ghost use Rattle.std.specs.Prelude.{◌≡◌, ◌<◌, ◌≤◌, IfOk};
ghost use Rattle.ppm_tree.specs.Tree.{expression_of};
ghost use Rattle.ppm_tree.specs.State.{at_line, evaluate as evaluated, index_in, put_values};
ghost use Rattle.ppm_tree.specs.State.{split_at, then_with};
ghost use Rattle.ppm_tree.specs.Values.{decided};
ghost use Rattle.ppm_by_name.specs.Frames.{frame_of, region_of};

use crate::frame::Frame;
use crate::region::Region;
use crate::store::Store;
use ppm_tree::{Expr, Named, Operator, apply, negate};
use ppm_words::Trap;

/// The value of an operator that its left operand decides alone.
fn decide(operator: Operator, x: i64) -> Option<i64>
    ensures { result ≡ decided operator x }
{
    match operator {
        Operator::And if x == 0 => Some(0),
        Operator::Or if x != 0 => Some(1),
        Operator::And | Operator::Or => None,
        Operator::Add | Operator::Sub | Operator::Mul | Operator::Div | Operator::Rem => None,
        Operator::Eq | Operator::Ne => None,
        Operator::Lt | Operator::Le | Operator::Gt | Operator::Ge => None,
    }
}

/// A result whose trap is in this line.
fn at_line(line: u32, outcome: Result<i64, Trap>) -> Result<i64, (Trap, u32)>
    ensures { result ≡ at_line line outcome }
{
    match outcome {
        Ok(value) => Ok(value),
        Err(trap) => Err((trap, line)),
    }
}

/// The index of a region that a value is: from 0 to its length less one.
fn index_in(line: u32, region: &Region, value: i64) -> Result<usize, (Trap, u32)>
    ensures value { result ≡ index_in line region.now value }
    ensures bound { IfOk result (λ k. k < region.now.length) }
{
    if value >= 0 && (value as usize) < region.length() {
        Ok(value as usize)
    } else {
        Err((Trap::Index, line))
    }
}

/// How many words the first part of a split region has: from 0 to its length.
fn split_at(line: u32, region: &Region, value: i64) -> Result<usize, (Trap, u32)>
    ensures value { result ≡ split_at line region.now value }
    ensures bound { IfOk result (λ k. k ≤ region.now.length) }
{
    if value >= 0 && (value as usize) <= region.length() {
        Ok(value as usize)
    } else {
        Err((Trap::Split, line))
    }
}

/// What an expression is worth in a frame, or its trap with its line; operands come from left to
/// right.
pub fn evaluate(frame: &Frame, store: &Store, e: &Expr) -> Result<i64, (Trap, u32)>
    ensures { result ≡ evaluated (frame_of frame.now) store.now (expression_of e.now) }
{
    match e {
        Expr::Number(number) => Ok(*number),
        Expr::Name(name) => Ok(frame.local(&name.name)),
        Expr::Element(name, index) => {
            let index = evaluate(frame, store, index)?;
            let region = frame.region(&name.name);
            let at = index_in(name.line, &region, index)?;
            Ok(store.word(region.array(), region.place(at)))
        }
        Expr::Len(name) => Ok(frame.region(&name.name).length() as i64),
        Expr::Minus(line, operand) => {
            let x = evaluate(frame, store, operand)?;
            at_line(*line, negate(x))
        }
        Expr::Binary(operator, line, left, right) => {
            let x = evaluate(frame, store, left)?;
            if let Some(value) = decide(*operator, x) {
                return Ok(value);
            }
            let y = evaluate(frame, store, right)?;
            at_line(*line, apply(*operator, x, y))
        }
    }
}

/// The index and the value of an assignment to an element, or the first trap.
pub fn element_value(
    frame: &Frame,
    store: &Store,
    name: &Named,
    index: &Expr,
    e: &Expr,
) -> Result<(usize, i64), (Trap, u32)>
    ensures value { result ≡ put_values (frame_of frame.now) store.now name.now (expression_of index.now) (expression_of e.now) }
    ensures bound { IfOk result (λ p. p.0 < (region_of frame.now.regions name.now.name).length) }
{
    let index = evaluate(frame, store, index)?;
    let value = evaluate(frame, store, e)?;
    let at = index_in(name.line, &frame.region(&name.name), index)?;
    Ok((at, value))
}

/// How many words the first part of a region has that is split, or the first trap.
pub fn first_words(
    frame: &Frame,
    store: &Store,
    line: u32,
    region: &Named,
    at: &Expr,
) -> Result<usize, (Trap, u32)>
    ensures value { result ≡ then_with (evaluated (frame_of frame.now) store.now (expression_of at.now)) (split_at line (region_of frame.now.regions region.now.name)) }
    ensures bound { IfOk result (λ k. k ≤ (region_of frame.now.regions region.now.name).length) }
{
    let at = evaluate(frame, store, at)?;
    split_at(line, &frame.region(&region.name), at)
}
