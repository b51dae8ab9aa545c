//! The capsules of statements that call nothing.
ghost use Rattle.std.specs.Prelude.{◌≡◌, ◌≤◌, length, IfOk};
ghost use Rattle.ppm_tree.specs.Tree.{expression_of, give_of};
ghost use Rattle.ppm_cut_code.specs.Expressions.{size_of};
ghost use Rattle.ppm_cut_code.specs.Statements.{onward, value_code, move_code, element_code};
ghost use Rattle.ppm_cut_code.specs.Statements.{put_code, test_code, split_code, give_code};
ghost use Rattle.ppm_cut.specs.Counts.{count_limit, size_limit, IsShortGive};

use crate::expression::push_expression;
use crate::instrs::{
    push_branch_zero, push_cut_left, push_cut_right, push_finish, push_give, push_load,
    push_onward, push_put, push_store,
};
use crate::layout::Layout;
use crate::maker::Maker;
use crate::size::size_of;
use ppm_code::Instr;
use ppm_tree::{Expr, Give, Named};
use ppm_words::NoMemory;
use std::alloc::Global;

/// A capsule that only goes on.
pub fn onward(alloc: Global, next: u32) -> Result<Vec<Instr>, NoMemory>
    ensures { IfOk result (λ body. body.items ≡ onward next) }
{
    let mut body = Vec::new(alloc);
    push_onward(&mut body, next)?;
    Ok(body)
}

/// The capsule that puts a value into a slot: of the declaration of a local that is the next
/// slot's, or the first capsule of an assignment to a local.
pub fn store_capsule(
    alloc: Global,
    layout: &Layout<'_>,
    slot: u32,
    value: &Expr,
    next: u32,
) -> Result<Vec<Instr>, NoMemory>
    requires names { length layout.now ≤ count_limit }
    requires short { size_of (expression_of value.now) ≤ size_limit }
    ensures { IfOk result (λ body. body.items
        ≡ value_code layout.now slot (expression_of value.now) next) }
{
    let mut body = Vec::new(alloc);
    push_expression(&mut body, layout, value, 0, 0)?;
    push_store(&mut body, slot, 0)?;
    push_onward(&mut body, next)?;
    Ok(body)
}

/// The second capsule of an assignment to a local.
pub fn move_capsule(
    maker: &Maker<'_>,
    layout: &Layout<'_>,
    local: &Named,
    next: u32,
) -> Result<Vec<Instr>, NoMemory>
    requires { length layout.now ≤ count_limit }
    ensures { IfOk result (λ body. body.items
        ≡ move_code layout.now maker.now.home.spare local.now next) }
{
    let mut body = Vec::new(maker.alloc);
    push_load(&mut body, 0, maker.home.spare)?;
    push_store(&mut body, layout.slot(&local.name), 0)?;
    push_onward(&mut body, next)?;
    Ok(body)
}

/// The first capsule of an assignment to an element.
pub fn element_capsule(
    maker: &Maker<'_>,
    layout: &Layout<'_>,
    index: &Expr,
    value: &Expr,
    next: u32,
) -> Result<Vec<Instr>, NoMemory>
    requires names { length layout.now ≤ count_limit }
    requires short_index { size_of (expression_of index.now) ≤ size_limit }
    requires short_value { size_of (expression_of value.now) ≤ size_limit }
    ensures { IfOk result (λ body. body.items
        ≡ element_code layout.now maker.now.home.spare (expression_of index.now) (expression_of value.now) next) }
{
    let spare = maker.home.spare;
    let mut body = Vec::new(maker.alloc);
    push_expression(&mut body, layout, index, 0, 0)?;
    push_expression(&mut body, layout, value, 1, size_of(index))?;
    push_store(&mut body, spare, 0)?;
    push_store(&mut body, spare + 1, 1)?;
    push_onward(&mut body, next)?;
    Ok(body)
}

/// The second capsule of an assignment to an element.
pub fn put_capsule(
    maker: &Maker<'_>,
    layout: &Layout<'_>,
    region: &Named,
    next: u32,
) -> Result<Vec<Instr>, NoMemory>
    requires names { length layout.now ≤ count_limit }
    ensures { IfOk result (λ body. body.items
        ≡ put_code layout.now maker.now.home.spare region.now next) }
{
    let spare = maker.home.spare;
    let mut body = Vec::new(maker.alloc);
    push_load(&mut body, 0, layout.slot(&region.name))?;
    push_load(&mut body, 1, spare)?;
    push_load(&mut body, 2, spare + 1)?;
    push_put(&mut body, 0, 1, 2, region.line)?;
    push_onward(&mut body, next)?;
    Ok(body)
}

/// The capsule of a test.
pub fn test_capsule(
    alloc: Global,
    layout: &Layout<'_>,
    test: &Expr,
    inside: u32,
    next: u32,
) -> Result<Vec<Instr>, NoMemory>
    requires names { length layout.now ≤ count_limit }
    requires short { size_of (expression_of test.now) ≤ size_limit }
    ensures { IfOk result (λ body. body.items
        ≡ test_code layout.now (expression_of test.now) inside next) }
{
    let mut body = Vec::new(alloc);
    push_expression(&mut body, layout, test, 0, 0)?;
    push_branch_zero(&mut body, 0, size_of(test) + 2)?;
    push_onward(&mut body, inside)?;
    push_onward(&mut body, next)?;
    Ok(body)
}

/// The capsule of a split in front of its block.
pub fn split_capsule(
    alloc: Global,
    layout: &Layout<'_>,
    line: u32,
    region: &Named,
    at: &Expr,
    next: u32,
) -> Result<Vec<Instr>, NoMemory>
    requires names { length layout.now ≤ count_limit }
    requires short { size_of (expression_of at.now) ≤ size_limit }
    ensures { IfOk result (λ body. body.items
        ≡ split_code layout.now line region.now (expression_of at.now) next) }
{
    let mut body = Vec::new(alloc);
    let free = layout.len();
    push_expression(&mut body, layout, at, 0, 0)?;
    push_load(&mut body, 1, layout.slot(&region.name))?;
    push_cut_left(&mut body, 2, 1, 0, line)?;
    push_cut_right(&mut body, 3, 1, 0, line)?;
    push_store(&mut body, free, 2)?;
    push_store(&mut body, free + 1, 3)?;
    push_onward(&mut body, next)?;
    Ok(body)
}

/// The capsule with which a body ends.
pub fn give_capsule(
    alloc: Global,
    layout: &Layout<'_>,
    give: &Option<Give>,
) -> Result<Vec<Instr>, NoMemory>
    requires names { length layout.now ≤ count_limit }
    requires short { IsShortGive (give_of give.now) }
    ensures { IfOk result (λ body. body.items ≡ give_code layout.now (give_of give.now)) }
{
    let mut body = Vec::new(alloc);
    match give {
        None => {
            push_finish(&mut body)?;
            Ok(body)
        }
        Some(give) => {
            push_expression(&mut body, layout, &give.value, 0, 0)?;
            push_give(&mut body, 0)?;
            push_finish(&mut body)?;
            Ok(body)
        }
    }
}
