//! Statements and blocks.
ghost use Rattle.std.specs.Prelude.{◌++◌, [], ◌∷◌, OnOk};
ghost use Rattle.ppm_text.specs.declared.token.Keyword.TheVariants as k;
ghost use Rattle.ppm_text.specs.declared.token.Sign.TheVariants as s;
ghost use Rattle.ppm_tree.specs.Tree.{Let, Assign, Put, Call, Fork, statement_of, block_of};
ghost use Rattle.ppm_tree.specs.Tree.{expression_of, side_of};
ghost use Rattle.ppm_printer.specs.Spelled.{Appends};
ghost use Rattle.ppm_printer.specs.Canonical.{name as name_token, word, sign as sign_token};
ghost use Rattle.ppm_printer.specs.Canonical.{expression_tokens, assigned_tokens};
ghost use Rattle.ppm_printer.specs.Canonical.{statement_tokens, block_tokens, else_tokens, braced};

use crate::expression::{push_call, push_expression, push_side, push_target};
use crate::token::{push_keyword, push_name, push_sign};
use ppm_text::{Keyword, Sign};
use ppm_tree::{Expr, Named, Side, Stmt};
use ppm_words::NoMemory;
use std::alloc::Global;

/// Appends what is assigned, up to the end of the statement.
fn push_assigned(alloc: Global, text: &mut Vec<u8>, value: &Expr) -> Result<(), NoMemory>
    ensures { OnOk result (Appends (assigned_tokens (expression_of value.now)) text.old.items text.new.items) }
{
    push_sign(text, Sign::Assign)?;
    push_expression(alloc, text, value)?;
    push_sign(text, Sign::Semicolon)?;
    Ok(())
}

/// Appends the declaration of a local.
fn push_let(alloc: Global, text: &mut Vec<u8>, name: &Named, value: &Expr) -> Result<(), NoMemory>
    ensures { OnOk result (Appends (statement_tokens (Let name.now (expression_of value.now))) text.old.items text.new.items) }
{
    push_keyword(text, Keyword::Let)?;
    push_name(text, name)?;
    push_assigned(alloc, text, value)?;
    Ok(())
}

/// Appends an assignment to a local.
fn push_assign(
    alloc: Global,
    text: &mut Vec<u8>,
    name: &Named,
    value: &Expr,
) -> Result<(), NoMemory>
    ensures { OnOk result (Appends (statement_tokens (Assign name.now (expression_of value.now))) text.old.items text.new.items) }
{
    push_name(text, name)?;
    push_assigned(alloc, text, value)?;
    Ok(())
}

/// Appends an assignment to an element.
fn push_put(
    alloc: Global,
    text: &mut Vec<u8>,
    region: &Named,
    index: &Expr,
    value: &Expr,
) -> Result<(), NoMemory>
    ensures { OnOk result
        (Appends (statement_tokens (Put region.now (expression_of index.now) (expression_of value.now))) text.old.items text.new.items) }
{
    push_name(text, region)?;
    push_sign(text, Sign::OpenBracket)?;
    push_expression(alloc, text, index)?;
    push_sign(text, Sign::CloseBracket)?;
    push_assigned(alloc, text, value)?;
    Ok(())
}

/// Appends a call that is a statement.
fn push_called(alloc: Global, text: &mut Vec<u8>, side: &Side) -> Result<(), NoMemory>
    ensures { OnOk result (Appends (statement_tokens (Call (side_of side.now))) text.old.items text.new.items) }
{
    push_target(text, &side.target)?;
    push_keyword(text, Keyword::Call)?;
    push_call(alloc, text, side)?;
    push_sign(text, Sign::Semicolon)?;
    Ok(())
}

/// Appends a fork.
fn push_fork(alloc: Global, text: &mut Vec<u8>, left: &Side, right: &Side) -> Result<(), NoMemory>
    ensures { OnOk result (Appends (statement_tokens (Fork (side_of left.now) (side_of right.now))) text.old.items text.new.items) }
{
    push_keyword(text, Keyword::Fork)?;
    push_side(alloc, text, left)?;
    push_keyword(text, Keyword::And)?;
    push_side(alloc, text, right)?;
    push_sign(text, Sign::Semicolon)?;
    Ok(())
}

/// Appends a keyword and an expression, which stand in front of a block.
fn push_test(
    alloc: Global,
    text: &mut Vec<u8>,
    keyword: Keyword,
    test: &Expr,
) -> Result<(), NoMemory>
    ensures { OnOk result (Appends (word keyword
        ∷ expression_tokens (expression_of test.now)) text.old.items text.new.items) }
{
    push_keyword(text, keyword)?;
    push_expression(alloc, text, test)?;
    Ok(())
}

/// Appends two names with a comma between them.
fn push_names(text: &mut Vec<u8>, first: &Named, second: &Named) -> Result<(), NoMemory>
    ensures { OnOk result
        (Appends (name_token first.now ∷ sign_token s.Comma ∷ name_token second.now
        ∷ []) text.old.items text.new.items) }
{
    push_name(text, first)?;
    push_sign(text, Sign::Comma)?;
    push_name(text, second)?;
    Ok(())
}

/// Appends what stands in front of the block of a split.
fn push_split(
    alloc: Global,
    text: &mut Vec<u8>,
    region: &Named,
    at: &Expr,
    first: &Named,
    second: &Named,
) -> Result<(), NoMemory>
    ensures { OnOk result
        (Appends (word k.Split ∷ name_token region.now ∷ word k.At
        ∷ expression_tokens (expression_of at.now)
        ++ word k.Into ∷ name_token first.now ∷ sign_token s.Comma ∷ name_token second.now
        ∷ []) text.old.items text.new.items) }
{
    push_keyword(text, Keyword::Split)?;
    push_name(text, region)?;
    push_test(alloc, text, Keyword::At, at)?;
    push_keyword(text, Keyword::Into)?;
    push_names(text, first, second)?;
    Ok(())
}

/// Appends what stands in front of the block of an `each`.
fn push_each(
    text: &mut Vec<u8>,
    index: &Named,
    part: &Named,
    region: &Named,
) -> Result<(), NoMemory>
    ensures { OnOk result
        (Appends (word k.Each ∷ name_token index.now ∷ sign_token s.Comma ∷ name_token part.now
        ∷ word k.In ∷ name_token region.now ∷ [])
        text.old.items text.new.items) }
{
    push_keyword(text, Keyword::Each)?;
    push_names(text, index, part)?;
    push_keyword(text, Keyword::In)?;
    push_name(text, region)?;
    Ok(())
}

/// Appends a statement.
#[cycle(statements)]
fn push_statement(alloc: Global, text: &mut Vec<u8>, statement: &Stmt) -> Result<(), NoMemory>
    ensures { OnOk result (Appends (statement_tokens (statement_of statement.now)) text.old.items text.new.items) }
{
    match statement {
        Stmt::Let(name, value) => push_let(alloc, text, name, value),
        Stmt::Assign(name, value) => push_assign(alloc, text, name, value),
        Stmt::Put(region, index, value) => push_put(alloc, text, region, index, value),
        Stmt::Call(side) => push_called(alloc, text, side),
        Stmt::Fork(left, right) => push_fork(alloc, text, left, right),
        Stmt::If(test, block, other) => {
            push_test(alloc, text, Keyword::If, test)?;
            push_braced(alloc, text, block)?;
            push_else(alloc, text, other)?;
            Ok(())
        }
        Stmt::While(test, block) => {
            push_test(alloc, text, Keyword::While, test)?;
            push_braced(alloc, text, block)?;
            Ok(())
        }
        Stmt::Split(_, region, at, first, second, block) => {
            push_split(alloc, text, region, at, first, second)?;
            push_braced(alloc, text, block)?;
            Ok(())
        }
        Stmt::Each(index, part, region, block) => {
            push_each(text, index, part, region)?;
            push_braced(alloc, text, block)?;
            Ok(())
        }
    }
}

/// Appends the statements of a block.
#[cycle(statements)]
pub(crate) fn push_block(alloc: Global, text: &mut Vec<u8>, block: &[Stmt]) -> Result<(), NoMemory>
    ensures { OnOk result (Appends (block_tokens (block_of block.now)) text.old.items text.new.items) }
{
    for statement in block {
        push_statement(alloc, text, statement)?;
    }
    Ok(())
}

/// Appends a block in braces.
#[cycle(statements)]
fn push_braced(alloc: Global, text: &mut Vec<u8>, block: &[Stmt]) -> Result<(), NoMemory>
    ensures { OnOk result (Appends (braced (block_tokens (block_of block.now))) text.old.items text.new.items) }
{
    push_sign(text, Sign::OpenBrace)?;
    push_block(alloc, text, block)?;
    push_sign(text, Sign::CloseBrace)?;
    Ok(())
}

/// Appends the second block of an `if`, unless it is empty.
#[cycle(statements)]
fn push_else(alloc: Global, text: &mut Vec<u8>, block: &[Stmt]) -> Result<(), NoMemory>
    ensures { OnOk result (Appends (else_tokens (block_of block.now)) text.old.items text.new.items) }
{
    if block.is_empty() {
        return Ok(());
    }
    push_keyword(text, Keyword::Else)?;
    push_braced(alloc, text, block)?;
    Ok(())
}
