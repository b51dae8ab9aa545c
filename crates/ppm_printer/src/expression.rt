//! Expressions and calls.
ghost use Rattle.std.specs.Prelude.{◌≡◌, OnOk};
ghost use Rattle.ppm_tree.specs.Tree.{expression_of, side_of};
ghost use Rattle.ppm_printer.specs.Spelled.{Appends};
ghost use Rattle.ppm_printer.specs.Canonical.{operator_sign as sign_of_operator, expression_tokens};
ghost use Rattle.ppm_printer.specs.Canonical.{more_tokens, list_tokens};
ghost use Rattle.ppm_printer.specs.Canonical.{call_tokens, target_tokens, side_tokens};

use crate::token::{push_integer, push_keyword, push_name, push_sign};
use ppm_text::{Keyword, Sign};
use ppm_tree::{Argument, Expr, Named, Operator, Side};
use ppm_words::NoMemory;
use std::alloc::Global;

/// The sign of an operator.
fn operator_sign(operator: Operator) -> Sign
    ensures { result ≡ sign_of_operator operator }
{
    match operator {
        Operator::Add => Sign::Plus,
        Operator::Sub => Sign::Minus,
        Operator::Mul => Sign::Times,
        Operator::Div => Sign::Divide,
        Operator::Rem => Sign::Remainder,
        Operator::Eq => Sign::Equal,
        Operator::Ne => Sign::NotEqual,
        Operator::Lt => Sign::Less,
        Operator::Le => Sign::LessEqual,
        Operator::Gt => Sign::Greater,
        Operator::Ge => Sign::GreaterEqual,
        Operator::And => Sign::Both,
        Operator::Or => Sign::Either,
    }
}

/// Appends an expression.
pub(crate) fn push_expression(
    alloc: Global,
    text: &mut Vec<u8>,
    expression: &Expr,
) -> Result<(), NoMemory>
    ensures { OnOk result (Appends (expression_tokens (expression_of expression.now)) text.old.items text.new.items) }
{
    match expression {
        Expr::Number(value) => push_integer(alloc, text, *value),
        Expr::Name(name) => push_name(text, name),
        Expr::Element(region, index) => {
            push_name(text, region)?;
            push_sign(text, Sign::OpenBracket)?;
            push_expression(alloc, text, index)?;
            push_sign(text, Sign::CloseBracket)?;
            Ok(())
        }
        Expr::Len(region) => {
            push_keyword(text, Keyword::Len)?;
            push_name(text, region)?;
            Ok(())
        }
        Expr::Minus(_, operand) => {
            push_sign(text, Sign::Minus)?;
            push_expression(alloc, text, operand)?;
            Ok(())
        }
        Expr::Binary(operator, _, left, right) => {
            push_sign(text, Sign::OpenParen)?;
            push_expression(alloc, text, left)?;
            push_sign(text, operator_sign(*operator))?;
            push_expression(alloc, text, right)?;
            push_sign(text, Sign::CloseParen)?;
            Ok(())
        }
    }
}

/// Appends arguments, with a comma in front of each.
fn push_more_arguments(
    alloc: Global,
    text: &mut Vec<u8>,
    arguments: &[Argument],
) -> Result<(), NoMemory>
    ensures { OnOk result (Appends (more_tokens (λ a. expression_tokens (expression_of a.value)) arguments.now) text.old.items text.new.items) }
{
    let mut left = arguments;
    while let [argument, rest @ ..] = left {
        push_sign(text, Sign::Comma)?;
        push_expression(alloc, text, &argument.value)?;
        left = rest;
    }
    Ok(())
}

/// Appends arguments, with commas between them.
fn push_arguments(alloc: Global, text: &mut Vec<u8>, arguments: &[Argument]) -> Result<(), NoMemory>
    ensures { OnOk result (Appends (list_tokens (λ a. expression_tokens (expression_of a.value)) arguments.now) text.old.items text.new.items) }
{
    if let [first, rest @ ..] = arguments {
        push_expression(alloc, text, &first.value)?;
        push_more_arguments(alloc, text, rest)?;
    }
    Ok(())
}

/// Appends a procedure's name and its arguments.
pub(crate) fn push_call(alloc: Global, text: &mut Vec<u8>, side: &Side) -> Result<(), NoMemory>
    ensures { OnOk result (Appends (call_tokens (side_of side.now)) text.old.items text.new.items) }
{
    push_name(text, &side.callee)?;
    push_sign(text, Sign::OpenParen)?;
    push_arguments(alloc, text, side.arguments.as_slice())?;
    push_sign(text, Sign::CloseParen)?;
    Ok(())
}

/// Appends a target, if there is one.
pub(crate) fn push_target(text: &mut Vec<u8>, target: &Option<Named>) -> Result<(), NoMemory>
    ensures { OnOk result (Appends (target_tokens target.now) text.old.items text.new.items) }
{
    if let Some(name) = target {
        push_name(text, name)?;
        push_sign(text, Sign::Assign)?;
    }
    Ok(())
}

/// Appends a side of a fork.
pub(crate) fn push_side(alloc: Global, text: &mut Vec<u8>, side: &Side) -> Result<(), NoMemory>
    ensures { OnOk result (Appends (side_tokens (side_of side.now)) text.old.items text.new.items) }
{
    push_target(text, &side.target)?;
    push_call(alloc, text, side)?;
    Ok(())
}
