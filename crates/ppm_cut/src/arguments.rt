//! The instructions of arguments, and of the stores into a new block.
ghost use Rattle.std.specs.Prelude.{◌≡◌, ◌≤◌, ◌+◌, ◌*◌, ◌∷◌, length, OnOk};
ghost use Rattle.std.specs.List.{AllByRecursion};
ghost use Rattle.ppm_tree.specs.Tree.{expression_of};
ghost use Rattle.ppm_cut_code.specs.Expressions.{size_of};
ghost use Rattle.ppm_cut_code.specs.Statements.{lent_code, argument_code, arguments_code};
ghost use Rattle.ppm_cut_code.specs.Statements.{stores_code, names_code};
ghost use Rattle.ppm_cut.specs.Counts.{count_limit, size_limit, arguments_of};
ghost use Rattle.ppm_cut.specs.Growth.{Grows};

use crate::expression::push_expression;
use crate::instrs::{push, push_load, push_store_new};
use crate::layout::Layout;
use crate::register::register;
use crate::size::argument_size;
use ppm_code::Instr;
use ppm_tree::{Argument, Expr, Mode, Parameter};
use ppm_words::NoMemory;

/// Appends the load of an argument for a region.
fn push_lent(
    body: &mut Vec<Instr>,
    layout: &Layout<'_>,
    value: &Expr,
    number: u32,
) -> Result<(), NoMemory>
    requires { length layout.now ≤ count_limit }
    ensures { OnOk result
        (Grows (λ rest. lent_code layout.now (expression_of value.now) number
        ∷ rest) body.old.items body.new.items) }
{
    let to = register(number);
    match value {
        Expr::Name(name) => push(
            body,
            Instr::LoadSlot {
                to,
                slot: layout.slot(&name.name),
            },
        ),
        Expr::Number(_)
        | Expr::Element(_, _)
        | Expr::Len(_)
        | Expr::Minus(_, _)
        | Expr::Binary(_, _, _, _) => push(body, Instr::Const { to, value: 0 }),
    }
}

/// Appends an argument for a parameter of this mode.
fn push_argument(
    body: &mut Vec<Instr>,
    layout: &Layout<'_>,
    mode: Mode,
    value: &Expr,
    number: u32,
    at: u32,
) -> Result<(), NoMemory>
    requires names { length layout.now ≤ count_limit }
    requires short { size_of (expression_of value.now) ≤ size_limit }
    requires registers { number ≤ 1000 }
    requires places { at ≤ 10000 }
    ensures { OnOk result
        (Grows (argument_code layout.now mode (expression_of value.now) number at) body.old.items body.new.items) }
{
    match mode {
        Mode::Int => push_expression(body, layout, value, number, at),
        Mode::Mut | Mode::Ref => push_lent(body, layout, value, number),
    }
}

/// Appends the arguments for parameters, each in a register of its own.
pub fn push_arguments(
    body: &mut Vec<Instr>,
    layout: &Layout<'_>,
    parameters: &[Parameter],
    arguments: &[Argument],
    number: u32,
    at: u32,
) -> Result<(), NoMemory>
    requires names { length layout.now ≤ count_limit }
    requires few { length parameters.now ≤ 12 }
    requires short { AllByRecursion (λ a. size_of a.value ≤ size_limit) (arguments_of arguments.now) }
    requires registers { number ≤ 100 }
    requires places { at ≤ 5000 }
    ensures { OnOk result
        (Grows (arguments_code layout.now parameters.now (arguments_of arguments.now) number at) body.old.items body.new.items) }
{
    let mut left = arguments;
    let mut to = number;
    let mut from = at;
    for parameter in parameters {
        let [argument, rest @ ..] = left else {
            return Ok(());
        };
        push_argument(body, layout, parameter.mode, &argument.value, to, from)?;
        to += 1;
        from += argument_size(parameter.mode, &argument.value);
        left = rest;
    }
    Ok(())
}

/// Appends stores of so many registers into words of the new block, from an offset on.
pub fn push_stores(
    body: &mut Vec<Instr>,
    offset: u32,
    number: u32,
    count: u32,
) -> Result<(), NoMemory>
    requires words { offset + count ≤ 16 * count_limit }
    requires registers { number + count ≤ 16 * count_limit }
    ensures { OnOk result (Grows (stores_code offset number count) body.old.items body.new.items) }
{
    let mut word = offset;
    let mut from = number;
    let mut left = count;
    while left > 0 {
        push_store_new(body, word, from)?;
        word += 1;
        from += 1;
        left -= 1;
    }
    Ok(())
}

/// Appends loads of so many slots, one after the other, into registers.
pub fn push_loads(body: &mut Vec<Instr>, slot: u32, number: u32, count: u32) -> Result<(), NoMemory>
    requires slots { slot + count ≤ 16 * count_limit }
    requires registers { number + count ≤ 16 * count_limit }
    ensures { OnOk result (Grows (names_code slot number count) body.old.items body.new.items) }
{
    let mut at = slot;
    let mut to = number;
    let mut left = count;
    while left > 0 {
        push_load(body, to, at)?;
        at += 1;
        to += 1;
        left -= 1;
    }
    Ok(())
}
