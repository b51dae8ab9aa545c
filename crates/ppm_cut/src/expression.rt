//! The instructions of expressions.
ghost use Rattle.std.specs.Prelude.{◌≡◌, ◌≤◌, ◌+◌, ◌*◌, ◌∷◌, suc, pos, length, OnOk};
ghost use Rattle.ppm_code.specs.declared.instr.Instr.TheVariants as instr;
ghost use Rattle.ppm_cut_code.specs.Layout.{register as register_of};
ghost use Rattle.ppm_tree.specs.Tree.{expression_of};
ghost use Rattle.ppm_cut_code.specs.Expressions.{size_of, truth_code, operator_code};
ghost use Rattle.ppm_cut_code.specs.Expressions.{right_register, branch_code, expression_code};
ghost use Rattle.ppm_cut.specs.Counts.{count_limit};
ghost use Rattle.ppm_cut.specs.Growth.{Grows};

use crate::instrs::{push, push_const};
use crate::layout::Layout;
use crate::register::{register, register_after};
use crate::size::{branch_size, size_of};
use ppm_code::Instr;
use ppm_tree::{Expr, Operator};
use ppm_words::NoMemory;

/// Appends a test whether the word in a register is 0.
fn push_truth(body: &mut Vec<Instr>, to: u32) -> Result<(), NoMemory>
    requires { to ≤ 2 * count_limit }
    ensures { OnOk result (Grows (truth_code to) body.old.items body.new.items) }
{
    let zero = register_after(to);
    push(body, Instr::Const { to: zero, value: 0 })?;
    push(
        body,
        Instr::NotEqual {
            to: register(to),
            left: register(to),
            right: zero,
        },
    )
}

/// Appends what an operator does with the operands in a register and the next.
fn push_operator(
    body: &mut Vec<Instr>,
    operator: Operator,
    line: u32,
    number: u32,
) -> Result<(), NoMemory>
    requires { number ≤ 2 * count_limit }
    ensures { OnOk result (Grows (operator_code operator line number) body.old.items body.new.items) }
{
    let to = register(number);
    let left = register(number);
    let right = register_after(number);
    match operator {
        Operator::Add => push(
            body,
            Instr::Add {
                to,
                left,
                right,
                line,
            },
        ),
        Operator::Sub => push(
            body,
            Instr::Sub {
                to,
                left,
                right,
                line,
            },
        ),
        Operator::Mul => push(
            body,
            Instr::Mul {
                to,
                left,
                right,
                line,
            },
        ),
        Operator::Div => push(
            body,
            Instr::Div {
                to,
                left,
                right,
                line,
            },
        ),
        Operator::Rem => push(
            body,
            Instr::Rem {
                to,
                left,
                right,
                line,
            },
        ),
        Operator::Eq => push(body, Instr::Equal { to, left, right }),
        Operator::Ne => push(body, Instr::NotEqual { to, left, right }),
        Operator::Lt => push(body, Instr::Less { to, left, right }),
        Operator::Le => push(body, Instr::AtMost { to, left, right }),
        Operator::Gt => push(
            body,
            Instr::Less {
                to,
                left: right,
                right: left,
            },
        ),
        Operator::Ge => push(
            body,
            Instr::AtMost {
                to,
                left: right,
                right: left,
            },
        ),
        Operator::And | Operator::Or => push_truth(body, number),
    }
}

/// The register of the right operand.
fn right_register(operator: Operator, to: u32) -> u32
    requires { to ≤ 2 * count_limit }
    ensures { result ≡ right_register operator to }
{
    match operator {
        Operator::And | Operator::Or => to,
        Operator::Add
        | Operator::Sub
        | Operator::Mul
        | Operator::Div
        | Operator::Rem
        | Operator::Eq
        | Operator::Ne
        | Operator::Lt
        | Operator::Le
        | Operator::Gt
        | Operator::Ge => to + 1,
    }
}

/// Appends a branch past the right operand, for an operator that the left one may decide.
fn push_branch(
    body: &mut Vec<Instr>,
    operator: Operator,
    number: u32,
    target: u32,
) -> Result<(), NoMemory>
    ensures { OnOk result (Grows (branch_code operator number target) body.old.items body.new.items) }
{
    let tested = register(number);
    match operator {
        Operator::And => push(body, Instr::BranchZero { tested, target }),
        Operator::Or => push(body, Instr::BranchNonZero { tested, target }),
        Operator::Add
        | Operator::Sub
        | Operator::Mul
        | Operator::Div
        | Operator::Rem
        | Operator::Eq
        | Operator::Ne
        | Operator::Lt
        | Operator::Le
        | Operator::Gt
        | Operator::Ge => Ok(()),
    }
}

/// Appends the difference of a register and the next.
fn push_difference(body: &mut Vec<Instr>, number: u32, line: u32) -> Result<(), NoMemory>
    requires { number ≤ 2 * count_limit }
    ensures { OnOk result (Grows
        (λ rest. instr.Sub (register_of number) (register_of number) (register_of (suc number)) line
        ∷ rest) body.old.items body.new.items) }
{
    let to = register(number);
    let right = register_after(number);
    push(
        body,
        Instr::Sub {
            to,
            left: to,
            right,
            line,
        },
    )
}

/// Appends the instructions of an expression, whose value comes into a register; those from it on
/// are free. The first instruction has the number `at` in its capsule.
pub fn push_expression(
    body: &mut Vec<Instr>,
    layout: &Layout<'_>,
    expression: &Expr,
    to: u32,
    at: u32,
) -> Result<(), NoMemory>
    requires registers { to + size_of (expression_of expression.now) ≤ count_limit }
    requires places { at + size_of (expression_of expression.now) ≤ count_limit }
    requires names { length layout.now ≤ count_limit }
    ensures { OnOk result
        (Grows (expression_code layout.now (expression_of expression.now) to at) body.old.items body.new.items) }
{
    match expression {
        Expr::Number(value) => push(
            body,
            Instr::Const {
                to: register(to),
                value: *value,
            },
        ),
        Expr::Name(name) => push(
            body,
            Instr::LoadSlot {
                to: register(to),
                slot: layout.slot(&name.name),
            },
        ),
        Expr::Element(region, index) => {
            push_expression(body, layout, index, to, at)?;
            push(
                body,
                Instr::LoadSlot {
                    to: register_after(to),
                    slot: layout.slot(&region.name),
                },
            )?;
            push(
                body,
                Instr::Get {
                    to: register(to),
                    region: register_after(to),
                    index: register(to),
                    line: region.line,
                },
            )
        }
        Expr::Len(region) => {
            push(
                body,
                Instr::LoadSlot {
                    to: register(to),
                    slot: layout.slot(&region.name),
                },
            )?;
            push(
                body,
                Instr::Len {
                    to: register(to),
                    region: register(to),
                },
            )
        }
        Expr::Minus(line, operand) => {
            push_const(body, to, 0)?;
            push_expression(body, layout, operand, to + 1, at + 1)?;
            push_difference(body, to, *line)
        }
        Expr::Binary(operator, line, left, right) => {
            let from = at + size_of(left) + branch_size(*operator);
            push_expression(body, layout, left, to, at)?;
            push_branch(body, *operator, to, from + size_of(right))?;
            push_expression(body, layout, right, right_register(*operator, to), from)?;
            push_operator(body, *operator, *line, to)
        }
    }
}
