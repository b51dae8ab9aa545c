//! How many instructions expressions and arguments have.
ghost use Rattle.std.specs.Prelude.{◌≡◌, ◌≤◌, length};
ghost use Rattle.std.specs.List.{AllByRecursion};
ghost use Rattle.ppm_tree.specs.Tree.{expression_of};
ghost use Rattle.ppm_cut_code.specs.Expressions.{last_size, branch_size, size_of};
ghost use Rattle.ppm_cut_code.specs.Statements.{argument_size, arguments_size, paired};
ghost use Rattle.ppm_cut.specs.Counts.{count_limit, size_limit, arguments_of};

use ppm_tree::{Argument, Expr, Mode, Operator, Parameter};

/// How many instructions an operator has after its right operand.
fn last_size(operator: Operator) -> u32
    ensures { result ≡ last_size operator }
{
    match operator {
        Operator::And | Operator::Or => 2,
        Operator::Add
        | Operator::Sub
        | Operator::Mul
        | Operator::Div
        | Operator::Rem
        | Operator::Eq
        | Operator::Ne
        | Operator::Lt
        | Operator::Le
        | Operator::Gt
        | Operator::Ge => 1,
    }
}

/// How many it has in front of that.
pub fn branch_size(operator: Operator) -> u32
    ensures { result ≡ branch_size operator }
{
    match operator {
        Operator::And | Operator::Or => 1,
        Operator::Add
        | Operator::Sub
        | Operator::Mul
        | Operator::Div
        | Operator::Rem
        | Operator::Eq
        | Operator::Ne
        | Operator::Lt
        | Operator::Le
        | Operator::Gt
        | Operator::Ge => 0,
    }
}

/// How many instructions an expression has.
pub fn size_of(expression: &Expr) -> u32
    requires { size_of (expression_of expression.now) ≤ count_limit }
    ensures { result ≡ size_of (expression_of expression.now) }
{
    match expression {
        Expr::Number(_) | Expr::Name(_) => 1,
        Expr::Element(_, index) => size_of(index) + 2,
        Expr::Len(_) => 2,
        Expr::Minus(_, operand) => size_of(operand) + 2,
        Expr::Binary(operator, _, left, right) => {
            size_of(left) + branch_size(*operator) + size_of(right) + last_size(*operator)
        }
    }
}

/// How many instructions an argument for a parameter of this mode has.
pub fn argument_size(mode: Mode, value: &Expr) -> u32
    requires { size_of (expression_of value.now) ≤ size_limit }
    ensures value { result ≡ argument_size mode (expression_of value.now) }
    ensures within { result ≤ size_limit }
{
    match mode {
        Mode::Int => size_of(value),
        Mode::Mut | Mode::Ref => 1,
    }
}

/// How many instructions the arguments for parameters have.
pub fn arguments_size(parameters: &[Parameter], arguments: &[Argument]) -> u32
    requires few { length parameters.now ≤ 12 }
    requires short { AllByRecursion (λ a. size_of a.value ≤ size_limit) (arguments_of arguments.now) }
    ensures value { result ≡ arguments_size parameters.now (arguments_of arguments.now) }
    ensures within { result ≤ 2000 }
{
    let mut size = 0;
    let mut left = arguments;
    for parameter in parameters {
        let [argument, rest @ ..] = left else {
            return size;
        };
        size += argument_size(parameter.mode, &argument.value);
        left = rest;
    }
    size
}

/// How many arguments there are for parameters.
pub fn paired(parameters: &[Parameter], arguments: &[Argument]) -> u32
    requires few { length parameters.now ≤ 12 }
    ensures value { result ≡ paired parameters.now (arguments_of arguments.now) }
    ensures within { result ≤ 12 }
{
    parameters.len().min(arguments.len()) as u32
}
