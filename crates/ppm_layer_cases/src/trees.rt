//! Trees as texts: what is declared, each kind in its order, with the line of each name after `@`.
use ppm_sheets::Fault;
use ppm_tree::{Array, ArrayInput, Expr, Named, Operator, Parameter, Proc, Side, Stmt, Tree};
use std::alloc::Global;

/// A name and its line.
fn shown_name(alloc: Global, name: &Named) -> Result<String, Fault> {
    let Ok(text) = str::from_utf8(name.name.as_bytes()) else {
        return Err(Fault::Line("a name that is no text"));
    };
    let line = name.line;
    Ok(format!(in alloc; "{text}@{line}")?)
}

/// The sign of an operator.
fn sign_of(operator: Operator) -> &'static str {
    match operator {
        Operator::Add => "+",
        Operator::Sub => "-",
        Operator::Mul => "*",
        Operator::Div => "/",
        Operator::Rem => "%",
        Operator::Eq => "==",
        Operator::Ne => "!=",
        Operator::Lt => "<",
        Operator::Le => "<=",
        Operator::Gt => ">",
        Operator::Ge => ">=",
        Operator::And => "&&",
        Operator::Or => "||",
    }
}

/// An expression, with parentheses round each operation on two operands.
fn shown_expression(alloc: Global, expression: &Expr) -> Result<String, Fault> {
    match expression {
        Expr::Number(value) => Ok(format!(in alloc; "{value}")?),
        Expr::Name(name) => shown_name(alloc, name),
        Expr::Element(name, index) => {
            let name = shown_name(alloc, name)?;
            let index = shown_expression(alloc, index)?;
            Ok(format!(in alloc; "{name}[{index}]")?)
        }
        Expr::Len(name) => {
            let name = shown_name(alloc, name)?;
            Ok(format!(in alloc; "len {name}")?)
        }
        Expr::Minus(line, operand) => {
            let operand = shown_expression(alloc, operand)?;
            Ok(format!(in alloc; "-@{line} {operand}")?)
        }
        Expr::Binary(operator, line, left, right) => {
            let left = shown_expression(alloc, left)?;
            let right = shown_expression(alloc, right)?;
            let sign = sign_of(*operator);
            Ok(format!(in alloc; "({left} {sign}@{line} {right})")?)
        }
    }
}

/// A call or a side of a fork.
fn shown_side(alloc: Global, side: &Side) -> Result<String, Fault> {
    let mut text = String::new(alloc);
    if let Some(target) = &side.target {
        text.push_str(&shown_name(alloc, target)?)?;
        text.push_str(" = ")?;
    }
    text.push_str(&shown_name(alloc, &side.callee)?)?;
    text.push_str("(")?;
    for argument in side.arguments.as_slice() {
        let value = shown_expression(alloc, &argument.value)?;
        let line = argument.line;
        text.push_str(&format!(in alloc; "{line}:{value},")?)?;
    }
    text.push_str(")")?;
    Ok(text)
}

/// Statements.
#[cycle(shown)]
fn shown_block(alloc: Global, block: &Vec<Stmt>) -> Result<String, Fault> {
    let mut text = String::new(alloc);
    for statement in block.as_slice() {
        text.push_str(&shown_statement(alloc, statement)?)?;
    }
    Ok(text)
}

/// A statement.
#[cycle(shown)]
fn shown_statement(alloc: Global, statement: &Stmt) -> Result<String, Fault> {
    match statement {
        Stmt::Let(name, value) => {
            let name = shown_name(alloc, name)?;
            let value = shown_expression(alloc, value)?;
            Ok(format!(in alloc; "let {name} = {value};")?)
        }
        Stmt::Assign(name, value) => {
            let name = shown_name(alloc, name)?;
            let value = shown_expression(alloc, value)?;
            Ok(format!(in alloc; "{name} = {value};")?)
        }
        Stmt::Put(name, index, value) => {
            let name = shown_name(alloc, name)?;
            let index = shown_expression(alloc, index)?;
            let value = shown_expression(alloc, value)?;
            Ok(format!(in alloc; "{name}[{index}] = {value};")?)
        }
        Stmt::If(test, holds, otherwise) => {
            let test = shown_expression(alloc, test)?;
            let holds = shown_block(alloc, holds)?;
            let otherwise = shown_block(alloc, otherwise)?;
            Ok(format!(in alloc; "if {test} {{{holds}}} else {{{otherwise}}}")?)
        }
        Stmt::While(test, block) => {
            let test = shown_expression(alloc, test)?;
            let block = shown_block(alloc, block)?;
            Ok(format!(in alloc; "while {test} {{{block}}}")?)
        }
        Stmt::Call(side) => {
            let side = shown_side(alloc, side)?;
            Ok(format!(in alloc; "call {side};")?)
        }
        Stmt::Fork(left, right) => {
            let left = shown_side(alloc, left)?;
            let right = shown_side(alloc, right)?;
            Ok(format!(in alloc; "fork {left} and {right};")?)
        }
        Stmt::Split(line, region, size, first, second, block) => {
            let region = shown_name(alloc, region)?;
            let size = shown_expression(alloc, size)?;
            let first = shown_name(alloc, first)?;
            let second = shown_name(alloc, second)?;
            let block = shown_block(alloc, block)?;
            Ok(format!(in alloc;
                "split@{line} {region} at {size} into {first}, {second} {{{block}}}"
            )?)
        }
        Stmt::Each(index, part, region, block) => {
            let index = shown_name(alloc, index)?;
            let part = shown_name(alloc, part)?;
            let region = shown_name(alloc, region)?;
            let block = shown_block(alloc, block)?;
            Ok(format!(in alloc; "each {index}, {part} in {region} {{{block}}}")?)
        }
    }
}

/// A parameter.
fn shown_parameter(alloc: Global, parameter: &Parameter) -> Result<String, Fault> {
    let name = shown_name(alloc, &parameter.name)?;
    let mode = parameter.mode;
    Ok(format!(in alloc; "{mode:?} {name},")?)
}

/// An array.
fn shown_array(alloc: Global, array: &Array) -> Result<String, Fault> {
    let name = shown_name(alloc, &array.name)?;
    let words = array.words;
    Ok(format!(in alloc; "{name}[{words}];")?)
}

/// A procedure.
fn shown_procedure(alloc: Global, procedure: &Proc) -> Result<String, Fault> {
    let name = shown_name(alloc, &procedure.name)?;
    let mut parameters = String::new(alloc);
    for parameter in procedure.parameters.as_slice() {
        parameters.push_str(&shown_parameter(alloc, parameter)?)?;
    }
    let mut body = shown_block(alloc, &procedure.body)?;
    if let Some(give) = &procedure.give {
        let value = shown_expression(alloc, &give.value)?;
        let line = give.line;
        body.push_str(&format!(in alloc; "give@{line} {value};")?)?;
    }
    Ok(format!(in alloc; "{name}({parameters}){{{body}}}")?)
}

/// An input.
fn shown_input(alloc: Global, input: &ArrayInput) -> Result<String, Fault> {
    let mut text = shown_name(alloc, &input.name)?;
    text.push_str(" = ")?;
    for value in input.values.as_slice() {
        text.push_str(&format!(in alloc; "{value},")?)?;
    }
    text.push_str(";")?;
    Ok(text)
}

/// A tree.
pub(crate) fn shown_tree(alloc: Global, tree: &Tree) -> Result<String, Fault> {
    let mut text = String::new(alloc);
    for array in tree.arrays.as_slice() {
        text.push_str(&shown_array(alloc, array)?)?;
    }
    for procedure in tree.procedures.as_slice() {
        text.push_str(&shown_procedure(alloc, procedure)?)?;
    }
    for input in tree.inputs.as_slice() {
        text.push_str(&shown_input(alloc, input)?)?;
    }
    Ok(text)
}
