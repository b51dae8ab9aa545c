//! The canonical text of a program.
ghost use Rattle.std.specs.Prelude.{◌≡◌, ◌++◌, IfOk, OnOk};
ghost use Rattle.std.specs.List.{flat_map};
ghost use Rattle.ppm_tree.specs.Tree.{block_of, give_of, procedure_of, tree_of};
ghost use Rattle.ppm_printer.specs.Spelled.{Appends};
ghost use Rattle.ppm_printer.specs.Canonical.{mode_word as word_of_mode, integer_tokens};
ghost use Rattle.ppm_printer.specs.Canonical.{more_tokens, list_tokens, parameter_tokens};
ghost use Rattle.ppm_printer.specs.Canonical.{braced, block_tokens, give_tokens};
ghost use Rattle.ppm_printer.specs.Canonical.{array_tokens, procedure_tokens, input_tokens};
ghost use Rattle.ppm_printer.specs.Canonical.{program_tokens, canonical_text};

use crate::expression::push_expression;
use crate::statement::push_block;
use crate::token::{push_integer, push_keyword, push_name, push_number, push_sign};
use ppm_text::{Keyword, Sign};
use ppm_tree::{Array, ArrayInput, Give, Mode, Parameter, Proc, Program, Stmt, Tree};
use ppm_words::NoMemory;
use std::alloc::Global;

/// Appends an array.
fn push_array(alloc: Global, text: &mut Vec<u8>, array: &Array) -> Result<(), NoMemory>
    ensures { OnOk result (Appends (array_tokens array.now) text.old.items text.new.items) }
{
    push_keyword(text, Keyword::Array)?;
    push_name(text, &array.name)?;
    push_sign(text, Sign::OpenBracket)?;
    push_number(alloc, text, u64::from(array.words))?;
    push_sign(text, Sign::CloseBracket)?;
    push_sign(text, Sign::Semicolon)?;
    Ok(())
}

/// The word of a mode.
fn mode_word(mode: Mode) -> Keyword
    ensures { result ≡ word_of_mode mode }
{
    match mode {
        Mode::Mut => Keyword::Mut,
        Mode::Ref => Keyword::Ref,
        Mode::Int => Keyword::Int,
    }
}

/// Appends a parameter.
fn push_parameter(text: &mut Vec<u8>, parameter: &Parameter) -> Result<(), NoMemory>
    ensures { OnOk result (Appends (parameter_tokens parameter.now) text.old.items text.new.items) }
{
    push_keyword(text, mode_word(parameter.mode))?;
    push_name(text, &parameter.name)?;
    Ok(())
}

/// Appends parameters, with a comma in front of each.
fn push_more_parameters(text: &mut Vec<u8>, parameters: &[Parameter]) -> Result<(), NoMemory>
    ensures { OnOk result (Appends (more_tokens parameter_tokens parameters.now) text.old.items text.new.items) }
{
    let mut left = parameters;
    while let [parameter, rest @ ..] = left {
        push_sign(text, Sign::Comma)?;
        push_parameter(text, parameter)?;
        left = rest;
    }
    Ok(())
}

/// Appends parameters, with commas between them.
fn push_parameters(text: &mut Vec<u8>, parameters: &[Parameter]) -> Result<(), NoMemory>
    ensures { OnOk result (Appends (list_tokens parameter_tokens parameters.now) text.old.items text.new.items) }
{
    if let [first, rest @ ..] = parameters {
        push_parameter(text, first)?;
        push_more_parameters(text, rest)?;
    }
    Ok(())
}

/// Appends what a body gives, if anything.
fn push_give(alloc: Global, text: &mut Vec<u8>, give: &Option<Give>) -> Result<(), NoMemory>
    ensures { OnOk result (Appends (give_tokens (give_of give.now)) text.old.items text.new.items) }
{
    if let Some(give) = give {
        push_keyword(text, Keyword::Give)?;
        push_expression(alloc, text, &give.value)?;
        push_sign(text, Sign::Semicolon)?;
    }
    Ok(())
}

/// Appends a body.
fn push_body(
    alloc: Global,
    text: &mut Vec<u8>,
    body: &[Stmt],
    give: &Option<Give>,
) -> Result<(), NoMemory>
    ensures { OnOk result (Appends (braced (block_tokens (block_of body.now) ++ give_tokens (give_of give.now))) text.old.items text.new.items) }
{
    push_sign(text, Sign::OpenBrace)?;
    push_block(alloc, text, body)?;
    push_give(alloc, text, give)?;
    push_sign(text, Sign::CloseBrace)?;
    Ok(())
}

/// Appends a procedure.
fn push_procedure(alloc: Global, text: &mut Vec<u8>, procedure: &Proc) -> Result<(), NoMemory>
    ensures { OnOk result (Appends (procedure_tokens (procedure_of procedure.now)) text.old.items text.new.items) }
{
    push_keyword(text, Keyword::Proc)?;
    push_name(text, &procedure.name)?;
    push_sign(text, Sign::OpenParen)?;
    push_parameters(text, procedure.parameters.as_slice())?;
    push_sign(text, Sign::CloseParen)?;
    push_body(alloc, text, &procedure.body, &procedure.give)?;
    Ok(())
}

/// Appends values, with a comma in front of each.
fn push_more_values(alloc: Global, text: &mut Vec<u8>, values: &[i64]) -> Result<(), NoMemory>
    ensures { OnOk result (Appends (more_tokens integer_tokens values.now) text.old.items text.new.items) }
{
    let mut left = values;
    while let [value, rest @ ..] = left {
        push_sign(text, Sign::Comma)?;
        push_integer(alloc, text, *value)?;
        left = rest;
    }
    Ok(())
}

/// Appends values, with commas between them.
fn push_values(alloc: Global, text: &mut Vec<u8>, values: &[i64]) -> Result<(), NoMemory>
    ensures { OnOk result (Appends (list_tokens integer_tokens values.now) text.old.items text.new.items) }
{
    if let [first, rest @ ..] = values {
        push_integer(alloc, text, *first)?;
        push_more_values(alloc, text, rest)?;
    }
    Ok(())
}

/// Appends an input.
fn push_input(alloc: Global, text: &mut Vec<u8>, input: &ArrayInput) -> Result<(), NoMemory>
    ensures { OnOk result (Appends (input_tokens input.now) text.old.items text.new.items) }
{
    push_keyword(text, Keyword::Input)?;
    push_name(text, &input.name)?;
    push_sign(text, Sign::Assign)?;
    push_values(alloc, text, input.values.as_slice())?;
    push_sign(text, Sign::Semicolon)?;
    Ok(())
}

/// Appends arrays.
fn push_arrays(alloc: Global, text: &mut Vec<u8>, arrays: &[Array]) -> Result<(), NoMemory>
    ensures { OnOk result (Appends (flat_map array_tokens arrays.now) text.old.items text.new.items) }
{
    let mut left = arrays;
    while let [array, rest @ ..] = left {
        push_array(alloc, text, array)?;
        left = rest;
    }
    Ok(())
}

/// Appends procedures.
fn push_procedures(alloc: Global, text: &mut Vec<u8>, procedures: &[Proc]) -> Result<(), NoMemory>
    ensures { OnOk result (Appends (flat_map (λ p. procedure_tokens (procedure_of p)) procedures.now) text.old.items text.new.items) }
{
    let mut left = procedures;
    while let [procedure, rest @ ..] = left {
        push_procedure(alloc, text, procedure)?;
        left = rest;
    }
    Ok(())
}

/// Appends inputs.
fn push_inputs(alloc: Global, text: &mut Vec<u8>, inputs: &[ArrayInput]) -> Result<(), NoMemory>
    ensures { OnOk result (Appends (flat_map input_tokens inputs.now) text.old.items text.new.items) }
{
    let mut left = inputs;
    while let [input, rest @ ..] = left {
        push_input(alloc, text, input)?;
        left = rest;
    }
    Ok(())
}

/// Appends what a program declares.
fn push_tree(alloc: Global, text: &mut Vec<u8>, tree: &Tree) -> Result<(), NoMemory>
    ensures { OnOk result (Appends (program_tokens (tree_of tree.now)) text.old.items text.new.items) }
{
    push_arrays(alloc, text, tree.arrays.as_slice())?;
    push_procedures(alloc, text, tree.procedures.as_slice())?;
    push_inputs(alloc, text, tree.inputs.as_slice())?;
    Ok(())
}

/// The canonical text of a program: one space between tokens, a line feed in its place after each
/// `;`, `{` and `}`, and parentheses round each operation with two operands; arrays first, then
/// procedures, then inputs. `Err` only where memory is refused.
pub fn print(alloc: Global, program: &Program) -> Result<Vec<u8>, NoMemory>
    ensures { IfOk result (λ text. text.items ≡ canonical_text (tree_of program.now)) }
{
    let mut text = Vec::new(alloc);
    push_tree(alloc, &mut text, program.tree())?;
    Ok(text)
}
