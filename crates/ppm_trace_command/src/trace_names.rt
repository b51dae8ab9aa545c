//! The names by which a trace tells the arrays and the procedures of a code.
ghost use Rattle.std.specs.Prelude.{◌≡◌, ◌++◌, IfOk, OnOk, map};
ghost use Rattle.ppm_tree.specs.Tree.{block_of, procedure_of, statement_of, tree_of};
ghost use Rattle.ppm_trace_command.specs.TraceNames.{all_hidden_names, case_names as names_in_case};
ghost use Rattle.ppm_trace_command.specs.TraceNames.{hidden_names, hidden_names_in, names_with};
ghost use Rattle.ppm_trace_command.specs.TraceNames.{program_names as names_in_program, text_names};

use ppm_code::Code;
use ppm_naming::{Names, ProcedureName};
use ppm_regions::Admitted;
use ppm_tree::{Proc, Stmt};
use ppm_words::{Input, Items, NamedArray, NoMemory};
use std::alloc::Global;

/// The names of a program's arrays and procedures. `Err` only where memory is refused.
pub(crate) fn program_names(alloc: Global, program: &Admitted) -> Result<Names, NoMemory>
    ensures { IfOk result (λ names. names ≡ names_in_program (tree_of program.now)) }
{
    let procedures = program.program().tree().procedures.as_slice();
    let mut names = Vec::new(alloc);
    push_texts(alloc, &mut names, procedures)?;
    push_all_hidden(&mut names, procedures)?;
    let named = with_arrays(alloc, names, program.input().arrays())?;
    Ok(named)
}

/// The names of the arrays of a case, and the numbers of its procedures. `Err` only where memory is
/// refused.
pub(crate) fn case_names(alloc: Global, code: &Code, input: &Input) -> Result<Names, NoMemory>
    ensures { IfOk result (λ names. names ≡ names_in_case code.now input.now) }
{
    let count = code.parts().procedures.as_slice().len() as u32;
    let mut names = Vec::new(alloc);
    for number in 0..count {
        names.push(ProcedureName::Numbered(number))?;
    }
    let named = with_arrays(alloc, names, input.arrays())?;
    Ok(named)
}

/// The names of these procedures, with those of arrays.
fn with_arrays(
    alloc: Global,
    procedures: Vec<ProcedureName>,
    arrays: &[NamedArray],
) -> Result<Names, NoMemory>
    ensures { IfOk result (λ names. names ≡ names_with procedures.items arrays.now) }
{
    let mut named = Vec::new(alloc);
    let mut left = arrays;
    while let [array, rest @ ..] = left {
        named.push(array.name.try_clone(alloc)?)?;
        left = rest;
    }
    Ok(Names {
        arrays: Items::from_vec(named),
        procedures: Items::from_vec(procedures),
    })
}

/// Adds the names of the procedures of a text.
fn push_texts(
    alloc: Global,
    names: &mut Vec<ProcedureName>,
    procedures: &[Proc],
) -> Result<(), NoMemory>
    ensures { OnOk result (names.new.items
        ≡ names.old.items ++ text_names (map procedure_of procedures.now)) }
{
    let mut left = procedures;
    while let [procedure, rest @ ..] = left {
        let name = procedure.name.name.try_clone(alloc)?;
        names.push(ProcedureName::Named(name))?;
        left = rest;
    }
    Ok(())
}

/// Adds the names of all hidden procedures.
fn push_all_hidden(names: &mut Vec<ProcedureName>, procedures: &[Proc]) -> Result<(), NoMemory>
    ensures { OnOk result (names.new.items
        ≡ names.old.items ++ all_hidden_names (map procedure_of procedures.now)) }
{
    let mut left = procedures;
    while let [procedure, rest @ ..] = left {
        push_hidden_in(names, &procedure.body)?;
        left = rest;
    }
    Ok(())
}

/// Adds the names of the hidden procedures of a statement.
#[cycle(hidden)]
fn push_hidden(names: &mut Vec<ProcedureName>, statement: &Stmt) -> Result<(), NoMemory>
    ensures { OnOk result (names.new.items
        ≡ names.old.items ++ hidden_names (statement_of statement.now)) }
{
    match statement {
        Stmt::If(_, holds, other) => {
            push_hidden_in(names, holds)?;
            push_hidden_in(names, other)
        }
        Stmt::While(_, block) => push_hidden_in(names, block),
        Stmt::Split(_, _, _, _, _, block) => push_hidden_in(names, block),
        Stmt::Each(_, _, region, block) => {
            names.push(ProcedureName::EachOf(region.line))?;
            push_hidden_in(names, block)
        }
        Stmt::Let(_, _)
        | Stmt::Assign(_, _)
        | Stmt::Put(_, _, _)
        | Stmt::Call(_)
        | Stmt::Fork(_, _) => Ok(()),
    }
}

/// Adds those of a block.
#[cycle(hidden)]
fn push_hidden_in(names: &mut Vec<ProcedureName>, block: &[Stmt]) -> Result<(), NoMemory>
    ensures { OnOk result (names.new.items
        ≡ names.old.items ++ hidden_names_in (block_of block.now)) }
{
    for statement in block {
        push_hidden(names, statement)?;
    }
    Ok(())
}
