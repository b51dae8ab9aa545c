//! The code of a program.
ghost use Rattle.std.specs.Prelude.{◌≡◌, ◌≤◌, ◌+◌, [], length, map, codes, IfOk, OnOk};
ghost use Rattle.std.specs.List.{AllByRecursion};
ghost use Rattle.ppm_tree.specs.Tree.{procedure_of, tree_of};
ghost use Rattle.ppm_tree.specs.Program.{whole_from};
ghost use Rattle.ppm_regions.specs.Admission.{IsAdmitted};
ghost use Rattle.ppm_cut_bounds.specs.Bounds.{IsWithinBounds};
ghost use Rattle.ppm_cut_code.specs.Routines.{code_of, texts_from, hidden_from};
ghost use Rattle.ppm_cut.specs.Counts.{count_limit, own_counts, hidden_counts, IsShortProcedure};
ghost use Rattle.ppm_cut.specs.Counts.{IsSmallProcedure};
ghost use Rattle.ppm_cut.specs.Drafts.{Drafts};

use crate::callees::Callees;
use crate::counts::hidden_behind_block;
use crate::draft::Draft;
use crate::layout::Layout;
use ppm_code::{Code, CodeParts};
use ppm_tree::{Array, Parameter, Proc, Program, Tree};
use ppm_words::{Items, Name, NoMemory};
use std::alloc::Global;

/// The number of the array with a name; 0 where there is none.
fn array_of(arrays: &[Array], name: &Name) -> u32
    requires few { length arrays.now ≤ 64 }
    ensures { result ≡ (whole_from 0 arrays.now name.now).array }
{
    let mut number = 0;
    for array in arrays {
        if array.name.name.as_bytes() == name.as_bytes() {
            return number;
        }
        number += 1;
    }
    0
}

/// The arrays of the parameters of `main`.
fn arrays_of(
    alloc: Global,
    arrays: &[Array],
    parameters: &[Parameter],
) -> Result<Vec<u32>, NoMemory>
    requires few { length arrays.now ≤ 64 }
    ensures { IfOk result (λ numbers. numbers.items
        ≡ map (λ p. (whole_from 0 arrays.now p.name.name).array) parameters.now) }
{
    let mut numbers = Vec::new(alloc);
    for parameter in parameters {
        numbers.push(array_of(arrays, &parameter.name.name))?;
    }
    Ok(numbers)
}

/// Adds the procedures of the text.
fn push_texts(draft: &mut Draft, callees: &Callees<'_>, procedures: &[Proc]) -> Result<(), NoMemory>
    requires empty { draft.old.procedures.items ≡ [] }
    requires next { draft.old.next ≡ 0 }
    requires few { length procedures.now ≤ 1024 }
    requires short { AllByRecursion (λ p. IsShortProcedure (procedure_of p)) procedures.now }
    requires counts { own_counts (map procedure_of procedures.now) + hidden_counts (map procedure_of procedures.now) ≤ 65535 }
    ensures drafts { OnOk result (Drafts (map procedure_of callees.now)
        (texts_from (length procedures.now) (map procedure_of procedures.now)) draft.old draft.new) }
    ensures next { OnOk result (draft.new.next ≤ own_counts (map procedure_of procedures.now)) }
{
    let mut hidden = procedures.len() as u32;
    for procedure in procedures {
        draft.push_text(callees, hidden, procedure)?;
        hidden = hidden_behind_block(&procedure.body, hidden);
    }
    Ok(())
}

/// Adds the hidden procedures.
fn push_hiddens(
    draft: &mut Draft,
    callees: &Callees<'_>,
    procedures: &[Proc],
) -> Result<(), NoMemory>
    requires number { length draft.old.procedures.items ≡ length procedures.now }
    requires few { length procedures.now ≤ 1024 }
    requires short { AllByRecursion (λ p. IsShortProcedure (procedure_of p)) procedures.now }
    requires counts { own_counts (map procedure_of procedures.now) + hidden_counts (map procedure_of procedures.now) ≤ 65535 }
    requires next { draft.old.next ≤ own_counts (map procedure_of procedures.now) }
    ensures drafts { OnOk result (Drafts (map procedure_of callees.now)
        (hidden_from (length procedures.now) (map procedure_of procedures.now)) draft.old draft.new) }
{
    let mut hidden = procedures.len() as u32;
    for procedure in procedures {
        let mut layout = Layout::of_parameters(draft.alloc, procedure.parameters.as_slice())?;
        draft.push_hidden_block(callees, &mut layout, hidden, &procedure.body)?;
        hidden = hidden_behind_block(&procedure.body, hidden);
    }
    Ok(())
}

/// The parts of the code of a tree whose counts are small.
fn parts_of(alloc: Global, tree: &Tree) -> Result<CodeParts, NoMemory>
    requires arrays { length (tree_of tree.now).arrays ≤ 64 }
    requires few { length (tree_of tree.now).procedures ≤ 1024 }
    requires short { AllByRecursion (λ p. IsShortProcedure (procedure_of p)) tree.now.procedures }
    requires small { AllByRecursion (λ p. IsSmallProcedure (procedure_of p)) tree.now.procedures }
    requires counts { own_counts (tree_of tree.now).procedures + hidden_counts (tree_of tree.now).procedures ≤ 65535 }
    ensures { IfOk result (λ parts. parts ≡ code_of (tree_of tree.now)) }
{
    let procedures = tree.procedures.as_slice();
    let callees = Callees::new(alloc, procedures)?;
    let mut draft = Draft::new(alloc);
    push_texts(&mut draft, &callees, procedures)?;
    push_hiddens(&mut draft, &callees, procedures)?;
    let root = callees.find(b"main");
    let arrays = arrays_of(alloc, tree.arrays.as_slice(), root.parameters)?;
    Ok(CodeParts {
        root: root.number,
        arrays: Items::from_vec(arrays),
        procedures: Items::from_vec(draft.procedures),
        capsules: Items::from_vec(draft.capsules),
    })
}

/// The code of a program that was admitted and is within the compiler's bounds.
pub fn cut(alloc: Global, program: &Program) -> Result<Code, NoMemory>
    requires admitted { IsAdmitted (tree_of program.now) }
    requires bounded { IsWithinBounds (tree_of program.now) }
    ensures code { IfOk result (λ code. code ≡ code_of (tree_of program.now)) }
{
    let parts = parts_of(alloc, program.tree())?;
    Ok(Code::from_parts(parts))
}
