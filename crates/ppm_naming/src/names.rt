//! The names of a program's arrays and procedures.
ghost use Rattle.std.specs.Prelude.{◌≡◌, ◌++◌, OnOk};
ghost use Rattle.ppm_naming.specs.Cells.{procedure_name_text, procedure_text};

use crate::numbers::push_word;
use ppm_pieces::push_number;
use ppm_words::{Items, Name, NoMemory};

/// How a procedure of a code is called.
#[derive(Debug, Drop)]
pub enum ProcedureName {
    /// By its name in the source.
    Named(Name),
    /// As what runs the branches of the `each` in this line of the source; lines count from 1.
    EachOf(u32),
    /// By its number in the code, from 0.
    Numbered(u32),
}

/// The names of a program.
#[derive(Debug, Drop)]
pub struct Names {
    /// Those of its arrays, in the order in which it declares them.
    pub arrays: Items<Name>,
    /// Those of the procedures of its code, by their numbers.
    pub procedures: Items<ProcedureName>,
}

/// Appends how a procedure is called.
fn push_procedure_name(text: &mut Vec<u8>, name: &ProcedureName) -> Result<(), NoMemory>
    ensures { OnOk result (text.new.items ≡ text.old.items ++ procedure_name_text name.now) }
{
    match name {
        ProcedureName::Named(name) => text.extend_from_slice(name.as_bytes())?,
        ProcedureName::EachOf(line) => {
            push_word(text, "each:")?;
            push_number(text, u64::from(*line))?;
        }
        ProcedureName::Numbered(number) => {
            push_word(text, "proc:")?;
            push_number(text, u64::from(*number))?;
        }
    }
    Ok(())
}

/// Appends how the procedure with this number is called; `?` where there is none.
pub fn push_procedure(text: &mut Vec<u8>, names: &Names, number: u32) -> Result<(), NoMemory>
    ensures { OnOk result (text.new.items ≡ text.old.items ++ procedure_text names.now number) }
{
    match names.procedures.as_slice().get(number as usize) {
        Some(name) => push_procedure_name(text, name),
        None => {
            text.push(b'?')?;
            Ok(())
        }
    }
}
