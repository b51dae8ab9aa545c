//! What is said of a trap, and of a run whose turns are spent.
ghost use Rattle.std.specs.Prelude.{◌≡◌, ◌++◌, IfOk, OnOk};
ghost use Rattle.std.specs.Fmt.{signed_decimal};
ghost use Rattle.std.specs.List.{flat_map};
ghost use Rattle.ppm_notes.specs.Traps.{calls_text, declared_text, held_text, innermost_text, procedure_text};
ghost use Rattle.ppm_notes.specs.Traps.{reading_text, stand_notes as notes_of_stand};
ghost use Rattle.ppm_notes.specs.Traps.{trap_meaning as trap_words, trap_notes as notes_of_trap};

use crate::meaning::push_note;
use ppm_by_name::{Held, Reading};
use ppm_explain::{push_line, push_word};
use ppm_pieces::push_number;
use ppm_standing::Stood;
use ppm_trapped::Told;
use ppm_words::{Name, NoMemory, Trap};
use std::alloc::Global;

/// Appends a number in decimal, with a minus where it is below 0.
fn push_signed(alloc: Global, notes: &mut Vec<u8>, value: i64) -> Result<(), NoMemory>
    ensures { OnOk result (notes.new.items ≡ notes.old.items ++ signed_decimal value) }
{
    let digits = value.to_string(alloc)?;
    notes.extend_from_slice(digits.as_bytes())?;
    Ok(())
}

/// Appends what a name stands for.
fn push_held(alloc: Global, notes: &mut Vec<u8>, held: Held) -> Result<(), NoMemory>
    ensures { OnOk result (notes.new.items ≡ notes.old.items ++ held_text held) }
{
    match held {
        Held::Value(value) => {
            push_word(notes, " is ")?;
            push_signed(alloc, notes, value)
        }
        Held::Words(words) => {
            push_word(notes, " has length ")?;
            push_number(notes, words as u64)?;
            Ok(())
        }
    }
}

/// Appends a name that is read, and what it stands for.
fn push_reading(alloc: Global, notes: &mut Vec<u8>, reading: &Reading) -> Result<(), NoMemory>
    ensures { OnOk result (notes.new.items ≡ notes.old.items ++ reading_text reading.now) }
{
    push_word(notes, "name: `")?;
    notes.extend_from_slice(reading.name.as_bytes())?;
    push_word(notes, "`")?;
    push_held(alloc, notes, reading.held)?;
    push_word(notes, "\n")
}

/// Appends the names that are read.
fn push_readings(alloc: Global, notes: &mut Vec<u8>, readings: &[Reading]) -> Result<(), NoMemory>
    ensures { OnOk result (notes.new.items ≡ notes.old.items ++ flat_map reading_text readings.now) }
{
    for reading in readings {
        push_reading(alloc, notes, reading)?;
    }
    Ok(())
}

/// Appends the end of a line: in which line a name is declared.
fn push_declared(notes: &mut Vec<u8>, line: u32) -> Result<(), NoMemory>
    ensures { OnOk result (notes.new.items ≡ notes.old.items ++ declared_text line) }
{
    push_word(notes, "` in line ")?;
    push_number(notes, u64::from(line))?;
    push_word(notes, "\n")
}

/// Appends the procedure in whose body the run traps or stands.
fn push_procedure(notes: &mut Vec<u8>, name: &Name, line: u32) -> Result<(), NoMemory>
    ensures { OnOk result (notes.new.items ≡ notes.old.items ++ procedure_text name.now line) }
{
    push_word(notes, "procedure: `")?;
    notes.extend_from_slice(name.as_bytes())?;
    push_declared(notes, line)
}

/// Appends the line of the innermost call, if one is open.
fn push_innermost(notes: &mut Vec<u8>, calls: u64, line: u32) -> Result<(), NoMemory>
    ensures { OnOk result (notes.new.items ≡ notes.old.items ++ innermost_text calls line) }
{
    if calls == 0 {
        return Ok(());
    }
    push_word(notes, ", the innermost in line ")?;
    push_number(notes, u64::from(line))?;
    Ok(())
}

/// Appends the calls that are open.
fn push_calls(notes: &mut Vec<u8>, calls: u64, line: u32) -> Result<(), NoMemory>
    ensures { OnOk result (notes.new.items ≡ notes.old.items ++ calls_text calls line) }
{
    push_word(notes, "calls open: ")?;
    push_number(notes, calls)?;
    push_innermost(notes, calls, line)?;
    push_word(notes, "\n")
}

/// What a trap means.
fn trap_meaning(trap: Trap) -> &'static str
    ensures { result.now ≡ trap_words trap }
{
    match trap {
        Trap::Overflow =>
            "a sum, a difference, a product, a quotient or a `-` of this line is no number from -9223372036854775808 to 9223372036854775807",
        Trap::DivZero => "a `/` or a `%` of this line has 0 on its right",
        Trap::Index => "an index of this line is below 0, or not below the length of its region",
        Trap::Split =>
            "the number of this line at which the region is split is below 0, or above the length of the region",
    }
}

/// What is said, after its line, of a trap of a source: the line, the names that are read there with
/// what they stand for, the procedure, and what the trap means. `Err` only where memory is refused.
pub fn trap_notes(alloc: Global, text: &[u8], told: &Told) -> Result<Vec<u8>, NoMemory>
    ensures { IfOk result (λ notes. notes.items ≡ notes_of_trap text.now told.now) }
{
    let mut notes = Vec::new(alloc);
    push_line(&mut notes, text, told.line)?;
    push_readings(alloc, &mut notes, told.values.as_slice())?;
    push_procedure(&mut notes, &told.procedure, told.procedure_line)?;
    push_note(&mut notes, trap_meaning(told.trap))?;
    Ok(notes)
}

/// What is said, after its line, of a run of a source whose turns are spent: the line that comes
/// next, the names that are read there with what they stand for, the procedure, the calls that are
/// open, and what it means. `Err` only where memory is refused.
pub fn stand_notes(alloc: Global, text: &[u8], stood: &Stood) -> Result<Vec<u8>, NoMemory>
    ensures { IfOk result (λ notes. notes.items ≡ notes_of_stand text.now stood.now) }
{
    let mut notes = Vec::new(alloc);
    push_line(&mut notes, text, stood.line)?;
    push_readings(alloc, &mut notes, stood.values.as_slice())?;
    push_procedure(&mut notes, &stood.procedure, stood.procedure_line)?;
    push_calls(&mut notes, stood.calls, stood.call_line)?;
    push_note(
        &mut notes,
        "the turns are spent when this comes next: either they are too few, or a loop or a recursion has no end",
    )?;
    Ok(notes)
}
