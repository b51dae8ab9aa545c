//! Reads lines one by one, and keeps what is needed to find their first fault.
ghost use Rattle.std.specs.Prelude.{◌≡◌, ◌∷◌, [], ◌++◌, ◌+◌, ◌<◌, ◌^◌, if◌then◌else◌, OnOk};
ghost use Rattle.ppm_listing_reader.specs.Places.{counted};
ghost use Rattle.ppm_listing_reader.specs.Fronts.{breaks_alone as alone, HasRead, Takes};

use crate::outline::Outline;
use crate::part::Part;
use crate::place::Place;
use ppm_words::{CAPSULE_LIMIT, NoMemory, PROCEDURE_LIMIT};
use std::alloc::Global;

/// What is kept of lines: no more of them than a listing may have, and what all declare.
#[derive(Debug, Drop)]
pub struct Reader {
    /// The lines up to the first that breaks a rule whatever the others declare.
    pub kept: Vec<Option<Part>>,
    pub outline: Outline,
    /// What may stand next.
    pub place: Place,
    /// Whether such a line was read.
    pub is_broken: bool,
}

/// Whether what stands at a place breaks a rule whatever the other lines declare.
fn breaks_alone(place: Place, line: &Option<Part>) -> bool
    ensures { result ≡ alone place line.now }
{
    match line {
        None => true,
        Some(Part::Procedure { number, .. }) => *number >= PROCEDURE_LIMIT,
        Some(Part::Capsule { number, .. }) => *number >= CAPSULE_LIMIT,
        Some(Part::Instr(_)) => match place {
            Place::Within { at, .. } => at >= 160,
            Place::AtVersion | Place::AtRoot | Place::AtProcedure { .. } => false,
        },
        Some(Part::Version) | Some(Part::Root { .. }) => false,
    }
}

/// Keeps a line, unless one before it is broken.
fn keep(kept: &mut Vec<Option<Part>>, is_broken: bool, line: Option<Part>) -> Result<(), NoMemory>
    ensures { OnOk result (kept.new.items
        ≡ (if is_broken then kept.old.items else (kept.old.items ++ line ∷ []))) }
{
    if is_broken {
        return Ok(());
    }
    kept.push(line)?;
    Ok(())
}

impl Reader {
    /// No line was read.
    pub(crate) fn new(alloc: Global) -> Reader
        ensures { HasRead result [] }
    {
        Reader {
            kept: Vec::new(alloc),
            outline: Outline::new(alloc),
            place: Place::AtVersion,
            is_broken: false,
        }
    }

    /// Takes in the next line.
    pub(crate) fn take(&mut self, line: Option<Part>) -> Result<(), NoMemory>
        requires { counted self.old.place + 1 < 2 ^ 32 }
        ensures { OnOk result (Takes self.old line self.new) }
    {
        let line = self.place.standing(line);
        self.outline.add(&line)?;
        let is_broken = self.is_broken;
        self.is_broken = is_broken || breaks_alone(self.place, &line);
        self.place = self.place.next(&line);
        keep(&mut self.kept, is_broken, line)
    }
}
