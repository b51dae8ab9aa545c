//! Where a line stands.
ghost use Rattle.std.specs.Prelude.{◌≡◌, ◌==◌, ◌+◌, ◌<◌, ◌^◌, None};
ghost use Rattle.ppm_listing_reader.specs.declared.place.Place.TheVariants.{Within};
ghost use Rattle.ppm_listing_reader.specs.Places.{may_stand as may, standing as stands};
ghost use Rattle.ppm_listing_reader.specs.Places.{asked as is_asked, room_behind as behind};
ghost use Rattle.ppm_listing_reader.specs.Places.{next as place_behind, counted};

use crate::part::Part;
use ppm_code::Instr;

/// What may stand at a line, by the lines before it.
#[derive(Clone, Copy, Debug, PartialEq, Eq)]
pub enum Place {
    /// The version.
    AtVersion,
    /// The root.
    AtRoot,
    /// The procedure of this number, or the first capsule.
    AtProcedure {
        number: u32,
    },
    /// An instruction of this capsule, or the next capsule.
    Within {
        capsule: u32,
        procedure: u32,
        /// How many lines the capsule has so far.
        at: u32,
        /// The words that its first instruction asks for.
        room: Option<u32>,
    },
}

/// Whether a number is the next one after another.
fn follows(number: u32, before: u32) -> bool
    ensures { result ≡ (number == before + 1) }
{
    u64::from(number) == u64::from(before) + 1
}

/// The words that an instruction asks for.
fn asked(instr: Option<Instr>) -> Option<u32>
    ensures { result ≡ is_asked instr }
{
    match instr {
        Some(Instr::Room { words }) => Some(words),
        _ => None,
    }
}

/// The words that a capsule asks for, after the instruction at a place of it.
fn room_behind(at: u32, instr: Option<Instr>, room: Option<u32>) -> Option<u32>
    ensures { result ≡ behind at instr room }
{
    if at == 0 { asked(instr) } else { room }
}

impl Place {
    /// Whether a part may stand here.
    fn may_stand(self, part: &Part) -> bool
        ensures { result ≡ may self part.now }
    {
        match self {
            Place::AtVersion => matches!(part, Part::Version),
            Place::AtRoot => matches!(part, Part::Root { .. }),
            Place::AtProcedure { number } => match part {
                Part::Procedure { number: own, .. } => *own == number,
                Part::Capsule { number: own, .. } => *own == 0,
                Part::Version | Part::Root { .. } | Part::Instr(_) => false,
            },
            Place::Within { capsule, .. } => match part {
                Part::Capsule { number, .. } => follows(*number, capsule),
                Part::Instr(_) => true,
                Part::Version | Part::Root { .. } | Part::Procedure { .. } => false,
            },
        }
    }

    /// What stands here.
    pub(crate) fn standing(self, line: Option<Part>) -> Option<Part>
        ensures { result ≡ stands self line }
    {
        match line {
            Some(part) => {
                if self.may_stand(&part) {
                    Some(part)
                } else {
                    None
                }
            }
            None => None,
        }
    }

    /// The place after what stands here.
    pub(crate) fn next(self, line: &Option<Part>) -> Place
        requires { counted self + 1 < 2 ^ 32 }
        ensures { result ≡ place_behind self line.now }
    {
        match self {
            Place::AtVersion => match line {
                Some(Part::Version) => Place::AtRoot,
                _ => self,
            },
            Place::AtRoot => match line {
                Some(Part::Root { .. }) => Place::AtProcedure { number: 0 },
                _ => self,
            },
            Place::AtProcedure { number } => match line {
                Some(Part::Procedure { .. }) => Place::AtProcedure { number: number + 1 },
                Some(
                    Part::Capsule {
                        number: capsule,
                        procedure,
                    },
                ) => Place::begin(*capsule, *procedure),
                _ => self,
            },
            Place::Within {
                capsule,
                procedure,
                at,
                room,
            } => match line {
                Some(Part::Capsule { number, procedure }) => Place::begin(*number, *procedure),
                Some(Part::Instr(instr)) => Place::Within {
                    capsule,
                    procedure,
                    at: at + 1,
                    room: room_behind(at, *instr, room),
                },
                None => Place::Within {
                    capsule,
                    procedure,
                    at: at + 1,
                    room: room_behind(at, None, room),
                },
                _ => self,
            },
        }
    }

    /// At the beginning of a capsule.
    fn begin(capsule: u32, procedure: u32) -> Place
        ensures { result ≡ Within capsule procedure 0 None }
    {
        Place::Within {
            capsule,
            procedure,
            at: 0,
            room: None,
        }
    }
}
