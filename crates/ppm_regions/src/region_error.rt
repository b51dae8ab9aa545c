//! Why a program is not admitted.
ghost use Rattle.std.specs.Prelude.{◌≡◌};
ghost use Rattle.ppm_regions.specs.ErrorNumbers.{number_of, line_of};

use ppm_words::NoMemory;
use thiserror::Error;

/// Why a program is not admitted, with a line, counted from 1: that of the name at fault, if
/// nothing else is said.
#[derive(Clone, Copy, Debug, PartialEq, Eq, Error)]
pub enum RegionError {
    /// No declaration of the name is in force, hidden or not, or there is no such procedure.
    #[error("an unknown name in line {0}")]
    UnknownName(u32),
    /// A declaration of the name is in force in the procedure, hidden or not; or it is a second
    /// array, procedure or input of the name.
    #[error("a name given twice in line {0}")]
    TwiceNamed(u32),
    /// A region where a local is asked for, or a local where a region is; or an argument for a
    /// region that is no name alone, with the line of its first token.
    #[error("a name of the wrong kind in line {0}")]
    WrongKind(u32),
    /// The procedure that is called has more or fewer parameters.
    #[error("a wrong number of arguments in line {0}")]
    WrongCount(u32),
    /// A region that may only be read is written, or lent to be written.
    #[error("a write to a region that may only be read in line {0}")]
    WriteToRef(u32),
    /// A region that is lent to be written is lent a second time, in a call or in both branches of
    /// a fork; at the later of the two names.
    #[error("a region lent twice in line {0}")]
    LentTwice(u32),
    /// The region is in parts, and only these may be used.
    #[error("a region in parts used whole in line {0}")]
    HiddenRegion(u32),
    /// The parameter of `main` is a number, or no array has its name, or `main` gives a value, with
    /// the line of the word `give`; in line 0 there is no `main`.
    #[error("no main, or a bad one in line {0}")]
    BadMain(u32),
    /// No array has the name of the input, or it has fewer words than the input has values.
    #[error("an input without room in line {0}")]
    BadInput(u32),
    /// A value is asked of a procedure that gives none.
    #[error("no value of the procedure in line {0}")]
    NoValue(u32),
    /// Both branches of a fork have one target; at the second.
    #[error("one target for two values in line {0}")]
    TwiceTarget(u32),
    /// In the block of an `each` a region from outside, or a part of one, is written, or lent to be
    /// written.
    #[error("a region from outside written in line {0}")]
    OuterWritten(u32),
    /// In the block of an `each` its index or a local from outside is assigned.
    #[error("a local from outside assigned in line {0}")]
    OuterAssigned(u32),
    /// Memory was refused.
    #[error("out of memory")]
    NoMemory,
}

impl RegionError {
    /// The number of the fault, from 1 to 13 in the order above; 0 where memory was refused.
    pub fn number(self) -> u32
        ensures { result ≡ number_of self }
    {
        match self {
            RegionError::UnknownName(_) => 1,
            RegionError::TwiceNamed(_) => 2,
            RegionError::WrongKind(_) => 3,
            RegionError::WrongCount(_) => 4,
            RegionError::WriteToRef(_) => 5,
            RegionError::LentTwice(_) => 6,
            RegionError::HiddenRegion(_) => 7,
            RegionError::BadMain(_) => 8,
            RegionError::BadInput(_) => 9,
            RegionError::NoValue(_) => 10,
            RegionError::TwiceTarget(_) => 11,
            RegionError::OuterWritten(_) => 12,
            RegionError::OuterAssigned(_) => 13,
            RegionError::NoMemory => 0,
        }
    }

    /// The line of the fault, counted from 1; 0 where there is no `main`, and where memory was
    /// refused.
    pub fn line(self) -> u32
        ensures { result ≡ line_of self }
    {
        match self {
            RegionError::UnknownName(line)
            | RegionError::TwiceNamed(line)
            | RegionError::WrongKind(line)
            | RegionError::WrongCount(line)
            | RegionError::WriteToRef(line)
            | RegionError::LentTwice(line)
            | RegionError::HiddenRegion(line)
            | RegionError::BadMain(line)
            | RegionError::BadInput(line)
            | RegionError::NoValue(line)
            | RegionError::TwiceTarget(line)
            | RegionError::OuterWritten(line)
            | RegionError::OuterAssigned(line) => line,
            RegionError::NoMemory => 0,
        }
    }
}

impl From<NoMemory> for RegionError {
    ghost use Rattle.std.specs.Prelude.{◌≡◌};
    ghost use Rattle.ppm_regions.specs.declared.region_error.RegionError.TheVariants as error;

    ghost from_gives = { λ _ e. e ≡ error.NoMemory };

    fn from(_: NoMemory) -> Self {
        RegionError::NoMemory
    }
}
