//! The two branches of a fork.
ghost use Rattle.std.specs.Prelude.{◌≡◌, ◌<◌};
ghost use Rattle.ppm_cells.specs.Sides.{side_number, side_with};

/// A branch of a fork.
#[derive(Clone, Copy, Debug, PartialEq, Eq)]
pub enum Side {
    Left,
    Right,
}

impl Side {
    /// The number of the branch: 0 is the left one, 1 the right one.
    pub fn number(self) -> u32
        ensures { result ≡ side_number self }
    {
        match self {
            Side::Left => 0,
            Side::Right => 1,
        }
    }

    /// The branch with a number.
    pub(crate) fn with(number: u64) -> Side
        ensures { result ≡ side_with number }
    {
        if number == 0 { Side::Left } else { Side::Right }
    }
}
