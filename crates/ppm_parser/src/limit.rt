//! What a program has a limit on.
ghost use Rattle.std.specs.Prelude.{◌≡◌};
ghost use Rattle.ppm_parser.specs.SyntaxErrorNumbers.{which_of};

/// What a program has a limit on.
#[derive(Clone, Copy, Debug, PartialEq, Eq)]
pub enum Limit {
    /// The arrays of the program, 64.
    Arrays,
    /// The words of all its arrays together, 4,194,304.
    ArrayWords,
    /// Its procedures, each `each` counted with them, 1,024.
    Procedures,
    /// The parameters of a procedure, or the arguments of a call, 12.
    Elements,
    /// The nodes in the expressions of one statement, 48.
    Nodes,
}

impl Limit {
    /// The number of the limit: 1 `Arrays`, 2 `ArrayWords`, 3 `Procedures`, 4 `Elements`, 5
    /// `Nodes`.
    pub fn number(self) -> u32
        ensures { result ≡ which_of self }
    {
        match self {
            Limit::Arrays => 1,
            Limit::ArrayWords => 2,
            Limit::Procedures => 3,
            Limit::Elements => 4,
            Limit::Nodes => 5,
        }
    }
}
