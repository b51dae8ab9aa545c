//! The laws.
ghost use Rattle.ppm_cut_correct.specs.Beginning.{StartWithInput, NameArrays};
ghost use Rattle.ppm_cut_correct.specs.Correct.{EndAsMeant, EndsSerially};

/// The arrays that a program's text gives are an input for its arrays: with their names, as long as
/// they are, of values of the language.
pub fn start_with_input()
    ensures law { StartWithInput }
{}

/// The root of a program's code names arrays of each input for its arrays: a number below their
/// count for each parameter of `main`.
pub fn name_arrays()
    ensures law { NameArrays }
{}

/// With every input for its arrays a program's code ends depth first exactly where the program does
/// that runs both branches of each fork whole: with its arrays or its first trap, after at most two
/// capsules a turn, the same forks, and the words of the frame of `main` and of the blocks for its
/// calls, its forks and each `each`, also of a call or fork whose arguments trap; and where the
/// program has no such end, the code runs for ever.
pub fn end_as_meant()
    ensures law { EndAsMeant }
{}

/// From the arrays that its text gives, a program's code comes depth first to the program's serial
/// outcome, and to no other: to its arrays wherever it ends without a trap, in at most two capsules
/// a turn; to its first trap only where the branches beside that end too.
pub fn ends_serially()
    ensures law { EndsSerially }
{}
