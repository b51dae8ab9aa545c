//! What is true of every run, shown by calls that do nothing.
ghost use Rattle.ppm_tree.specs.Begun.{NoneIsStuck};
ghost use Rattle.ppm_tree.specs.Division.{DivideTowardsZero};
ghost use Rattle.ppm_tree.specs.Correct.{HaveOneEnd, SpendTheirTurns, EndWhole};

/// A block and a procedure have one end at most, in both forms of the meaning.
pub fn have_one_end()
    ensures law { HaveOneEnd }
{}

/// A program has one outcome at most within a number of turns; more turns never change it, and it
/// has none exactly where more turns would be spent.
pub fn spend_their_turns()
    ensures law { SpendTheirTurns }
{}

/// Where the whole form of the meaning ends, the plain one ends alike, and so the other way round
/// where there is no trap.
pub fn end_whole()
    ensures law { EndWhole }
{}

/// Quotients are truncated towards zero, and a remainder that isn't 0 has the dividend's sign. No
/// proof stands on it: it says for the reader what the operators of the library do.
pub fn divide_towards_zero()
    ensures law { DivideTowardsZero }
{}

/// For each number of turns a program ends, or spends as many, and then ends within no fewer: no
/// run is ever stuck. So no program is `NotWithin` for want of a rule.
pub fn none_is_stuck()
    ensures law { NoneIsStuck }
{}
