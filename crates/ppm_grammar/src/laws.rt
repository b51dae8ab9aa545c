//! What is true of every grammar, shown by calls that do nothing.
ghost use Rattle.ppm_grammar.specs.Rows.{Grammar};
ghost use Rattle.ppm_grammar.specs.Correct.{HaveOneAnswer, ParsersAnswer, TestTells};

/// A table that passes the test has the property that one token tells which row of a part comes.
pub fn test_tells<T, K, P, V, C>()
    ensures law { (g : Grammar T K P V C) → TestTells g }
{}

/// Where one token tells which row of a part comes, tokens have one tree within the limits or one
/// fault, never both, and one of the two.
pub fn have_one_answer<T, K, P, V, C>()
    ensures law { (g : Grammar T K P V C) → HaveOneAnswer g }
{}

/// What a parser reads whole by such a table has a tree within the limits, and where it stops the
/// tokens have that fault.
pub fn parsers_answer<T, K, P, V, C>()
    ensures law { (g : Grammar T K P V C) → ParsersAnswer g }
{}
