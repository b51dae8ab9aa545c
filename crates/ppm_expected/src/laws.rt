//! What is true of every grammar, shown by calls that do nothing.
ghost use Rattle.ppm_grammar.specs.Rows.{Grammar};
ghost use Rattle.ppm_expected.specs.Machine.{CollectsExpected};

/// Where one token tells the row, the kinds that are collected from the rows are just those of the
/// tokens that can stand after the tokens read, and it is told whether a text may end there.
pub fn collects_expected<T, K, P, V, C>()
    ensures law { (g : Grammar T K P V C) → CollectsExpected g }
{}
