//! What is true of the grammar, shown by calls that do nothing.
ghost use Rattle.ppm_rows.specs.Correct.{TokensHaveOneAnswer, TreesAreWithin};
ghost use Rattle.ppm_rows.specs.Follow.{LanguageIsPredictive};

/// One token tells which row of a part comes.
pub fn has_one_row()
    ensures law { LanguageIsPredictive }
{}

/// Tokens have one tree within the limits or one fault, never both, and one of the two.
pub fn have_one_answer()
    ensures law { TokensHaveOneAnswer }
{}

/// A tree of tokens that stand in a text of at most 1,048,576 bytes is within the limits on trees.
pub fn trees_are_within()
    ensures law { TreesAreWithin }
{}
