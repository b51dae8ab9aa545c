//! What is true of every canonical text, shown by calls that do nothing.
ghost use Rattle.ppm_printer.specs.Correct.{PrintedTextsHaveTheirTree, CanonicalTextsTellPrograms};

/// The canonical text of a tree within the limits has the tree again, lines apart; it may pass the
/// limits on length and on openings. It waits for a command that prints.
pub fn printed_texts_have_their_tree()
    ensures law { PrintedTextsHaveTheirTree }
{}

/// Two programs within the limits have one canonical text exactly where they are the same, lines
/// apart. It waits for the same command.
pub fn canonical_texts_tell_programs()
    ensures law { CanonicalTextsTellPrograms }
{}
