//! What is true of every join, shown by calls that do nothing.
ghost use Rattle.ppm_cells.specs.JoinLaws.{SetOnce, OneIsLast};

/// An order word changes once at most, from 0; an arrival goes on in its order, and one that is not
/// the first changes nothing.
pub fn order_words_are_set_once()
    ensures law { SetOnce }
{}

/// Of two branches that have arrived exactly one is last: the one that did not arrive first, or the
/// right one where one strand runs both. The left one then runs the right one.
pub fn one_branch_is_last()
    ensures law { OneIsLast }
{}
