//! What is true of every saved text, shown by calls that do nothing.
ghost use Rattle.ppm_saved.specs.Correct.{SavedTextsTellStates};
ghost use Rattle.ppm_saved.specs.Runs.{RunsAreLongest};

/// Words have one list of longest runs, and these runs have no other words.
pub fn runs_are_the_longest()
    ensures law { RunsAreLongest }
{}

/// A saved text tells its state: two states with one text are one, but for their takeovers.
pub fn saved_texts_tell_states()
    ensures law { SavedTextsTellStates }
{}
