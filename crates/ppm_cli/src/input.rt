//! Which text is read, as the words give it.
ghost use Rattle.std.specs.Prelude.{◌≡◌};
ghost use Rattle.clap.specs.Words.{found_of, rows_of};
ghost use Rattle.ppm_cli.specs.Values.{input_given, is_case_given};

use crate::getters::choice_of;
use crate::table::{ANY_INPUT, INPUT};
use clap::ArgMatches;

/// Which text is read.
#[derive(Clone, Copy, Debug, PartialEq, Eq)]
pub enum InputKind {
    /// A source.
    Source,
    /// A case: a code with its arrays.
    Case,
    /// A saved text, from whose state the run goes on.
    Saved,
}

/// Whether a case is read, if the matches name the text by one of the two words: `source` or
/// `case`.
pub(crate) fn is_case(matches: &ArgMatches<'_>) -> Option<bool>
    ensures { result ≡ is_case_given (rows_of (found_of matches.now)) }
{
    choice_of(matches, INPUT, &[false, true])
}

/// Which text is read, if the matches name it by one of the three words: `source`, `case` or
/// `saved`.
pub(crate) fn input_of(matches: &ArgMatches<'_>) -> Option<InputKind>
    ensures { result ≡ input_given (rows_of (found_of matches.now)) }
{
    choice_of(
        matches,
        ANY_INPUT,
        &[InputKind::Source, InputKind::Case, InputKind::Saved],
    )
}
