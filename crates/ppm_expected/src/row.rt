//! The rows of the grammar as data.
ghost use Rattle.std.specs.Prelude.{◌≡◌};
ghost use Rattle.ppm_expected.specs.Language.{phrase_of, rows_of, rows_in};

use crate::phrase::Phrase;
use crate::terminal::Terminal;
use crate::{declarations, expressions, statements};

/// A piece of a row: a token of a kind, or a part.
#[derive(Clone, Copy)]
pub(crate) enum Item {
    Take(Terminal),
    Part(Phrase),
}

/// One form of a part: its items in order.
#[derive(Clone, Copy)]
pub(crate) struct Row {
    pub items: &'static [Item],
}

/// A form without items.
pub(crate) const EMPTY: Row = Row { items: &[] };

/// The rows of a part.
pub(crate) fn rows(phrase: Phrase) -> &'static [Row]
    ensures { rows_of result.now ≡ rows_in (phrase_of phrase) }
{
    match phrase {
        Phrase::Source => declarations::SOURCE,
        Phrase::Declaration => declarations::DECLARATION,
        Phrase::Length => declarations::LENGTH,
        Phrase::Words => declarations::WORDS,
        Phrase::ParameterList => declarations::PARAMETER_LIST,
        Phrase::SomeParameters => declarations::SOME_PARAMETERS,
        Phrase::MoreParameters => declarations::MORE_PARAMETERS,
        Phrase::Parameter => declarations::PARAMETER,
        Phrase::Mode => declarations::MODE,
        Phrase::Integer => declarations::INTEGER,
        Phrase::MoreIntegers => declarations::MORE_INTEGERS,
        Phrase::Body => declarations::BODY,
        Phrase::Block => statements::BLOCK,
        Phrase::Statements => statements::STATEMENTS,
        Phrase::Give => statements::GIVE,
        Phrase::Statement => statements::STATEMENT,
        Phrase::AfterName => statements::AFTER_NAME,
        Phrase::Assigned => statements::ASSIGNED,
        Phrase::Else => statements::ELSE,
        Phrase::Side => statements::SIDE,
        Phrase::AfterTarget => statements::AFTER_TARGET,
        Phrase::Call => statements::CALL,
        Phrase::ArgumentList => statements::ARGUMENT_LIST,
        Phrase::SomeArguments => statements::SOME_ARGUMENTS,
        Phrase::MoreArguments => statements::MORE_ARGUMENTS,
        Phrase::Argument => statements::ARGUMENT,
        Phrase::Element => statements::ELEMENT,
        Phrase::Operation(level) => expressions::operation(level),
        Phrase::FromOperand(level) => expressions::from_operand(level),
        Phrase::Operand => expressions::OPERAND,
        Phrase::Index => expressions::INDEX,
    }
}
