//! The parts of a text.
use ppm_rows::Level;

/// A part of a text, as the grammar names it.
#[derive(Clone, Copy)]
pub(crate) enum Phrase {
    Source,
    Declaration,
    Length,
    Words,
    ParameterList,
    SomeParameters,
    MoreParameters,
    Parameter,
    Mode,
    Integer,
    MoreIntegers,
    Body,
    Block,
    Statements,
    Give,
    Statement,
    AfterName,
    Assigned,
    Else,
    Side,
    AfterTarget,
    Call,
    ArgumentList,
    SomeArguments,
    MoreArguments,
    Argument,
    Element,
    Operation(Level),
    FromOperand(Level),
    Operand,
    Index,
}

/// A whole expression.
pub(crate) const EXPRESSION: Phrase = Phrase::Operation(Level::Either);
