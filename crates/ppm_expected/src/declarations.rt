//! The rows of declarations.
use crate::phrase::Phrase;
use crate::row::Item::{Part, Take};
use crate::row::{EMPTY, Row};
use crate::terminal::Terminal::{Mark, Name, Number, Word};
use ppm_text::{Keyword, Sign};

/// The rows of a text.
pub(crate) const SOURCE: &[Row] = &[
    EMPTY,
    Row {
        items: &[Part(Phrase::Declaration), Part(Phrase::Source)],
    },
];

/// The rows of a declaration.
pub(crate) const DECLARATION: &[Row] = &[
    Row {
        items: &[
            Take(Word(Keyword::Array)),
            Take(Name),
            Part(Phrase::Length),
            Take(Mark(Sign::Semicolon)),
        ],
    },
    Row {
        items: &[
            Take(Word(Keyword::Proc)),
            Take(Name),
            Part(Phrase::ParameterList),
            Part(Phrase::Body),
        ],
    },
    Row {
        items: &[
            Take(Word(Keyword::Input)),
            Take(Name),
            Take(Mark(Sign::Assign)),
            Part(Phrase::Integer),
            Part(Phrase::MoreIntegers),
            Take(Mark(Sign::Semicolon)),
        ],
    },
];

/// The rows of an array's length.
pub(crate) const LENGTH: &[Row] = &[Row {
    items: &[
        Take(Mark(Sign::OpenBracket)),
        Part(Phrase::Words),
        Take(Mark(Sign::CloseBracket)),
    ],
}];

/// The rows of the number in it.
pub(crate) const WORDS: &[Row] = &[Row {
    items: &[Take(Number)],
}];

/// The rows of a list of parameters.
pub(crate) const PARAMETER_LIST: &[Row] = &[Row {
    items: &[
        Take(Mark(Sign::OpenParen)),
        Part(Phrase::SomeParameters),
        Take(Mark(Sign::CloseParen)),
    ],
}];

/// The rows of what stands in it.
pub(crate) const SOME_PARAMETERS: &[Row] = &[
    EMPTY,
    Row {
        items: &[Part(Phrase::Parameter), Part(Phrase::MoreParameters)],
    },
];

/// The rows of the parameters after the first.
pub(crate) const MORE_PARAMETERS: &[Row] = &[
    EMPTY,
    Row {
        items: &[
            Take(Mark(Sign::Comma)),
            Part(Phrase::Parameter),
            Part(Phrase::MoreParameters),
        ],
    },
];

/// The rows of a parameter.
pub(crate) const PARAMETER: &[Row] = &[Row {
    items: &[Part(Phrase::Mode), Take(Name)],
}];

/// The rows of how a parameter is taken.
pub(crate) const MODE: &[Row] = &[
    Row {
        items: &[Take(Word(Keyword::Mut))],
    },
    Row {
        items: &[Take(Word(Keyword::Ref))],
    },
    Row {
        items: &[Take(Word(Keyword::Int))],
    },
];

/// The rows of an integer of an input.
pub(crate) const INTEGER: &[Row] = &[
    Row {
        items: &[Take(Number)],
    },
    Row {
        items: &[Take(Mark(Sign::Minus)), Take(Number)],
    },
];

/// The rows of the integers after the first.
pub(crate) const MORE_INTEGERS: &[Row] = &[
    EMPTY,
    Row {
        items: &[
            Take(Mark(Sign::Comma)),
            Part(Phrase::Integer),
            Part(Phrase::MoreIntegers),
        ],
    },
];

/// The rows of the body of a procedure.
pub(crate) const BODY: &[Row] = &[Row {
    items: &[
        Take(Mark(Sign::OpenBrace)),
        Part(Phrase::Statements),
        Part(Phrase::Give),
        Take(Mark(Sign::CloseBrace)),
    ],
}];
