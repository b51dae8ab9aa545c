//! The rows of statements.
use crate::phrase::{EXPRESSION, Phrase};
use crate::row::Item::{Part, Take};
use crate::row::{EMPTY, Row};
use crate::terminal::Terminal::{Mark, Name, Word};
use ppm_text::{Keyword, Sign};

/// The rows of a block.
pub(crate) const BLOCK: &[Row] = &[Row {
    items: &[
        Take(Mark(Sign::OpenBrace)),
        Part(Phrase::Statements),
        Take(Mark(Sign::CloseBrace)),
    ],
}];

/// The rows of the statements of a block.
pub(crate) const STATEMENTS: &[Row] = &[
    EMPTY,
    Row {
        items: &[Part(Phrase::Statement), Part(Phrase::Statements)],
    },
];

/// The rows of what a procedure gives.
pub(crate) const GIVE: &[Row] = &[
    EMPTY,
    Row {
        items: &[
            Take(Word(Keyword::Give)),
            Part(EXPRESSION),
            Take(Mark(Sign::Semicolon)),
        ],
    },
];

/// The rows of a statement.
pub(crate) const STATEMENT: &[Row] = &[
    Row {
        items: &[
            Take(Word(Keyword::Let)),
            Take(Name),
            Take(Mark(Sign::Assign)),
            Part(EXPRESSION),
            Take(Mark(Sign::Semicolon)),
        ],
    },
    Row {
        items: &[Take(Name), Part(Phrase::AfterName)],
    },
    Row {
        items: &[
            Take(Word(Keyword::If)),
            Part(EXPRESSION),
            Part(Phrase::Block),
            Part(Phrase::Else),
        ],
    },
    Row {
        items: &[
            Take(Word(Keyword::While)),
            Part(EXPRESSION),
            Part(Phrase::Block),
        ],
    },
    Row {
        items: &[
            Take(Word(Keyword::Call)),
            Part(Phrase::Call),
            Take(Mark(Sign::Semicolon)),
        ],
    },
    Row {
        items: &[
            Take(Word(Keyword::Fork)),
            Part(Phrase::Side),
            Take(Word(Keyword::And)),
            Part(Phrase::Side),
            Take(Mark(Sign::Semicolon)),
        ],
    },
    Row {
        items: &[
            Take(Word(Keyword::Split)),
            Take(Name),
            Take(Word(Keyword::At)),
            Part(EXPRESSION),
            Take(Word(Keyword::Into)),
            Take(Name),
            Take(Mark(Sign::Comma)),
            Take(Name),
            Part(Phrase::Block),
        ],
    },
    Row {
        items: &[
            Take(Word(Keyword::Each)),
            Take(Name),
            Take(Mark(Sign::Comma)),
            Take(Name),
            Take(Word(Keyword::In)),
            Take(Name),
            Part(Phrase::Block),
        ],
    },
];

/// The rows of what follows a name at its front.
pub(crate) const AFTER_NAME: &[Row] = &[
    Row {
        items: &[Take(Mark(Sign::Assign)), Part(Phrase::Assigned)],
    },
    Row {
        items: &[
            Part(Phrase::Element),
            Take(Mark(Sign::Assign)),
            Part(EXPRESSION),
            Take(Mark(Sign::Semicolon)),
        ],
    },
];

/// The rows of what is assigned.
pub(crate) const ASSIGNED: &[Row] = &[
    Row {
        items: &[Part(EXPRESSION), Take(Mark(Sign::Semicolon))],
    },
    Row {
        items: &[
            Take(Word(Keyword::Call)),
            Part(Phrase::Call),
            Take(Mark(Sign::Semicolon)),
        ],
    },
];

/// The rows of the other block of a choice.
pub(crate) const ELSE: &[Row] = &[
    EMPTY,
    Row {
        items: &[Take(Word(Keyword::Else)), Part(Phrase::Block)],
    },
];

/// The rows of a side of a fork.
pub(crate) const SIDE: &[Row] = &[Row {
    items: &[Take(Name), Part(Phrase::AfterTarget)],
}];

/// The rows of what follows a name at its front.
pub(crate) const AFTER_TARGET: &[Row] = &[
    Row {
        items: &[Take(Mark(Sign::Assign)), Part(Phrase::Call)],
    },
    Row {
        items: &[Part(Phrase::ArgumentList)],
    },
];

/// The rows of a call.
pub(crate) const CALL: &[Row] = &[Row {
    items: &[Take(Name), Part(Phrase::ArgumentList)],
}];

/// The rows of a list of arguments.
pub(crate) const ARGUMENT_LIST: &[Row] = &[Row {
    items: &[
        Take(Mark(Sign::OpenParen)),
        Part(Phrase::SomeArguments),
        Take(Mark(Sign::CloseParen)),
    ],
}];

/// The rows of what stands in it.
pub(crate) const SOME_ARGUMENTS: &[Row] = &[
    EMPTY,
    Row {
        items: &[Part(Phrase::Argument), Part(Phrase::MoreArguments)],
    },
];

/// The rows of the arguments after the first.
pub(crate) const MORE_ARGUMENTS: &[Row] = &[
    EMPTY,
    Row {
        items: &[
            Take(Mark(Sign::Comma)),
            Part(Phrase::Argument),
            Part(Phrase::MoreArguments),
        ],
    },
];

/// The rows of an argument.
pub(crate) const ARGUMENT: &[Row] = &[Row {
    items: &[Part(EXPRESSION)],
}];

/// The rows of an index of what is assigned.
pub(crate) const ELEMENT: &[Row] = &[Row {
    items: &[
        Take(Mark(Sign::OpenBracket)),
        Part(EXPRESSION),
        Take(Mark(Sign::CloseBracket)),
    ],
}];
