//! The rows of expressions.
ghost use Rattle.std.specs.Prelude.{◌≡◌};
ghost use Rattle.ppm_rows.specs.Phrases as phrases;
ghost use Rattle.ppm_expected.specs.Language.{rows_of, rows_in};

use crate::phrase::{EXPRESSION, Phrase};
use crate::row::Item::{Part, Take};
use crate::row::{EMPTY, Row};
use crate::terminal::Terminal::{Mark, Name, Number, Word};
use ppm_rows::Level;
use ppm_text::{Keyword, Sign};

/// The rows of an operation: an operand of the level, and what goes on from it.
pub(crate) fn operation(level: Level) -> &'static [Row]
    ensures { rows_of result.now ≡ rows_in (phrases.Operation level) }
{
    match level {
        Level::Either => &[Row {
            items: &[
                Part(Phrase::Operation(Level::Both)),
                Part(Phrase::FromOperand(Level::Either)),
            ],
        }],
        Level::Both => &[Row {
            items: &[
                Part(Phrase::Operation(Level::Comparison)),
                Part(Phrase::FromOperand(Level::Both)),
            ],
        }],
        Level::Comparison => &[Row {
            items: &[
                Part(Phrase::Operation(Level::Sum)),
                Part(Phrase::FromOperand(Level::Comparison)),
            ],
        }],
        Level::Sum => &[Row {
            items: &[
                Part(Phrase::Operation(Level::Product)),
                Part(Phrase::FromOperand(Level::Sum)),
            ],
        }],
        Level::Product => &[Row {
            items: &[
                Part(Phrase::Operand),
                Part(Phrase::FromOperand(Level::Product)),
            ],
        }],
    }
}

/// What goes on from an operand of the level Either.
const FROM_EITHER: &[Row] = &[
    EMPTY,
    Row {
        items: &[
            Take(Mark(Sign::Either)),
            Part(Phrase::Operation(Level::Both)),
            Part(Phrase::FromOperand(Level::Either)),
        ],
    },
];

/// What goes on from an operand of the level Both.
const FROM_BOTH: &[Row] = &[
    EMPTY,
    Row {
        items: &[
            Take(Mark(Sign::Both)),
            Part(Phrase::Operation(Level::Comparison)),
            Part(Phrase::FromOperand(Level::Both)),
        ],
    },
];

/// What goes on from an operand of the level Comparison.
const FROM_COMPARISON: &[Row] = &[
    EMPTY,
    Row {
        items: &[Take(Mark(Sign::Equal)), Part(Phrase::Operation(Level::Sum))],
    },
    Row {
        items: &[
            Take(Mark(Sign::NotEqual)),
            Part(Phrase::Operation(Level::Sum)),
        ],
    },
    Row {
        items: &[Take(Mark(Sign::Less)), Part(Phrase::Operation(Level::Sum))],
    },
    Row {
        items: &[
            Take(Mark(Sign::LessEqual)),
            Part(Phrase::Operation(Level::Sum)),
        ],
    },
    Row {
        items: &[
            Take(Mark(Sign::Greater)),
            Part(Phrase::Operation(Level::Sum)),
        ],
    },
    Row {
        items: &[
            Take(Mark(Sign::GreaterEqual)),
            Part(Phrase::Operation(Level::Sum)),
        ],
    },
];

/// What goes on from an operand of the level Sum.
const FROM_SUM: &[Row] = &[
    EMPTY,
    Row {
        items: &[
            Take(Mark(Sign::Plus)),
            Part(Phrase::Operation(Level::Product)),
            Part(Phrase::FromOperand(Level::Sum)),
        ],
    },
    Row {
        items: &[
            Take(Mark(Sign::Minus)),
            Part(Phrase::Operation(Level::Product)),
            Part(Phrase::FromOperand(Level::Sum)),
        ],
    },
];

/// What goes on from an operand of the level Product.
const FROM_PRODUCT: &[Row] = &[
    EMPTY,
    Row {
        items: &[
            Take(Mark(Sign::Times)),
            Part(Phrase::Operand),
            Part(Phrase::FromOperand(Level::Product)),
        ],
    },
    Row {
        items: &[
            Take(Mark(Sign::Divide)),
            Part(Phrase::Operand),
            Part(Phrase::FromOperand(Level::Product)),
        ],
    },
    Row {
        items: &[
            Take(Mark(Sign::Remainder)),
            Part(Phrase::Operand),
            Part(Phrase::FromOperand(Level::Product)),
        ],
    },
];

/// The rows of what goes on from an operand: nothing, or an operator of the level and the next
/// operand.
pub(crate) fn from_operand(level: Level) -> &'static [Row]
    ensures { rows_of result.now ≡ rows_in (phrases.FromOperand level) }
{
    match level {
        Level::Either => FROM_EITHER,
        Level::Both => FROM_BOTH,
        Level::Comparison => FROM_COMPARISON,
        Level::Sum => FROM_SUM,
        Level::Product => FROM_PRODUCT,
    }
}

/// The rows of an operand.
pub(crate) const OPERAND: &[Row] = &[
    Row {
        items: &[Take(Mark(Sign::Minus)), Part(Phrase::Operand)],
    },
    Row {
        items: &[Take(Number)],
    },
    Row {
        items: &[Take(Name), Part(Phrase::Index)],
    },
    Row {
        items: &[Take(Word(Keyword::Len)), Take(Name)],
    },
    Row {
        items: &[
            Take(Mark(Sign::OpenParen)),
            Part(EXPRESSION),
            Take(Mark(Sign::CloseParen)),
        ],
    },
];

/// The rows of an index, if one follows.
pub(crate) const INDEX: &[Row] = &[
    EMPTY,
    Row {
        items: &[
            Take(Mark(Sign::OpenBracket)),
            Part(EXPRESSION),
            Take(Mark(Sign::CloseBracket)),
        ],
    },
];
