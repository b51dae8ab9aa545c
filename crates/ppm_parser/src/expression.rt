//! From tokens to an expression.
ghost use Rattle.std.specs.Prelude.{MatchResult, IfOk, IsTrue, ◌≡◌, drop};
ghost use Rattle.ppm_tree.specs.Tree.{expression_of};
ghost use Rattle.ppm_tree.specs.Tree as tree;
ghost use Rattle.ppm_rows.specs.Kinds.{Mark};
ghost use Rattle.ppm_rows.specs.Language.{expr};
ghost use Rattle.ppm_rows.specs.Phrases.{operand};
ghost use Rattle.ppm_rows.specs.Phrases as phrase;
ghost use Rattle.ppm_grammar.specs.Rows.{Take, Part};
ghost use Rattle.std.specs.Prelude.{[], ◌∷◌};
ghost use Rattle.ppm_parser.specs.Fronts.{comes_once, NoneWithin};
ghost use Rattle.ppm_parser.specs.Parsing.{ParsesExpression, ParsesFrom, ParsesUpTo, ParsesNamed};
ghost use Rattle.ppm_parser.specs.Parsing.{StopsNamed, Stops};

use crate::cursor::Cursor;
use crate::room::deeper;
use crate::stop::Stop;
use ppm_rows::Level;
use ppm_text::{Keyword, Kind, Sign};
use ppm_tree::{Expr, Named, Operator};
use ppm_words::NoMemory;
use std::alloc::Global;

/// The operation on two operands whose operator stands in the line.
fn binary(
    alloc: Global,
    operator: Operator,
    line: u32,
    left: Expr,
    right: Expr,
) -> Result<Expr, NoMemory>
    ensures { IfOk result (λ e.
        expression_of e ≡ tree.Binary operator line (expression_of left) (expression_of right)) }
{
    let left = Box::new(alloc, left)?;
    let right = Box::new(alloc, right)?;
    Ok(Expr::Binary(operator, line, left, right))
}

/// Whether an operation of the level comes once: a comparison does, the others go on.
fn is_once(level: Level) -> bool
    ensures { result ≡ comes_once level }
{
    match level {
        Level::Comparison => true,
        Level::Either | Level::Both | Level::Sum | Level::Product => false,
    }
}

/// The operand in front, and the cursor after it.
#[cycle(expression)]
fn operand(alloc: Global, depth: u32, at: Cursor<'_>) -> Result<(Expr, Cursor<'_>), Stop>
    ensures { MatchResult result
        (λ r. ParsesExpression depth at.entry.room phrase.Operand at.entry.tokens.now
        (expression_of r.0) r.1.room r.1.tokens.now)
        (Stops depth at.entry.room (Part phrase.Operand ∷ []) at.entry.tokens.now) }
{
    let Some((token, rest)) = at.tokens.split_first() else {
        return Err(Stop::Ended);
    };
    match &token.kind {
        Kind::Number(literal) => {
            let room = at.room.behind_node(token.place)?;
            Ok((
                Expr::Number(literal.to_i64()),
                Cursor { room, tokens: rest },
            ))
        }
        Kind::Name(name) => {
            let name = name.try_clone(alloc)?;
            let line = token.line;
            let at = Cursor { tokens: rest, ..at };
            named(alloc, depth, at, Named { name, line }, token.place)
        }
        Kind::Keyword(Keyword::Len) => {
            let room = at.room.behind_node(token.place)?;
            let (region, at) = Cursor { room, tokens: rest }.name(alloc)?;
            Ok((Expr::Len(region), at))
        }
        Kind::Sign(Sign::Minus) => {
            let inner = deeper(depth, token.place)?;
            let room = at.room.behind_node(token.place)?;
            let (negated, at) = operand(alloc, inner, Cursor { room, tokens: rest })?;
            Ok((Expr::Minus(token.line, Box::new(alloc, negated)?), at))
        }
        Kind::Sign(Sign::OpenParen) => {
            let inner = deeper(depth, token.place)?;
            up_to(
                alloc,
                inner,
                Cursor { tokens: rest, ..at },
                Sign::CloseParen,
            )
        }
        Kind::Keyword(_) | Kind::Sign(_) => Err(Stop::Expected(token.place)),
    }
}

/// The operand that begins with the name at the place, alone or with the index in front of the
/// tokens, and the cursor after it.
#[cycle(expression)]
fn named(
    alloc: Global,
    depth: u32,
    at: Cursor<'_>,
    name: Named,
    place: u32,
) -> Result<(Expr, Cursor<'_>), Stop>
    ensures { MatchResult result
        (λ r. ParsesNamed depth at.entry.room name place at.entry.tokens.now
        (expression_of r.0) r.1.room r.1.tokens.now)
        (StopsNamed depth at.entry.room name place at.entry.tokens.now) }
{
    let Ok((bracket, inside)) = at.take(Sign::OpenBracket) else {
        let room = at.room.behind_node(place)?;
        return Ok((Expr::Name(name), Cursor { room, ..at }));
    };
    let inner = deeper(depth, bracket)?;
    let room = at.room.behind_node(bracket)?;
    let (index, at) = up_to(alloc, inner, Cursor { room, ..inside }, Sign::CloseBracket)?;
    let index = Box::new(alloc, index)?;
    Ok((Expr::Element(name, index), at))
}

/// The whole expression in front up to the sign, and the cursor after the sign.
#[cycle(expression)]
pub fn up_to(
    alloc: Global,
    depth: u32,
    at: Cursor<'_>,
    sign: Sign,
) -> Result<(Expr, Cursor<'_>), Stop>
    ensures { MatchResult result
        (λ r. ParsesUpTo depth at.entry.room sign at.entry.tokens.now
        (expression_of r.0) r.1.room r.1.tokens.now)
        (Stops depth at.entry.room (expr ∷ Take (Mark sign) ∷ []) at.entry.tokens.now) }
{
    let (whole, at) = operation(alloc, depth, at, Level::Either)?;
    let (_, at) = at.take(sign)?;
    Ok((whole, at))
}

/// Whether an operand of one token is in front, and after it no operator of the level or of one
/// that binds more. Such an operand is read at once, and not by way of all levels.
fn is_plain(level: Level, at: Cursor<'_>) -> bool
    ensures { IsTrue result → NoneWithin level (drop 1 at.entry.tokens.now) }
{
    match at.tokens {
        [first, tokens @ ..] => {
            let behind = Cursor { tokens, ..at };
            match &first.kind {
                Kind::Number(_) => behind.has_none(level),
                Kind::Name(_) => behind.take(Sign::OpenBracket).is_err() && behind.has_none(level),
                Kind::Keyword(_) | Kind::Sign(_) => false,
            }
        }
        [] => false,
    }
}

/// The operation of the level in front, and the cursor after it.
#[cycle(expression)]
pub fn operation(
    alloc: Global,
    depth: u32,
    at: Cursor<'_>,
    level: Level,
) -> Result<(Expr, Cursor<'_>), Stop>
    ensures { MatchResult result
        (λ r. ParsesExpression depth at.entry.room (phrase.Operation level) at.entry.tokens.now
        (expression_of r.0) r.1.room r.1.tokens.now)
        (Stops depth at.entry.room (Part (phrase.Operation level) ∷ []) at.entry.tokens.now) }
{
    if is_plain(level, at) {
        let (whole, behind) = operand(alloc, depth, at)?;
        if behind.has_none(level) {
            return Ok((whole, behind));
        }
    }
    let (first, at) = operand_of(alloc, depth, at, level)?;
    further(alloc, depth, at, level, first)
}

/// The operand of the level in front, and the cursor after it.
#[cycle(expression)]
fn operand_of(
    alloc: Global,
    depth: u32,
    at: Cursor<'_>,
    level: Level,
) -> Result<(Expr, Cursor<'_>), Stop>
    ensures { MatchResult result
        (λ r. ParsesExpression depth at.entry.room (operand level) at.entry.tokens.now
        (expression_of r.0) r.1.room r.1.tokens.now)
        (Stops depth at.entry.room (Part (operand level) ∷ []) at.entry.tokens.now) }
{
    match level {
        Level::Either => operation(alloc, depth, at, Level::Both),
        Level::Both => operation(alloc, depth, at, Level::Comparison),
        Level::Comparison => operation(alloc, depth, at, Level::Sum),
        Level::Sum => operation(alloc, depth, at, Level::Product),
        Level::Product => operand(alloc, depth, at),
    }
}

/// The operation of the level that goes on from its first operand, and the cursor after it.
#[cycle(expression)]
fn further(
    alloc: Global,
    depth: u32,
    at: Cursor<'_>,
    level: Level,
    first: Expr,
) -> Result<(Expr, Cursor<'_>), Stop>
    ensures { MatchResult result
        (λ r. ParsesFrom depth at.entry.room level (expression_of first) at.entry.tokens.now
        (expression_of r.0) r.1.room r.1.tokens.now)
        (Stops depth at.entry.room (Part (phrase.FromOperand level) ∷ []) at.entry.tokens.now) }
{
    let Some((operator, place, line, behind)) = at.operator_in(level) else {
        return Ok((first, at));
    };
    let room = at.room.behind_node(place)?;
    let (second, at) = operand_of(alloc, depth, Cursor { room, ..behind }, level)?;
    let both = binary(alloc, operator, line, first, second)?;
    if is_once(level) {
        return Ok((both, at));
    }
    further(alloc, depth, at, level, both)
}
