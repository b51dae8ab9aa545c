//! From tokens to calls and sides of a fork.
ghost use Rattle.std.specs.Prelude.{◌≡◌, [], ◌∷◌, map, MatchResult};
ghost use Rattle.ppm_grammar.specs.Rows.{Take, Part};
ghost use Rattle.ppm_text.specs.declared.token.Sign.TheVariants as sign;
ghost use Rattle.ppm_tree.specs.Tree.{side_of};
ghost use Rattle.ppm_parser.specs.Statements.{argument_of};
ghost use Rattle.ppm_rows.specs.Kinds.{Mark};
ghost use Rattle.ppm_rows.specs.Making.{for_target};
ghost use Rattle.ppm_rows.specs.Values as value;
ghost use Rattle.ppm_rows.specs.Phrases as phrase;
ghost use Rattle.ppm_parser.specs.Fronts.{HasExpression};
ghost use Rattle.ppm_parser.specs.Parsing.{Parses, ParsesClosed, Stops, StopsFirst};

use crate::cursor::Cursor;
use crate::expression::operation;
use crate::room::deeper;
use crate::stop::Stop;
use ppm_rows::Level;
use ppm_text::{Keyword, Kind, Sign};
use ppm_tree::{Argument, Named, Side};
use ppm_words::Items;
use std::alloc::Global;

/// The place and the line of the token in front, which begins an expression.
fn expression_front(depth: u32, at: Cursor<'_>) -> Result<(u32, u32), Stop>
    ensures { MatchResult result
        (λ r. HasExpression depth at.entry.tokens.now r.0 r.1)
        (StopsFirst depth at.entry.tokens.now) }
{
    let Some((token, _)) = at.tokens.split_first() else {
        return Err(Stop::Ended);
    };
    match &token.kind {
        Kind::Name(_) | Kind::Number(_) | Kind::Keyword(Keyword::Len) => {
            Ok((token.place, token.line))
        }
        Kind::Sign(Sign::Minus) => {
            deeper(depth, token.place)?;
            Ok((token.place, token.line))
        }
        Kind::Sign(Sign::OpenParen) => {
            deeper(depth, token.place)?;
            Ok((token.place, token.line))
        }
        Kind::Keyword(_) | Kind::Sign(_) => Err(Stop::Expected(token.place)),
    }
}

/// The argument in front, and the cursor after it.
fn argument(alloc: Global, depth: u32, at: Cursor<'_>) -> Result<(Argument, Cursor<'_>), Stop>
    ensures { MatchResult result
        (λ r. Parses depth at.entry.room (Part phrase.Argument ∷ []) at.entry.tokens.now
        (value.OneArgument (argument_of r.0) ∷ []) r.1.room r.1.tokens.now)
        (Stops depth at.entry.room (Part phrase.Argument ∷ []) at.entry.tokens.now) }
{
    let (place, line) = expression_front(depth, at)?;
    let room = at.room.behind_element(place)?;
    let (value, at) = operation(alloc, depth, Cursor { room, ..at }, Level::Either)?;
    Ok((Argument { line, value }, at))
}

/// The arguments in front up to the parenthesis that closes them, and the cursor after it.
fn closed_arguments(
    alloc: Global,
    depth: u32,
    at: Cursor<'_>,
) -> Result<(Vec<Argument>, Cursor<'_>), Stop>
    ensures { MatchResult result
        (λ r. ParsesClosed depth at.entry.room phrase.SomeArguments sign.CloseParen
        at.entry.tokens.now (value.Arguments (map argument_of r.0.items))
        r.1.room r.1.tokens.now)
        (Stops depth at.entry.room (Part phrase.SomeArguments ∷ Take (Mark sign.CloseParen) ∷ [])
        at.entry.tokens.now) }
{
    let mut all = Vec::new(alloc);
    if let Ok((_, end)) = at.take(Sign::CloseParen) {
        return Ok((all, end));
    }
    let (first, mut behind) = argument(alloc, depth, at)?;
    all.push(first)?;
    'arguments: while let Ok((_, from)) = behind.take(Sign::Comma) {
        let (next, after) = argument(alloc, depth, from)?;
        all.push(next)?;
        behind = after;
    }
    let (_, end) = behind.take(Sign::CloseParen)?;
    Ok((all, end))
}

/// The list of arguments in front, and the cursor after it.
fn arguments(
    alloc: Global,
    depth: u32,
    at: Cursor<'_>,
) -> Result<(Items<Argument>, Cursor<'_>), Stop>
    ensures { MatchResult result
        (λ r. Parses depth at.entry.room (Part phrase.ArgumentList ∷ []) at.entry.tokens.now
        (value.Arguments (map argument_of r.0) ∷ []) r.1.room r.1.tokens.now)
        (Stops depth at.entry.room (Part phrase.ArgumentList ∷ []) at.entry.tokens.now) }
{
    let (place, inside) = at.take(Sign::OpenParen)?;
    let inner = deeper(depth, place)?;
    let room = at.room.in_list();
    let (all, at) = closed_arguments(alloc, inner, Cursor { room, ..inside })?;
    Ok((Items::from_vec(all), at))
}

/// The call in front, which has no target, and the cursor after it.
pub fn call(alloc: Global, depth: u32, at: Cursor<'_>) -> Result<(Side, Cursor<'_>), Stop>
    ensures { MatchResult result
        (λ r. Parses depth at.entry.room (Part phrase.Call ∷ []) at.entry.tokens.now
        (value.OneSide (side_of r.0) ∷ []) r.1.room r.1.tokens.now)
        (Stops depth at.entry.room (Part phrase.Call ∷ []) at.entry.tokens.now) }
{
    let (callee, at) = at.name(alloc)?;
    let (arguments, at) = arguments(alloc, depth, at)?;
    let side = Side {
        target: None,
        callee,
        arguments,
    };
    Ok((side, at))
}

/// The call, whose value the target gets.
pub fn with_target(side: Side, target: Named) -> Side
    ensures { side_of result ≡ for_target (side_of side) target }
{
    Side {
        target: Some(target),
        callee: side.callee,
        arguments: side.arguments,
    }
}

/// The side of a fork in front, and the cursor after it.
pub fn side(alloc: Global, depth: u32, at: Cursor<'_>) -> Result<(Side, Cursor<'_>), Stop>
    ensures { MatchResult result
        (λ r. Parses depth at.entry.room (Part phrase.Side ∷ []) at.entry.tokens.now
        (value.OneSide (side_of r.0) ∷ []) r.1.room r.1.tokens.now)
        (Stops depth at.entry.room (Part phrase.Side ∷ []) at.entry.tokens.now) }
{
    let (first, behind) = at.name(alloc)?;
    if let Ok((_, at)) = behind.take(Sign::Assign) {
        let (called, at) = call(alloc, depth, at)?;
        return Ok((with_target(called, first), at));
    }
    let (arguments, at) = arguments(alloc, depth, behind)?;
    let side = Side {
        target: None,
        callee: first,
        arguments,
    };
    Ok((side, at))
}
