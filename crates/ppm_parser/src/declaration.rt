//! From tokens to declarations.
ghost use Rattle.std.specs.Prelude.{◌≡◌, [], ◌∷◌, MatchResult};
ghost use Rattle.ppm_grammar.specs.Rows.{Part};
ghost use Rattle.ppm_tree.specs.Limits.{depth_limit};
ghost use Rattle.ppm_rows.specs.Values as value;
ghost use Rattle.ppm_rows.specs.Phrases as phrase;
ghost use Rattle.ppm_parser.specs.Parsing.{Parses, Stops};
ghost use Rattle.ppm_parser.specs.Declarations.{declaration_of, array_items, procedure_items};
ghost use Rattle.ppm_parser.specs.Declarations.{ParsesArray, ParsesProcedure, ParsesInput};
ghost use Rattle.ppm_parser.specs.Declarations.{StopsInput, ParsesInteger, StopsInteger};
ghost use Rattle.ppm_parser.specs.Declarations.{ParsesIntegers, StopsIntegers};

use crate::cursor::Cursor;
use crate::parameter::parameters;
use crate::statement::read_body;
use crate::stop::Stop;
use ppm_text::{Keyword, Kind, Sign};
use ppm_tree::{Array, ArrayInput, Proc};
use ppm_words::{DEPTH_LIMIT, Items};
use std::alloc::Global;

/// One of the things that a program declares.
#[derive(Drop)]
pub enum Declaration {
    Array(Array),
    Procedure(Proc),
    Input(ArrayInput),
}

/// The array after its keyword, and the cursor after it.
fn array(alloc: Global, at: Cursor<'_>) -> Result<(Array, Cursor<'_>), Stop>
    ensures { MatchResult result
        (λ r. ParsesArray at.entry.room at.entry.tokens.now r.0 r.1.room r.1.tokens.now)
        (Stops depth_limit at.entry.room array_items at.entry.tokens.now) }
{
    let (name, behind) = at.name(alloc)?;
    let (_, inside) = behind.take(Sign::OpenBracket)?;
    let (words, place, end) = inside.number()?;
    let room = at.room.behind_words(words, place)?;
    let (_, closed) = Cursor { room, ..end }.take(Sign::CloseBracket)?;
    let (_, at) = closed.take(Sign::Semicolon)?;
    let words = words as u32;
    Ok((Array { name, words }, at))
}

/// The procedure after its keyword, and the cursor after it.
fn procedure(alloc: Global, at: Cursor<'_>) -> Result<(Proc, Cursor<'_>), Stop>
    ensures { MatchResult result
        (λ r. ParsesProcedure at.entry.room at.entry.tokens.now r.0 r.1.room r.1.tokens.now)
        (Stops depth_limit at.entry.room procedure_items at.entry.tokens.now) }
{
    let (name, at) = at.name(alloc)?;
    let (parameters, at) = parameters(alloc, DEPTH_LIMIT, at)?;
    let (body, at) = read_body(alloc, DEPTH_LIMIT, at)?;
    let procedure = Proc {
        name,
        parameters,
        body: body.statements,
        give: body.give,
    };
    Ok((procedure, at))
}

/// The value of an input in front, and the cursor after it.
fn integer(at: Cursor<'_>) -> Result<(i64, Cursor<'_>), Stop>
    ensures { MatchResult result
        (λ r. ParsesInteger at.entry.tokens.now r.0 r.1.tokens.now × (r.1.room ≡ at.entry.room))
        (StopsInteger at.entry.tokens.now) }
{
    if let Ok((_, at)) = at.take(Sign::Minus) {
        let (value, at) = at.literal()?;
        return Ok((-value, at));
    }
    at.literal()
}

/// The values of an input after these, from their commas in front up to the semicolon, and the
/// cursor after it.
fn closed_integers(mut all: Vec<i64>, at: Cursor<'_>) -> Result<(Vec<i64>, Cursor<'_>), Stop>
    ensures { MatchResult result
        (λ r. ParsesIntegers all.items at.entry.tokens.now r.0.items r.1.tokens.now
        × (r.1.room ≡ at.entry.room))
        (StopsIntegers at.entry.tokens.now) }
{
    let mut behind = at;
    'integers: while let Ok((_, from)) = behind.take(Sign::Comma) {
        let (next, after) = integer(from)?;
        all.push(next)?;
        behind = after;
    }
    let (_, end) = behind.take(Sign::Semicolon)?;
    Ok((all, end))
}

/// The input after its keyword, and the cursor after it.
fn input(alloc: Global, at: Cursor<'_>) -> Result<(ArrayInput, Cursor<'_>), Stop>
    ensures { MatchResult result
        (λ r. ParsesInput at.entry.tokens.now r.0 r.1.tokens.now × (r.1.room ≡ at.entry.room))
        (StopsInput at.entry.tokens.now) }
{
    let (name, at) = at.name(alloc)?;
    let (_, at) = at.take(Sign::Assign)?;
    let (first, at) = integer(at)?;
    let mut values = Vec::new(alloc);
    values.push(first)?;
    let (values, at) = closed_integers(values, at)?;
    let values = Items::from_vec(values);
    Ok((ArrayInput { name, values }, at))
}

/// The declaration in front, and the cursor after it.
pub fn read_declaration(alloc: Global, at: Cursor<'_>) -> Result<(Declaration, Cursor<'_>), Stop>
    ensures { MatchResult result
        (λ r. Parses depth_limit at.entry.room (Part phrase.Declaration ∷ []) at.entry.tokens.now
        (value.Declares (declaration_of r.0) ∷ []) r.1.room r.1.tokens.now)
        (Stops depth_limit at.entry.room (Part phrase.Declaration ∷ []) at.entry.tokens.now) }
{
    let Some((token, tokens)) = at.tokens.split_first() else {
        return Err(Stop::Ended);
    };
    match &token.kind {
        Kind::Keyword(Keyword::Array) => {
            let room = at.room.behind_array(token.place)?;
            let (found, at) = array(alloc, Cursor { room, tokens })?;
            Ok((Declaration::Array(found), at))
        }
        Kind::Keyword(Keyword::Proc) => {
            let room = at.room.behind_procedure(token.place)?;
            let (found, at) = procedure(alloc, Cursor { room, tokens })?;
            Ok((Declaration::Procedure(found), at))
        }
        Kind::Keyword(Keyword::Input) => {
            let (found, at) = input(alloc, Cursor { tokens, ..at })?;
            Ok((Declaration::Input(found), at))
        }
        Kind::Keyword(_) | Kind::Name(_) | Kind::Number(_) | Kind::Sign(_) => {
            Err(Stop::Expected(token.place))
        }
    }
}
