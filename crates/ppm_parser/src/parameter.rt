//! From tokens to the parameters of a procedure.
ghost use Rattle.std.specs.Prelude.{[], ◌∷◌, MatchResult};
ghost use Rattle.ppm_grammar.specs.Rows.{Take, Part};
ghost use Rattle.ppm_text.specs.declared.token.Sign.TheVariants as sign;
ghost use Rattle.ppm_rows.specs.Kinds.{Mark};
ghost use Rattle.ppm_rows.specs.Values as value;
ghost use Rattle.ppm_rows.specs.Phrases as phrase;
ghost use Rattle.ppm_parser.specs.Parsing.{Parses, ParsesClosed, Stops};

use crate::cursor::Cursor;
use crate::room::deeper;
use crate::stop::Stop;
use ppm_text::Sign;
use ppm_tree::Parameter;
use ppm_words::Items;
use std::alloc::Global;

/// The parameter in front, and the cursor after it.
fn parameter(alloc: Global, depth: u32, at: Cursor<'_>) -> Result<(Parameter, Cursor<'_>), Stop>
    ensures { MatchResult result
        (λ r. Parses depth at.entry.room (Part phrase.Parameter ∷ []) at.entry.tokens.now
        (value.OneParameter r.0 ∷ []) r.1.room r.1.tokens.now)
        (Stops depth at.entry.room (Part phrase.Parameter ∷ []) at.entry.tokens.now) }
{
    let (mode, place, behind) = at.mode()?;
    let room = at.room.behind_element(place)?;
    let (name, at) = Cursor { room, ..behind }.name(alloc)?;
    Ok((Parameter { mode, name }, at))
}

/// The parameters in front up to the parenthesis that closes them, and the cursor after it.
fn closed_parameters(
    alloc: Global,
    depth: u32,
    at: Cursor<'_>,
) -> Result<(Vec<Parameter>, Cursor<'_>), Stop>
    ensures { MatchResult result
        (λ r. ParsesClosed depth at.entry.room phrase.SomeParameters sign.CloseParen
        at.entry.tokens.now (value.Parameters r.0.items) r.1.room r.1.tokens.now)
        (Stops depth at.entry.room (Part phrase.SomeParameters ∷ Take (Mark sign.CloseParen) ∷ [])
        at.entry.tokens.now) }
{
    let mut all = Vec::new(alloc);
    if let Ok((_, end)) = at.take(Sign::CloseParen) {
        return Ok((all, end));
    }
    let (first, mut behind) = parameter(alloc, depth, at)?;
    all.push(first)?;
    'parameters: while let Ok((_, from)) = behind.take(Sign::Comma) {
        let (next, after) = parameter(alloc, depth, from)?;
        all.push(next)?;
        behind = after;
    }
    let (_, end) = behind.take(Sign::CloseParen)?;
    Ok((all, end))
}

/// The list of parameters in front, and the cursor after it.
pub fn parameters(
    alloc: Global,
    depth: u32,
    at: Cursor<'_>,
) -> Result<(Items<Parameter>, Cursor<'_>), Stop>
    ensures { MatchResult result
        (λ r. Parses depth at.entry.room (Part phrase.ParameterList ∷ []) at.entry.tokens.now
        (value.Parameters r.0 ∷ []) r.1.room r.1.tokens.now)
        (Stops depth at.entry.room (Part phrase.ParameterList ∷ []) at.entry.tokens.now) }
{
    let (place, inside) = at.take(Sign::OpenParen)?;
    let inner = deeper(depth, place)?;
    let room = at.room.in_list();
    let (all, at) = closed_parameters(alloc, inner, Cursor { room, ..inside })?;
    Ok((Items::from_vec(all), at))
}
