//! From tokens to statements.
ghost use Rattle.std.specs.Prelude.{◌≡◌, [], ◌∷◌, MatchOption, MatchResult};
ghost use Rattle.ppm_grammar.specs.Rows.{Take, Part};
ghost use Rattle.ppm_tree.specs.Tree.{statement_of, block_of, give_of};
ghost use Rattle.ppm_rows.specs.Values as value;
ghost use Rattle.ppm_rows.specs.Phrases as phrase;
ghost use Rattle.ppm_text.specs.declared.token.Sign.TheVariants as sign;
ghost use Rattle.ppm_rows.specs.Kinds.{Mark, terminal};
ghost use Rattle.ppm_parser.specs.Fronts.{IsNotFront, HasGive, NoGive, starts_at, begins};
ghost use Rattle.ppm_parser.specs.Parsing.{Parses, Stops};
ghost use Rattle.ppm_parser.specs.Statements.{local_items, choice_items, loop_items, call_items};
ghost use Rattle.ppm_parser.specs.Statements.{fork_items, split_items, each_items, ParsesLocal};
ghost use Rattle.ppm_parser.specs.Statements.{ParsesChoice, ParsesLoop, ParsesCall, ParsesFork};
ghost use Rattle.ppm_parser.specs.Statements.{ParsesSplit, ParsesEach, ParsesAfterName};
ghost use Rattle.ppm_parser.specs.Statements.{ParsesStatement};

use crate::call::{call, side, with_target};
use crate::cursor::Cursor;
use crate::expression::{operation, up_to};
use crate::room::deeper;
use crate::stop::Stop;
use ppm_rows::Level;
use ppm_text::{Keyword, Kind, Sign};
use ppm_tree::{Give, Named, Stmt};
use std::alloc::Global;

/// The statements of a body, and what it gives after them, if anything.
#[derive(Drop)]
pub struct Body {
    pub statements: Vec<Stmt>,
    pub give: Option<Give>,
}

/// The declaration of a local after its keyword, and the cursor after it.
fn local(alloc: Global, depth: u32, at: Cursor<'_>) -> Result<(Stmt, Cursor<'_>), Stop>
    ensures { MatchResult result
        (λ r. ParsesLocal depth at.entry.room at.entry.tokens.now
        (statement_of r.0) r.1.room r.1.tokens.now)
        (Stops depth at.entry.room local_items at.entry.tokens.now) }
{
    let (name, at) = at.name(alloc)?;
    let (_, at) = at.take(Sign::Assign)?;
    let (value, at) = up_to(alloc, depth, at, Sign::Semicolon)?;
    Ok((Stmt::Let(name, value), at))
}

/// The assignment to the target whose index is in front, and the cursor after it.
fn put(alloc: Global, depth: u32, at: Cursor<'_>, target: Named) -> Result<(Stmt, Cursor<'_>), Stop>
    requires { IsNotFront (Mark sign.Assign) at.tokens.now }
    ensures { MatchResult result
        (λ r. ParsesAfterName phrase.AfterName depth at.entry.room target at.entry.tokens.now
        (statement_of r.0) r.1.room r.1.tokens.now)
        (Stops depth at.entry.room (Part phrase.AfterName ∷ []) at.entry.tokens.now) }
{
    let (bracket, at) = at.take(Sign::OpenBracket)?;
    let inner = deeper(depth, bracket)?;
    let (index, at) = up_to(alloc, inner, at, Sign::CloseBracket)?;
    let (_, at) = at.take(Sign::Assign)?;
    let (value, at) = up_to(alloc, depth, at, Sign::Semicolon)?;
    Ok((Stmt::Put(target, index, value), at))
}

/// The assignment of what stands in front to the target, and the cursor after it.
fn assigned(
    alloc: Global,
    depth: u32,
    at: Cursor<'_>,
    target: Named,
) -> Result<(Stmt, Cursor<'_>), Stop>
    ensures { MatchResult result
        (λ r. ParsesAfterName phrase.Assigned depth at.entry.room target at.entry.tokens.now
        (statement_of r.0) r.1.room r.1.tokens.now)
        (Stops depth at.entry.room (Part phrase.Assigned ∷ []) at.entry.tokens.now) }
{
    if let Ok(at) = at.take_word(Keyword::Call) {
        let (called, at) = call(alloc, depth, at)?;
        let (_, at) = at.take(Sign::Semicolon)?;
        return Ok((Stmt::Call(with_target(called, target)), at));
    }
    let (value, at) = up_to(alloc, depth, at, Sign::Semicolon)?;
    Ok((Stmt::Assign(target, value), at))
}

/// The statement that goes on from the name of its target, and the cursor after it.
fn after_name(
    alloc: Global,
    depth: u32,
    at: Cursor<'_>,
    target: Named,
) -> Result<(Stmt, Cursor<'_>), Stop>
    ensures { MatchResult result
        (λ r. ParsesAfterName phrase.AfterName depth at.entry.room target at.entry.tokens.now
        (statement_of r.0) r.1.room r.1.tokens.now)
        (Stops depth at.entry.room (Part phrase.AfterName ∷ []) at.entry.tokens.now) }
{
    if let Ok((_, at)) = at.take(Sign::Assign) {
        return assigned(alloc, depth, at, target);
    }
    put(alloc, depth, at, target)
}

/// The call after its keyword, and the cursor after it.
fn called(alloc: Global, depth: u32, at: Cursor<'_>) -> Result<(Stmt, Cursor<'_>), Stop>
    ensures { MatchResult result
        (λ r. ParsesCall depth at.entry.room at.entry.tokens.now
        (statement_of r.0) r.1.room r.1.tokens.now)
        (Stops depth at.entry.room call_items at.entry.tokens.now) }
{
    let (side, at) = call(alloc, depth, at)?;
    let (_, at) = at.take(Sign::Semicolon)?;
    Ok((Stmt::Call(side), at))
}

/// The fork after its keyword, and the cursor after it.
fn fork(alloc: Global, depth: u32, at: Cursor<'_>) -> Result<(Stmt, Cursor<'_>), Stop>
    ensures { MatchResult result
        (λ r. ParsesFork depth at.entry.room at.entry.tokens.now
        (statement_of r.0) r.1.room r.1.tokens.now)
        (Stops depth at.entry.room fork_items at.entry.tokens.now) }
{
    let (left, at) = side(alloc, depth, at)?;
    let at = at.take_word(Keyword::And)?;
    let (right, at) = side(alloc, depth, at)?;
    let (_, at) = at.take(Sign::Semicolon)?;
    Ok((Stmt::Fork(left, right), at))
}

/// The test and the blocks after the keyword `if`, and the cursor after them.
#[cycle(statement)]
fn choice(alloc: Global, depth: u32, at: Cursor<'_>) -> Result<(Stmt, Cursor<'_>), Stop>
    ensures { MatchResult result
        (λ r. ParsesChoice depth at.entry.room at.entry.tokens.now
        (statement_of r.0) r.1.room r.1.tokens.now)
        (Stops depth at.entry.room choice_items at.entry.tokens.now) }
{
    let (test, at) = operation(alloc, depth, at, Level::Either)?;
    let (holds, at) = block(alloc, depth, at)?;
    let Ok(behind) = at.take_word(Keyword::Else) else {
        return Ok((Stmt::If(test, holds, Vec::new(alloc)), at));
    };
    let (otherwise, at) = block(alloc, depth, behind)?;
    Ok((Stmt::If(test, holds, otherwise), at))
}

/// The test and the block after the keyword `while`, and the cursor after them.
#[cycle(statement)]
fn repeated(alloc: Global, depth: u32, at: Cursor<'_>) -> Result<(Stmt, Cursor<'_>), Stop>
    ensures { MatchResult result
        (λ r. ParsesLoop depth at.entry.room at.entry.tokens.now
        (statement_of r.0) r.1.room r.1.tokens.now)
        (Stops depth at.entry.room loop_items at.entry.tokens.now) }
{
    let (test, at) = operation(alloc, depth, at, Level::Either)?;
    let (body, at) = block(alloc, depth, at)?;
    Ok((Stmt::While(test, body), at))
}

/// The split after its keyword, which stands in the line, and the cursor after it.
#[cycle(statement)]
fn split(alloc: Global, depth: u32, at: Cursor<'_>, line: u32) -> Result<(Stmt, Cursor<'_>), Stop>
    ensures { MatchResult result
        (λ r. ParsesSplit depth at.entry.room line at.entry.tokens.now
        (statement_of r.0) r.1.room r.1.tokens.now)
        (Stops depth at.entry.room split_items at.entry.tokens.now) }
{
    let (region, at) = at.name(alloc)?;
    let at = at.take_word(Keyword::At)?;
    let (size, at) = operation(alloc, depth, at, Level::Either)?;
    let at = at.take_word(Keyword::Into)?;
    let (first, at) = at.name(alloc)?;
    let (_, at) = at.take(Sign::Comma)?;
    let (second, at) = at.name(alloc)?;
    let (body, at) = block(alloc, depth, at)?;
    let split = Stmt::Split(line, region, size, first, second, body);
    Ok((split, at))
}

/// The `each` after its keyword, and the cursor after it.
#[cycle(statement)]
fn each(alloc: Global, depth: u32, at: Cursor<'_>) -> Result<(Stmt, Cursor<'_>), Stop>
    ensures { MatchResult result
        (λ r. ParsesEach depth at.entry.room at.entry.tokens.now
        (statement_of r.0) r.1.room r.1.tokens.now)
        (Stops depth at.entry.room each_items at.entry.tokens.now) }
{
    let (index, at) = at.name(alloc)?;
    let (_, at) = at.take(Sign::Comma)?;
    let (part, at) = at.name(alloc)?;
    let at = at.take_word(Keyword::In)?;
    let (region, at) = at.name(alloc)?;
    let (body, at) = block(alloc, depth, at)?;
    Ok((Stmt::Each(index, part, region, body), at))
}

/// The statement in front, and the cursor after it.
#[cycle(statement)]
fn statement(alloc: Global, depth: u32, at: Cursor<'_>) -> Result<(Stmt, Cursor<'_>), Stop>
    ensures { MatchResult result
        (λ r. ParsesStatement depth at.entry.room at.entry.tokens.now
        (statement_of r.0) r.1.room r.1.tokens.now)
        (Stops depth at.entry.room (Part phrase.Statement ∷ []) at.entry.tokens.now) }
{
    let Some((token, tokens)) = at.tokens.split_first() else {
        return Err(Stop::Ended);
    };
    let room = at.room.in_statement();
    let at = Cursor { room, tokens };
    match &token.kind {
        Kind::Name(name) => {
            let name = name.try_clone(alloc)?;
            let line = token.line;
            after_name(alloc, depth, at, Named { name, line })
        }
        Kind::Keyword(Keyword::Let) => local(alloc, depth, at),
        Kind::Keyword(Keyword::If) => choice(alloc, depth, at),
        Kind::Keyword(Keyword::While) => repeated(alloc, depth, at),
        Kind::Keyword(Keyword::Call) => called(alloc, depth, at),
        Kind::Keyword(Keyword::Fork) => fork(alloc, depth, at),
        Kind::Keyword(Keyword::Split) => split(alloc, depth, at, token.line),
        Kind::Keyword(Keyword::Each) => {
            let room = room.behind_procedure(token.place)?;
            each(alloc, depth, Cursor { room, tokens })
        }
        Kind::Keyword(_) | Kind::Number(_) | Kind::Sign(_) => Err(Stop::Expected(token.place)),
    }
}

/// Whether a token that begins a statement is in front.
fn has_statement(at: Cursor<'_>) -> bool
    ensures { result ≡ starts_at phrase.Statement at.entry.tokens.now }
{
    match at.tokens {
        [token, ..] => begins_statement(&token.kind),
        [] => false,
    }
}

/// Whether a token of the kind begins a statement.
fn begins_statement(kind: &Kind) -> bool
    ensures { result ≡ begins phrase.Statement kind.now }
{
    match kind {
        Kind::Name(_) => true,
        Kind::Keyword(word) => match word {
            Keyword::Let | Keyword::If | Keyword::While | Keyword::Call => true,
            Keyword::Fork | Keyword::Split | Keyword::Each => true,
            Keyword::Array | Keyword::Proc | Keyword::Input => false,
            Keyword::Mut | Keyword::Ref | Keyword::Int | Keyword::Else | Keyword::And => false,
            Keyword::At | Keyword::Into | Keyword::Len | Keyword::In | Keyword::Give => false,
        },
        Kind::Number(_) | Kind::Sign(_) => false,
    }
}

/// The statements in front, and the cursor after them.
#[cycle(statement)]
fn statements(alloc: Global, depth: u32, at: Cursor<'_>) -> Result<(Vec<Stmt>, Cursor<'_>), Stop>
    ensures { MatchResult result
        (λ r. Parses depth at.entry.room (Part phrase.Statements ∷ []) at.entry.tokens.now
        (value.Statements (block_of r.0.items) ∷ []) r.1.room r.1.tokens.now)
        (Stops depth at.entry.room (Part phrase.Statements ∷ []) at.entry.tokens.now) }
{
    let mut all = Vec::with_capacity(alloc, 1)?;
    let mut behind = at;
    'further: while has_statement(behind) {
        let (next, after) = statement(alloc, depth, behind)?;
        all.push(next)?;
        behind = after;
    }
    Ok((all, behind))
}

/// The statements of the block in front, and the cursor after it.
#[cycle(statement)]
fn block(alloc: Global, depth: u32, at: Cursor<'_>) -> Result<(Vec<Stmt>, Cursor<'_>), Stop>
    ensures { MatchResult result
        (λ r. Parses depth at.entry.room (Part phrase.Block ∷ []) at.entry.tokens.now
        (value.Statements (block_of r.0.items) ∷ []) r.1.room r.1.tokens.now)
        (Stops depth at.entry.room (Part phrase.Block ∷ []) at.entry.tokens.now) }
{
    let (place, at) = at.take(Sign::OpenBrace)?;
    let inner = deeper(depth, place)?;
    let (all, at) = statements(alloc, inner, at)?;
    let (_, at) = at.take(Sign::CloseBrace)?;
    Ok((all, at))
}

/// The line of the keyword `give` in front, and the cursor after it.
fn give_word(at: Cursor<'_>) -> Option<(u32, Cursor<'_>)>
    ensures { MatchOption result
        (NoGive at.entry.tokens.now)
        (λ r. HasGive at.entry.tokens.now r.0 r.1.tokens.now × (r.1.room ≡ at.entry.room)) }
{
    let (token, tokens) = at.tokens.split_first()?;
    match &token.kind {
        Kind::Keyword(Keyword::Give) => Some((token.line, Cursor { tokens, ..at })),
        Kind::Keyword(_) | Kind::Name(_) | Kind::Number(_) | Kind::Sign(_) => None,
    }
}

/// What a body gives in front, if anything, and the cursor after it.
fn give(alloc: Global, depth: u32, at: Cursor<'_>) -> Result<(Option<Give>, Cursor<'_>), Stop>
    ensures { MatchResult result
        (λ r. Parses depth at.entry.room (Part phrase.Give ∷ []) at.entry.tokens.now
        (value.Gives (give_of r.0) ∷ []) r.1.room r.1.tokens.now)
        (Stops depth at.entry.room (Part phrase.Give ∷ []) at.entry.tokens.now) }
{
    let Some((line, behind)) = give_word(at) else {
        return Ok((None, at));
    };
    let room = at.room.in_statement();
    let (value, at) = up_to(alloc, depth, Cursor { room, ..behind }, Sign::Semicolon)?;
    Ok((Some(Give { line, value }), at))
}

/// The statements of the body in front and what it gives, and the cursor after it.
pub fn read_body(alloc: Global, depth: u32, at: Cursor<'_>) -> Result<(Body, Cursor<'_>), Stop>
    ensures { MatchResult result
        (λ r. Parses depth at.entry.room (Part phrase.Body ∷ []) at.entry.tokens.now
        (value.Body (block_of r.0.statements.items) (give_of r.0.give) ∷ [])
        r.1.room r.1.tokens.now)
        (Stops depth at.entry.room (Part phrase.Body ∷ []) at.entry.tokens.now) }
{
    let (place, at) = at.take(Sign::OpenBrace)?;
    let inner = deeper(depth, place)?;
    let (statements, at) = statements(alloc, inner, at)?;
    let (give, at) = give(alloc, inner, at)?;
    let (_, at) = at.take(Sign::CloseBrace)?;
    Ok((Body { statements, give }, at))
}
