//! What can stand where tokens go no further.
ghost use Rattle.std.specs.Prelude.{◌≡◌, ℕ, IfOk, map};
ghost use Rattle.std.specs.List.{filter};
ghost use Rattle.ppm_grammar.specs.Faults.{IsFirstUnexpected, IsEnded};
ghost use Rattle.ppm_rows.specs.Kinds.{terminals};
ghost use Rattle.ppm_rows.specs.Language.{language};
ghost use Rattle.ppm_rows.specs.Limits.{limits};
ghost use Rattle.ppm_expected.specs.Machine.{comes_first};
ghost use Rattle.ppm_expected.specs.Language.{terminal_of, to_come};
ghost use Rattle.ppm_expected.specs.Steps.{StopsAt};
ghost use Rattle.ppm_expected.specs.Correct.{CanFollow, CanGoOn};

use crate::phrase::Phrase;
use crate::row::Item;
use crate::stack::{advance, can_come, can_end};
use crate::terminal::{TERMINALS, Terminal};
use ppm_text::{Token, Tokens};
use ppm_words::NoMemory;
use std::alloc::Global;

/// What can stand at a place of a text.
#[derive(Drop)]
pub struct Expected {
    /// The kinds of tokens: a name, a number, the keywords, the signs, in the order of their enums
    /// and each once.
    pub terminals: Vec<Terminal>,
    /// Whether the text may end there.
    pub end: bool,
}

/// What is still to come after the tokens, as far as they can come.
fn after(alloc: Global, tokens: &[Token]) -> Result<Vec<Item>, NoMemory>
    ensures { IfOk result (λ stack. StopsAt tokens.now (to_come stack.items)) }
{
    let mut stack = Vec::new(alloc);
    stack.push(Item::Part(Phrase::Source))?;
    let mut left = tokens;
    'tokens: while let Some((token, rest)) = left.split_first() {
        let kind = Terminal::of(&token.kind);
        if !can_come(&stack, kind) {
            return Ok(stack);
        }
        advance(&mut stack, kind)?;
        left = rest;
    }
    Ok(stack)
}

/// The kinds of tokens that can come first.
fn first_terminals(alloc: Global, stack: &[Item]) -> Result<Vec<Terminal>, NoMemory>
    ensures { IfOk result (λ all. map terminal_of all.items
        ≡ filter (comes_first language (to_come stack.now)) terminals) }
{
    let mut all = Vec::new(alloc);
    let mut left: &[Terminal] = &TERMINALS;
    'terminals: while let Some((kind, rest)) = left.split_first() {
        if can_come(stack, *kind) {
            all.push(*kind)?;
        }
        left = rest;
    }
    Ok(all)
}

/// What can stand where the tokens go no further: just the tokens with which some text of the
/// grammar goes on from those before. At a token that cannot come this is the place of the fault,
/// and so it is where the tokens end too soon. Limits are not looked at, so with a token that
/// passes one it may be a later place.
pub fn expected_at_fault(alloc: Global, tokens: &Tokens) -> Result<Expected, NoMemory>
    ensures farthest { IfOk result (CanGoOn tokens.now.tokens) }
    ensures unexpected { (place : ℕ) (fault : IsFirstUnexpected language limits tokens.now.tokens place)
        → IfOk result (CanFollow fault.front) }
    ensures ended { IsEnded language limits tokens.now.tokens
        → IfOk result (CanFollow tokens.now.tokens) }
{
    let stack = after(alloc, tokens.as_slice())?;
    let terminals = first_terminals(alloc, &stack)?;
    Ok(Expected {
        terminals,
        end: can_end(&stack),
    })
}
