//! From tokens to the tree of a program.
ghost use Rattle.std.specs.Prelude.{◌≡◌, IfOk, IfErr, MatchResult};
ghost use Rattle.ppm_tree.specs.Tree.{tree_of};
ghost use Rattle.ppm_rows.specs.Values.{no_program};
ghost use Rattle.ppm_rows.specs.Correct.{HasTree};
ghost use Rattle.ppm_parser.specs.Faults.{IsFault};
ghost use Rattle.ppm_parser.specs.Declarations.{declaration_of, declared_tree, with_declaration};
ghost use Rattle.ppm_parser.specs.Declarations.{TellsStop};
ghost use Rattle.ppm_parser.specs.declared.stop.Stop.TheVariants as stop;

use crate::cursor::Cursor;
use crate::declaration::{Declaration, read_declaration};
use crate::room::Room;
use crate::stop::Stop;
use crate::syntax_error::SyntaxError;
use ppm_rows::trees_are_within;
use ppm_text::{Token, Tokens};
use ppm_tree::{Array, ArrayInput, Proc, Program, Tree};
use ppm_words::Items;
use std::alloc::Global;

/// What is declared so far, each kind in the order of the text.
#[derive(Drop)]
struct Declared {
    arrays: Vec<Array>,
    procedures: Vec<Proc>,
    inputs: Vec<ArrayInput>,
}

impl Declared {
    /// Nothing is declared.
    fn none(alloc: Global) -> Declared
        ensures { declared_tree result ≡ no_program }
    {
        Declared {
            arrays: Vec::new(alloc),
            procedures: Vec::new(alloc),
            inputs: Vec::new(alloc),
        }
    }

    /// What is declared with one thing more.
    fn with(mut self, next: Declaration) -> Result<Declared, Stop>
        ensures tree { IfOk result (λ d. declared_tree d
            ≡ with_declaration (declared_tree self) (declaration_of next)) }
        ensures refused { IfErr result (λ e. e ≡ stop.NoMemory) }
    {
        match next {
            Declaration::Array(array) => self.arrays.push(array)?,
            Declaration::Procedure(procedure) => self.procedures.push(procedure)?,
            Declaration::Input(input) => self.inputs.push(input)?,
        }
        Ok(self)
    }
}

/// The tree of the tokens.
fn tree(alloc: Global, tokens: &[Token]) -> Result<Tree, Stop>
    ensures { MatchResult result
        (λ t. HasTree tokens.now (tree_of t))
        (TellsStop tokens.now) }
{
    let mut declared = Declared::none(alloc);
    let room = Room::whole();
    let mut at = Cursor { room, tokens };
    'declarations: while !at.tokens.is_empty() {
        let (next, behind) = read_declaration(alloc, at)?;
        declared = declared.with(next)?;
        at = behind;
    }
    Ok(Tree {
        arrays: Items::from_vec(declared.arrays),
        procedures: Items::from_vec(declared.procedures),
        inputs: Items::from_vec(declared.inputs),
    })
}

/// The program of the tokens: their one tree by the grammar and within the limits, or their one
/// fault. By `have_one_answer` of `ppm_rows` no tokens have two answers but for want of memory.
pub fn parse(alloc: Global, tokens: &Tokens) -> Result<Program, SyntaxError>
    ensures tree { IfOk result (λ program. HasTree tokens.now.tokens (tree_of program)) }
    ensures fault { IfErr result (λ error. IsFault tokens.now error) }
{
    let text_len = tokens.text_len();
    // That the tree is within the limits rests on this law; the call does nothing.
    trees_are_within();
    match tree(alloc, tokens.as_slice()) {
        Ok(tree) => Ok(Program::from_tree(tree)),
        Err(stop) => Err(stop.in_text(text_len)),
    }
}
