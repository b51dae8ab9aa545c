//! The parts of statements that have blocks, and the block that a test chooses.
ghost use Rattle.std.specs.Prelude.{◌≡◌};
ghost use Rattle.ppm_tree.specs.Tree.{block_of};
ghost use Rattle.ppm_tree.specs.Values.{holds as is_true};
ghost use Rattle.ppm_tree.specs.Meaning.{chosen};

use ppm_tree::{Expr, Named, Stmt};

/// A region that is split: the line of the word, the region, how many words the first part has,
/// both parts and the block.
#[derive(Clone, Copy)]
pub struct Split<'a> {
    pub line: u32,
    pub region: &'a Named,
    pub at: &'a Expr,
    pub first: &'a Named,
    pub second: &'a Named,
    pub block: &'a [Stmt],
}

/// An `each`: the index, the part of one element, the region and the block.
#[derive(Clone, Copy)]
pub struct Each<'a> {
    pub index: &'a Named,
    pub part: &'a Named,
    pub region: &'a Named,
    pub block: &'a [Stmt],
}

/// Whether a test holds.
pub fn holds(test: i64) -> bool
    ensures { result ≡ is_true test }
{
    test != 0
}

/// The block that a test chooses.
pub fn choose<'b>(test: i64, block: &'b [Stmt], otherwise: &'b [Stmt]) -> &'b [Stmt]
    ensures { block_of result.now ≡ chosen (is_true test) (block_of block.now) (block_of otherwise.now) }
{
    if holds(test) { block } else { otherwise }
}
