//! Whether a block has an `each`: where it has none, no walk through its names is needed.
ghost use Rattle.std.specs.Prelude.{◌≡◌};
ghost use Rattle.ppm_tree.specs.Tree.{statement_of, block_of};
ghost use Rattle.ppm_cut_bounds.specs.Sought.{is_or_has_each, has_each};

use ppm_tree::Stmt;

/// Whether a statement is an `each`, or has one in its blocks.
#[cycle(sought)]
fn is_or_has_each(statement: &Stmt) -> bool
    ensures { result ≡ is_or_has_each (statement_of statement.now) }
{
    match statement {
        Stmt::Each(_, _, _, _) => true,
        Stmt::If(_, block, other) => {
            if has_each(block) {
                return true;
            }
            has_each(other)
        }
        Stmt::While(_, block) => has_each(block),
        Stmt::Split(_, _, _, _, _, block) => has_each(block),
        Stmt::Let(_, _)
        | Stmt::Assign(_, _)
        | Stmt::Put(_, _, _)
        | Stmt::Call(_)
        | Stmt::Fork(_, _) => false,
    }
}

/// Whether a block has an `each`, itself or in its blocks.
#[cycle(sought)]
pub fn has_each(block: &[Stmt]) -> bool
    ensures { result ≡ has_each (block_of block.now) }
{
    for statement in block {
        if is_or_has_each(statement) {
            return true;
        }
    }
    false
}
