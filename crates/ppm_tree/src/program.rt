//! A program's tree within the limits.
ghost use Rattle.std.specs.Prelude.{◌≡◌};
ghost use Rattle.ppm_tree.specs.Tree.{tree_of};
ghost use Rattle.ppm_tree.specs.Limits.{IsWithin};

use crate::tree::Tree;
use std::marker::Model;

/// A tree that passes none of the limits: 64 arrays with 4,194,304 words in all; 1,024 procedures,
/// each `each` counted with them, of 12 parameters and with blocks 32 deep; 12 arguments in a call
/// and 48 nodes in a statement. Its names have the form of one and are no keywords, its literals
/// are from 0 to 2^63 - 1, its lines from 1 to 1,048,577.
#[derive(Drop)]
pub struct Program {
    tree: Tree,
}

impl Model for Program {
    ghost use Rattle.std.specs.Coded.{codes};
    ghost use Rattle.ppm_tree.specs.declared.tree.Tree.{Tree};
    ghost use Rattle.ppm_tree.specs.contracts.tree.Expr as expr;
    ghost use Rattle.ppm_tree.specs.contracts.tree.Stmt as stmt;
    ghost use Rattle.ppm_tree.specs.Tree.{tree_of};
    ghost use Rattle.ppm_tree.specs.Limits.{IsWithin};

    ghost Value = { Tree };

    ghost coded = { Prim.hlevel (codes, expr.the_row.coded, stmt.the_row.coded) };

    ghost view = { λ s. s.tree };

    ghost invariant = { λ s. IsWithin (tree_of s.tree) };
}

impl Program {
    /// The program with this tree.
    pub fn from_tree(tree: Tree) -> Self
        requires limits { IsWithin (tree_of tree) }
        ensures { result ≡ tree }
    {
        Program { tree }
    }

    /// Its tree.
    pub fn tree(&self) -> &Tree
        ensures value { result.now ≡ self.now }
        ensures limits { IsWithin (tree_of self.now) }
    {
        &self.tree
    }
}
