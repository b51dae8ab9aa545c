//! An admitted program.
ghost use Rattle.std.specs.Prelude.{◌≡◌};
ghost use Rattle.ppm_tree.specs.Tree.{tree_of};
ghost use Rattle.ppm_tree.specs.Program.{initial_arrays};
ghost use Rattle.ppm_regions.specs.Admission.{IsAdmitted};

use ppm_tree::Program;
use ppm_words::Input;
use std::marker::Model;

/// A program that keeps the rules of names and regions, with the arrays that it starts with.
#[derive(Drop)]
pub struct Admitted {
    program: Program,
    input: Input,
}

impl Model for Admitted {
    ghost use Rattle.std.specs.Prelude.{◌≡◌};
    ghost use Rattle.std.specs.Coded.{codes};
    ghost use Rattle.ppm_tree.specs.declared.tree.Tree.{Tree};
    ghost use Rattle.ppm_tree.specs.contracts.tree.Expr as expr;
    ghost use Rattle.ppm_tree.specs.contracts.tree.Stmt as stmt;
    ghost use Rattle.ppm_tree.specs.Tree.{tree_of};
    ghost use Rattle.ppm_tree.specs.Program.{initial_arrays};
    ghost use Rattle.ppm_regions.specs.Admission.{IsAdmitted};

    ghost Value = { Tree };

    ghost coded = { Prim.hlevel (codes, expr.the_row.coded, stmt.the_row.coded) };

    ghost view = { λ a. a.program };

    ghost invariant = { λ a. IsAdmitted (tree_of a.program) × (a.input ≡ initial_arrays (tree_of a.program)) };
}

impl Admitted {
    /// The program with its arrays.
    pub(crate) fn from_parts(program: Program, input: Input) -> Self
        requires admitted { IsAdmitted (tree_of program) }
        requires input { input ≡ initial_arrays (tree_of program) }
        ensures { result ≡ program }
    {
        Admitted { program, input }
    }

    /// The program that was admitted.
    pub fn program(&self) -> &Program
        ensures value { result.now ≡ self.now }
        ensures admitted { IsAdmitted (tree_of self.now) }
    {
        &self.program
    }

    /// Its arrays with the values that they start with.
    pub fn input(&self) -> &Input
        ensures value { result.now ≡ initial_arrays (tree_of self.now) }
    {
        &self.input
    }
}
