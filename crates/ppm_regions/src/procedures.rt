//! The procedures of a program, by their names.
ghost use Rattle.std.specs.Prelude.{◌≡◌, IfOk, None, Some, MatchOption};
ghost use Rattle.ppm_tree.specs.Tree.{procedure_of, tree_of};
ghost use Rattle.ppm_regions.specs.Uses.{callee_of, parameters_of};

use ppm_tree::{Named, Parameter, Proc, Tree};
use ppm_words::NoMemory;
use std::alloc::Global;
use std::collections::HashMap;
use std::marker::Model;

/// A program with its procedures by name, the first one of each name.
#[derive(Drop)]
pub struct Procedures<'t> {
    tree: &'t Tree,
    by_name: HashMap<&'t [u8], &'t Proc>,
}

impl<'t> Model for Procedures<'t> {
    ghost use Rattle.std.specs.Coded.{codes};
    ghost use Rattle.ppm_tree.specs.declared.tree.Tree.{Tree};
    ghost use Rattle.ppm_tree.specs.contracts.tree.Expr as expr;
    ghost use Rattle.ppm_tree.specs.contracts.tree.Stmt as stmt;

    ghost Value = { Tree };

    ghost coded = { Prim.hlevel (codes, expr.the_row.coded, stmt.the_row.coded) };

    ghost view = { λ s. s.tree.now };

    ghost use Rattle.ppm_regions.specs.Deciding.{IsIndex};

    ghost invariant = { λ s. IsIndex s.by_name s.tree.now.procedures };
}

impl<'t> Procedures<'t> {
    /// The procedures of the program, by their names.
    pub fn of(alloc: Global, tree: &'t Tree) -> Result<Procedures<'t>, NoMemory>
        ensures { IfOk result (λ index. index ≡ tree.now) }
    {
        let mut by_name = HashMap::new(alloc);
        for procedure in tree.procedures.as_slice() {
            let name = procedure.name.name.as_bytes();
            if by_name.get(&name).is_some() {
                continue;
            }
            by_name.insert(name, procedure)?;
        }
        Ok(Procedures { tree, by_name })
    }

    /// The procedure that is called, if there is one of the name.
    pub fn callee(&self, name: &Named) -> Option<&'t Proc>
        ensures { MatchOption result (callee_of (tree_of self.now) name.now
            ≡ None) (λ p. callee_of (tree_of self.now) name.now ≡ Some (procedure_of p.now)) }
    {
        self.by_name.get(&name.name.as_bytes()).copied()
    }

    /// The parameters of the procedure that is called; none where there is no such procedure.
    pub fn parameters(&self, name: &Named) -> &'t [Parameter]
        ensures { result.now ≡ parameters_of (callee_of (tree_of self.now) name.now) }
    {
        match self.callee(name) {
            None => &[],
            Some(procedure) => procedure.parameters.as_slice(),
        }
    }
}
