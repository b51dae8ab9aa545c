//! Faults in expressions.
ghost use Rattle.ppm_tree.specs.Tree.{ProgramTree, expression_of};
ghost use Rattle.ppm_regions.specs.Kept.{seen};
ghost use Rattle.ppm_regions.specs.Uses.{uses_in};
ghost use Rattle.ppm_regions.specs.Deciding.{IsLeastOf};

use crate::ask::Ask;
use crate::found::earlier;
use crate::naming::asked;
use crate::region_error::RegionError;
use crate::scope::Scope;
use ppm_tree::Expr;

/// The first fault in an expression.
pub fn in_expression(scope: &Scope, expression: &Expr) -> Option<RegionError>
    ensures { (t : ProgramTree)
        → IsLeastOf t (seen scope.now) (uses_in (expression_of expression.now)) result }
{
    match expression {
        Expr::Number(_) => None,
        Expr::Name(name) => asked(scope, Ask::Local, name),
        Expr::Element(region, index) => {
            let inside = in_expression(scope, index);
            earlier(asked(scope, Ask::Region, region), inside)
        }
        Expr::Len(region) => asked(scope, Ask::Region, region),
        Expr::Minus(_, operand) => in_expression(scope, operand),
        Expr::Binary(_, _, left, right) => {
            earlier(in_expression(scope, left), in_expression(scope, right))
        }
    }
}
