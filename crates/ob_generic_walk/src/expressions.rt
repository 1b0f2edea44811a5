//! The types in expressions.
ghost use Rattle.std.specs.Prelude.{◌≡◌, OnOk};
ghost use Rattle.ob_tree.specs.ExprsView.{expr_of, exprs_of};
ghost use Rattle.ob_generic_spec.specs.Uses.{types_in_expr, types_in_exprs};
ghost use Rattle.ob_generic_walk.specs.Seen.{met};

use crate::found::Found;
use crate::visiting::visit;
use ob_base::Memory;
use ob_generic_names::AroundType;
use ob_generic_spec::Role;
use ob_tree::Expr;
use std::alloc::Global;

/// The types in an expression.
#[cycle(walk)]
#[tactic(auto, using(ob_tree::specs::MembersView::views, crate::proofs::WalkTurns::turns))]
pub fn walk_expr(
    expr: &Expr,
    alloc: Global,
    around: &AroundType<'_>,
    found: &mut Found,
) -> Result<(), Memory>
    ensures { OnOk result (found.new ≡ met around.now found.old (types_in_expr (expr_of expr.now))) }
{
    match expr {
        Expr::Number { .. }
        | Expr::Text { .. }
        | Expr::Bool { .. }
        | Expr::Name { .. }
        | Expr::This { .. } => Ok(()),
        Expr::Unary { operand, .. } => walk_expr(operand.get(), alloc, around, found),
        Expr::Binary { left, right, .. } => {
            walk_expr(left.get(), alloc, around, found)?;
            walk_expr(right.get(), alloc, around, found)
        }
        Expr::Call { call, .. } => walk_args(call.args.as_slice(), alloc, around, found),
        Expr::New { of, args, .. } => {
            visit(of, Role::Anywhere, alloc, around, found)?;
            walk_args(args.as_slice(), alloc, around, found)
        }
    }
}

#[cycle(walk)]
#[tactic(auto, using(ob_tree::specs::MembersView::views, crate::proofs::WalkTurns::turns))]
fn walk_args(
    args: &[Expr],
    alloc: Global,
    around: &AroundType<'_>,
    found: &mut Found,
) -> Result<(), Memory>
    ensures { OnOk result (found.new ≡ met around.now found.old (types_in_exprs (exprs_of args.now))) }
{
    for arg in args {
        walk_expr(arg, alloc, around, found)?;
    }
    Ok(())
}
