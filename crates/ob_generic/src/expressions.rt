//! Expressions in the tree of the instances.
ghost use Rattle.std.specs.Prelude.{◌≡◌, map, option_map, IfOk};
ghost use Rattle.ob_tree.specs.ExprsView.{expr_of, call_of};
ghost use Rattle.ob_tree.specs.StmtsView.{given_of};
ghost use Rattle.ob_generic_spec.specs.InstanceBodies.{expr_in, call_in, given_in};

use crate::naming::named_in;
use ob_base::{Boxed, Duplicate, Items, Memory, both, copy_option};
use ob_generic_names::OwnInstance;
use ob_generic_spec::Role;
use ob_tree::{CallNode, Expr, GivenNode};
use std::alloc::Global;

/// An expression.
#[cycle(instance)]
#[tactic(auto, using(ob_tree::specs::ExprsView::expr_views, crate::proofs::Turns::turns))]
pub fn expr_in(expr: &Expr, alloc: Global, own: &Option<OwnInstance<'_>>) -> Result<Expr, Memory>
    ensures { IfOk result (λ e. expr_of e ≡ expr_in own.now (expr_of expr.now)) }
{
    match expr {
        Expr::Unary {
            operator,
            sign,
            operand,
            span,
        } => Ok(Expr::Unary {
            operator: *operator,
            sign: *sign,
            operand: boxed_in(operand, alloc, own)?,
            span: *span,
        }),
        Expr::Binary {
            operator,
            sign,
            left,
            right,
            span,
        } => {
            let (left, right) = both(boxed_in(left, alloc, own), boxed_in(right, alloc, own))?;
            Ok(Expr::Binary {
                operator: *operator,
                sign: *sign,
                left,
                right,
                span: *span,
            })
        }
        Expr::Call { call, span } => Ok(Expr::Call {
            call: call_in(call, alloc, own)?,
            span: *span,
        }),
        Expr::New { of, args, span } => {
            let (of, args) = both(
                named_in(of, Role::Anywhere, alloc, own),
                args_in(args.as_slice(), alloc, own),
            )?;
            Ok(Expr::New {
                of,
                args,
                span: *span,
            })
        }
        Expr::Number { .. }
        | Expr::Text { .. }
        | Expr::Bool { .. }
        | Expr::Name { .. }
        | Expr::This { .. } => expr.copy(alloc),
    }
}

#[cycle(instance)]
#[tactic(auto, using(ob_tree::specs::ExprsView::expr_views, crate::proofs::Turns::turns))]
fn boxed_in(
    expr: &Boxed<Expr>,
    alloc: Global,
    own: &Option<OwnInstance<'_>>,
) -> Result<Boxed<Expr>, Memory>
    ensures { IfOk result (λ e. expr_of e ≡ expr_in own.now (expr_of expr.now)) }
{
    Ok(Boxed::new(alloc, expr_in(expr.get(), alloc, own)?)?)
}

#[cycle(instance)]
#[tactic(auto, using(ob_tree::specs::ExprsView::expr_views, crate::proofs::Turns::turns))]
fn call_in(
    call: &CallNode,
    alloc: Global,
    own: &Option<OwnInstance<'_>>,
) -> Result<CallNode, Memory>
    ensures { IfOk result (λ c. call_of c ≡ call_in own.now (call_of call.now)) }
{
    let ((receiver, name), args) = both(
        both(copy_option(alloc, &call.receiver), call.name.copy(alloc)),
        args_in(call.args.as_slice(), alloc, own),
    )?;
    Ok(CallNode {
        receiver,
        name,
        args,
    })
}

#[cycle(instance)]
#[tactic(auto, using(ob_tree::specs::ExprsView::expr_views, crate::proofs::Turns::turns))]
fn args_in(
    args: &[Expr],
    alloc: Global,
    own: &Option<OwnInstance<'_>>,
) -> Result<Items<Expr>, Memory>
    ensures { IfOk result (λ es. map expr_of es ≡ map (expr_in own.now) (map expr_of args.now)) }
{
    let mut out = Items::new(alloc);
    for arg in args {
        out.push(expr_in(arg, alloc, own)?)?;
    }
    Ok(out)
}

/// An expression, if there is one.
pub fn value_in(
    value: &Option<Expr>,
    alloc: Global,
    own: &Option<OwnInstance<'_>>,
) -> Result<Option<Expr>, Memory>
    ensures { IfOk result (λ e. option_map expr_of e ≡ option_map (expr_in own.now) (option_map expr_of value.now)) }
{
    match value {
        None => Ok(None),
        Some(value) => Ok(Some(expr_in(value, alloc, own)?)),
    }
}

fn given_in(
    given: &GivenNode,
    alloc: Global,
    own: &Option<OwnInstance<'_>>,
) -> Result<GivenNode, Memory>
    ensures { IfOk result (λ g. given_of g ≡ given_in own.now (given_of given.now)) }
{
    let (field, value) = both(given.field.copy(alloc), expr_in(&given.value, alloc, own))?;
    Ok(GivenNode { field, value })
}

/// Given fields.
#[tactic(auto, using(crate::proofs::Turns::turns))]
pub fn givens_in(
    given: &[GivenNode],
    alloc: Global,
    own: &Option<OwnInstance<'_>>,
) -> Result<Items<GivenNode>, Memory>
    ensures { IfOk result (λ gs. map given_of gs ≡ map (given_in own.now) (map given_of given.now)) }
{
    let mut out = Items::new(alloc);
    for one in given {
        out.push(given_in(one, alloc, own)?)?;
    }
    Ok(out)
}
