//! Expressions with numbers in place of names (the Obsidian language documentation, "Expressions").
ghost use Rattle.std.specs.Prelude.{◌≡◌, option_map, IfOk};
ghost use Rattle.ob_tree.specs.ExprsView.{expr_of, exprs_of, call_of};
ghost use Rattle.ob_table.specs.ExpressionsView.{expression_of, arguments_of};
ghost use Rattle.ob_resolve_spec.specs.Bodies.{seen_name, seen_at, seen_subject, resolved_receiver, resolved_expr};
ghost use Rattle.ob_resolve_spec.specs.Bodies.{resolved_call_at, resolved_args};
ghost use Rattle.ob_resolve_scope.specs.Around.{around_of};

use crate::numbers::{contract_id, id_of_kind, narrow, transaction_id, wide};
use crate::operators::{resolved_between, unary_operator};
use ob_base::{Boxed, Duplicate, FieldId, Items, Memory, Span};
use ob_resolve_scope::{AroundBody, Scope, kind_of_receiver};
use ob_table::{ResolvedCall, ResolvedExpr, Seen, SeenAt};
use ob_tree::{CallNode, Expr, NamePart, Subject};
use std::alloc::Global;

fn seen_name(around: &AroundBody<'_>, scope: &Scope, name: &[u8]) -> Result<Seen, Memory>
    ensures { IfOk result (λ seen. seen ≡ seen_name (around_of around.now) scope.now name.now) }
{
    match scope.variable(name) {
        Some(variable) => Ok(Seen::Local(wide(variable.number)?)),
        None => match around.field(name) {
            Some(number) => Ok(Seen::Field(FieldId(narrow(number)?))),
            None => Ok(Seen::This),
        },
    }
}

/// What a name in a body denotes, and its place.
pub fn seen_at(around: &AroundBody<'_>, scope: &Scope, name: &NamePart) -> Result<SeenAt, Memory>
    ensures { IfOk result (λ seen. seen ≡ seen_at (around_of around.now) scope.now name.now) }
{
    Ok(SeenAt {
        of: seen_name(around, scope, name.name.as_bytes())?,
        span: name.span,
    })
}

/// What `this` or a name in a body denotes, and its place.
pub fn seen_subject(
    around: &AroundBody<'_>,
    scope: &Scope,
    subject: &Subject,
) -> Result<SeenAt, Memory>
    ensures { IfOk result (λ seen. seen ≡ seen_subject (around_of around.now) scope.now subject.now) }
{
    match subject {
        Subject::This(span) => Ok(SeenAt {
            of: Seen::This,
            span: *span,
        }),
        Subject::Name(name) => seen_at(around, scope, name),
    }
}

fn seen_receiver(
    around: &AroundBody<'_>,
    scope: &Scope,
    receiver: &Option<Subject>,
) -> Result<Option<SeenAt>, Memory>
    ensures { IfOk result (λ seen. seen ≡ resolved_receiver (around_of around.now) scope.now receiver.now) }
{
    match receiver {
        None => Ok(None),
        Some(Subject::This(_)) => Ok(None),
        Some(Subject::Name(name)) => Ok(Some(seen_at(around, scope, name)?)),
    }
}

/// An expression.
#[cycle(resolve_expr)]
#[tactic(auto, using(ob_tree::specs::ExprsView::expr_views, ob_table::specs::ExpressionsView::expression_views))]
pub fn resolve_expr(
    expr: &Expr,
    around: &AroundBody<'_>,
    scope: &Scope,
    alloc: Global,
) -> Result<ResolvedExpr, Memory>
    ensures { IfOk result (λ e. expression_of e ≡ resolved_expr (around_of around.now) scope.now (expr_of expr.now)) }
{
    match expr {
        Expr::Number { value, span } => Ok(ResolvedExpr::Number {
            value: *value,
            span: *span,
        }),
        Expr::Text { value, span } => Ok(ResolvedExpr::Text {
            value: value.copy(alloc)?,
            span: *span,
        }),
        Expr::Bool { value, span } => Ok(ResolvedExpr::Bool {
            value: *value,
            span: *span,
        }),
        Expr::Name { name, span } => Ok(ResolvedExpr::Seen {
            seen: seen_at(around, scope, name)?,
            span: *span,
        }),
        Expr::This { token, span } => Ok(ResolvedExpr::Seen {
            seen: SeenAt {
                of: Seen::This,
                span: *token,
            },
            span: *span,
        }),
        Expr::Unary {
            operator,
            sign,
            operand,
            span,
        } => {
            let operand = resolve_operand(operand.get(), around, scope, alloc)?;
            Ok(ResolvedExpr::Unary {
                operator: unary_operator(*operator),
                sign: *sign,
                operand,
                span: *span,
            })
        }
        Expr::Binary {
            operator,
            sign,
            left,
            right,
            span,
        } => {
            let left = resolve_operand(left.get(), around, scope, alloc)?;
            let right = resolve_operand(right.get(), around, scope, alloc)?;
            Ok(resolved_between(*operator, *sign, left, right, *span))
        }
        Expr::Call { call, span } => resolve_call(call, *span, around, scope, alloc),
        Expr::New { of, args, span } => {
            let number = around.declared().types().find(of.name.as_bytes());
            let contract = contract_id(number)?;
            let args = resolve_args(args.as_slice(), around, scope, alloc)?;
            Ok(ResolvedExpr::New {
                contract,
                args,
                span: *span,
            })
        }
    }
}

// An operand, in a place of its own.
#[cycle(resolve_expr)]
fn resolve_operand(
    operand: &Expr,
    around: &AroundBody<'_>,
    scope: &Scope,
    alloc: Global,
) -> Result<Boxed<ResolvedExpr>, Memory>
    ensures { IfOk result (λ e. expression_of e ≡ resolved_expr (around_of around.now) scope.now (expr_of operand.now)) }
{
    let operand = resolve_expr(operand, around, scope, alloc)?;
    Ok(Boxed::new(alloc, operand)?)
}

#[cycle(resolve_expr)]
#[tactic(auto, using(ob_tree::specs::MembersView::views, ob_table::specs::StatementsView::resolved_views))]
fn resolve_call(
    call: &CallNode,
    span: Span,
    around: &AroundBody<'_>,
    scope: &Scope,
    alloc: Global,
) -> Result<ResolvedExpr, Memory>
    ensures { IfOk result (λ e. expression_of e ≡ resolved_call_at (around_of around.now) scope.now
        (call_of call.now) span) }
{
    let receiver = seen_receiver(around, scope, &call.receiver)?;
    let kind = kind_of_receiver(around, scope, &call.receiver);
    let contract = id_of_kind(kind)?;
    let tx = transaction_id(around, kind, &call.name)?;
    let args = resolve_args(call.args.as_slice(), around, scope, alloc)?;
    let call = ResolvedCall {
        receiver,
        contract,
        tx,
        name: call.name.span,
        args,
    };
    Ok(ResolvedExpr::Call { call, span })
}

#[cycle(resolve_expr)]
#[tactic(auto, using(ob_tree::specs::MembersView::views, ob_table::specs::StatementsView::resolved_views))]
fn resolve_args(
    args: &[Expr],
    around: &AroundBody<'_>,
    scope: &Scope,
    alloc: Global,
) -> Result<Items<ResolvedExpr>, Memory>
    ensures { IfOk result (λ es. arguments_of es ≡ resolved_args (around_of around.now) scope.now (exprs_of args.now)) }
{
    let mut resolved = Items::new(alloc);
    for arg in args {
        resolved.push(resolve_expr(arg, around, scope, alloc)?)?;
    }
    Ok(resolved)
}
