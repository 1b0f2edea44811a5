//! Expressions (the Obsidian language documentation, "Expressions").
ghost use Rattle.std.specs.Prelude.{[]};
ghost use Rattle.ob_table.specs.Expressions.{resolved_unary, resolved_new};
ghost use Rattle.ob_table.specs.ExpressionsView.{expression_of, arguments_of, call_at_span as call_at};
ghost use Rattle.ob_silica.specs.TermsView.{terms_of};
ghost use Rattle.ob_lower_functions.specs.ExpressionCode.{expression_code, arguments_code, value_code};
ghost use Rattle.ob_lower_parts.specs.Makes.{Makes, progress};
ghost use Rattle.ob_lower.specs.Parts.{right_code, binary_code, logical_rest};

use ob_base::{ContractId, Items, Span};
use ob_lower_parts::{
    AroundExpression, Code, Sign, Slots, Stopped, lower_leaf, lower_receiver, put_call, put_choice,
    put_new, put_operation, valued,
};
use ob_silica::{Form, Operand, Place, SilicaOperator, Term};
use ob_table::{BinaryOperator, LogicalOperator, ResolvedCall, ResolvedExpr, UnaryOperator};
use std::alloc::Global;

/// An expression: the operand that represents its value, if it has one.
#[cycle(lower_expression)]
#[tactic(auto, using(crate::proofs::ExpressionsLemmas::expressions))]
pub fn lower_expression(
    e: &ResolvedExpr,
    around: &AroundExpression<'_>,
    out: &mut Code,
    slots: &mut Slots,
) -> Result<Option<Operand>, Stopped>
    ensures { Makes result (λ o. (progress out.new slots.new, o))
        (expression_code around.now (expression_of e.now) (progress out.old slots.old)) }
{
    match e {
        ResolvedExpr::Unary {
            operator,
            sign,
            operand,
            span,
        } => { lower_unary(operand.get(), *operator, *sign, *span, around, out, slots) }
        ResolvedExpr::Binary {
            operator,
            sign,
            left,
            right,
            span,
        } => {
            let left = lower_value(left.get(), around, out, slots)?;
            lower_binary(
                right.get(),
                left,
                *operator,
                *sign,
                *span,
                around,
                out,
                slots,
            )
        }
        ResolvedExpr::Logical {
            operator,
            sign,
            left,
            right,
            span,
        } => {
            let first = lower_value(left.get(), around, out, slots)?;
            lower_logical(
                right.get(),
                first,
                *operator,
                *sign,
                *span,
                around,
                out,
                slots,
            )
        }
        ResolvedExpr::Call { call, span } => lower_call(call, *span, around, out, slots),
        ResolvedExpr::New {
            contract,
            args,
            span,
        } => lower_new(args.as_slice(), *contract, *span, around, out, slots),
        _ => lower_leaf(e, around, out, slots),
    }
}

/// An expression that must have a value: the operand that represents it.
#[cycle(lower_expression)]
#[tactic(auto, using(crate::proofs::ExpressionsLemmas::expressions))]
pub fn lower_value(
    e: &ResolvedExpr,
    around: &AroundExpression<'_>,
    out: &mut Code,
    slots: &mut Slots,
) -> Result<Operand, Stopped>
    ensures { Makes result (λ o. (progress out.new slots.new, o))
        (value_code around.now (expression_of e.now) (progress out.old slots.old)) }
{
    valued(lower_expression(e, around, out, slots)?)
}

// The arguments of a call or a `new`, from left to right.
#[cycle(lower_expression)]
#[tactic(auto, using(crate::proofs::ExpressionsLemmas::expressions))]
fn lower_args(
    args: &[ResolvedExpr],
    around: &AroundExpression<'_>,
    out: &mut Code,
    slots: &mut Slots,
) -> Result<Items<Operand>, Stopped>
    ensures { Makes result (λ os. (progress out.new slots.new, os))
        (arguments_code around.now (arguments_of args.now) [] (progress out.old slots.old)) }
{
    let mut operands = Items::new(out.alloc());
    for arg in args {
        operands.push(lower_value(arg, around, out, slots)?)?;
    }
    Ok(operands)
}

#[cycle(lower_expression)]
#[tactic(auto, using(crate::proofs::ExpressionsLemmas::expressions))]
fn lower_call(
    call: &ResolvedCall,
    span: Span,
    around: &AroundExpression<'_>,
    out: &mut Code,
    slots: &mut Slots,
) -> Result<Option<Operand>, Stopped>
    ensures { Makes result (λ o. (progress out.new slots.new, o))
        (expression_code around.now (call_at call.now span) (progress out.old slots.old)) }
{
    let receiver = lower_receiver(call.receiver, around)?;
    let args = lower_args(call.args.as_slice(), around, out, slots)?;
    put_call(call, receiver, args, span, around, out, slots)
}

#[cycle(lower_expression)]
#[tactic(auto, using(crate::proofs::ExpressionsLemmas::expressions))]
fn lower_new(
    args: &[ResolvedExpr],
    contract: ContractId,
    span: Span,
    around: &AroundExpression<'_>,
    out: &mut Code,
    slots: &mut Slots,
) -> Result<Option<Operand>, Stopped>
    ensures { Makes result (λ o. (progress out.new slots.new, o))
        (expression_code around.now (resolved_new contract (arguments_of args.now) span)
        (progress out.old slots.old)) }
{
    let args = lower_args(args, around, out, slots)?;
    put_new(contract, args, span, around, out, slots)
}

#[cycle(lower_expression)]
#[tactic(auto, using(crate::proofs::ExpressionsLemmas::expressions))]
fn lower_unary(
    operand: &ResolvedExpr,
    operator: UnaryOperator,
    sign: Span,
    span: Span,
    around: &AroundExpression<'_>,
    out: &mut Code,
    slots: &mut Slots,
) -> Result<Option<Operand>, Stopped>
    ensures { Makes result (λ o. (progress out.new slots.new, o))
        (expression_code around.now (resolved_unary operator sign (expression_of operand.now) span)
        (progress out.old slots.old)) }
{
    let a = lower_value(operand, around, out, slots)?;
    let sign = Sign {
        operator: SilicaOperator::Unary(operator),
        span: sign,
    };
    put_operation(sign, a, a, span, around, out, slots)
}

// The right side of `&&` or `||`: terms of their own, whose value is copied into the left side's temporary.
#[cycle(lower_expression)]
#[tactic(auto, using(crate::proofs::ExpressionsLemmas::expressions))]
fn lower_right(
    right: &ResolvedExpr,
    to: Place,
    around: &AroundExpression<'_>,
    alloc: Global,
    slots: &mut Slots,
) -> Result<Items<Term>, Stopped>
    ensures { Makes result (λ ts. progress (terms_of ts) slots.new)
        (right_code around.now to (expression_of right.now) slots.old) }
{
    let mut branch = Code::new(alloc);
    let from = lower_value(right, around, &mut branch, slots)?;
    branch.put(Form::Copy { to, from }, around.span())?;
    Ok(branch.into_terms())
}

// The rest of an operator that needs both operands, after the left one.
#[cycle(lower_expression)]
#[tactic(auto, using(crate::proofs::ExpressionsLemmas::expressions))]
fn lower_binary(
    right: &ResolvedExpr,
    left: Operand,
    operator: BinaryOperator,
    sign: Span,
    span: Span,
    around: &AroundExpression<'_>,
    out: &mut Code,
    slots: &mut Slots,
) -> Result<Option<Operand>, Stopped>
    ensures { Makes result (λ o. (progress out.new slots.new, o))
        (binary_code around.now operator sign span (expression_of right.now)
        (progress out.old slots.old, left)) }
{
    let right = lower_value(right, around, out, slots)?;
    let sign = Sign {
        operator: SilicaOperator::Binary(operator),
        span: sign,
    };
    put_operation(sign, left, right, span, around, out, slots)
}

// The rest of `&&` or `||` after the left operand.
#[cycle(lower_expression)]
#[tactic(auto, using(crate::proofs::ExpressionsLemmas::expressions))]
fn lower_logical(
    right: &ResolvedExpr,
    left: Operand,
    operator: LogicalOperator,
    sign: Span,
    span: Span,
    around: &AroundExpression<'_>,
    out: &mut Code,
    slots: &mut Slots,
) -> Result<Option<Operand>, Stopped>
    ensures { Makes result (λ o. (progress out.new slots.new, o))
        (logical_rest around.now operator sign span (expression_of right.now)
        (progress out.old slots.old, left)) }
{
    let alloc = out.alloc();
    match operator {
        LogicalOperator::And => {
            let then = lower_right(right, left.place, around, alloc, slots)?;
            put_choice(left, then, Items::new(alloc), sign, span, around, out)
        }
        LogicalOperator::Or => {
            let otherwise = lower_right(right, left.place, around, alloc, slots)?;
            put_choice(left, Items::new(alloc), otherwise, sign, span, around, out)
        }
    }
}
