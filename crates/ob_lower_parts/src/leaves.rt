//! Expressions without parts (the Obsidian language documentation, "Expressions").
ghost use Rattle.ob_table.specs.ExpressionsView.{expression_of};
ghost use Rattle.ob_lower_functions.specs.ExpressionCode.{expression_code};
ghost use Rattle.ob_lower_parts.specs.Makes.{Makes, progress};
ghost use Rattle.ob_lower_parts.specs.Operands.{IsLeaf};

use crate::frame::AroundExpression;
use crate::names::lower_seen;
use crate::operands::{lower_constant, lower_text};
use crate::{Code, Slots, Stopped};
use ob_silica::{Constant, Operand};
use ob_table::ResolvedExpr;

/// An expression without parts: the operand that represents its value.
#[tactic(auto, using(ob_table::specs::ExpressionsView::expression_views))]
pub fn lower_leaf(
    e: &ResolvedExpr,
    around: &AroundExpression<'_>,
    out: &mut Code,
    slots: &mut Slots,
) -> Result<Option<Operand>, Stopped>
    requires { IsLeaf (expression_of e.now) }
    ensures { Makes result (λ o. (progress out.new slots.new, o))
        (expression_code around.now (expression_of e.now) (progress out.old slots.old)) }
{
    match e {
        ResolvedExpr::Number { value, span } => {
            lower_constant(Constant::Int(*value), *span, around, out, slots)
        }
        ResolvedExpr::Text { value, span } => lower_text(value, *span, around, out, slots),
        ResolvedExpr::Bool { value, span } => {
            lower_constant(Constant::Bool(*value), *span, around, out, slots)
        }
        ResolvedExpr::Seen { seen, span } => lower_seen(seen.of, *span, around, out, slots),
        ResolvedExpr::Unary { .. }
        | ResolvedExpr::Binary { .. }
        | ResolvedExpr::Logical { .. }
        | ResolvedExpr::Call { .. }
        | ResolvedExpr::New { .. } => unreachable!(),
    }
}
