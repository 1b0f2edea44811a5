//! The operators of the tree as those of expressions with numbers (the Obsidian language documentation, "Expressions").
ghost use Rattle.std.specs.Prelude.{◌≡◌};
ghost use Rattle.ob_table.specs.ExpressionsView.{expression_of};
ghost use Rattle.ob_resolve_spec.specs.Operators.{unary_operator, binary_operator, resolved_between};

use ob_base::{Boxed, Operator, Span};
use ob_table::{BinaryOperator, LogicalOperator, ResolvedExpr, UnaryOperator};

/// An operator before its operand: `!`, or else `-`.
pub fn unary_operator(operator: Operator) -> UnaryOperator
    ensures { result ≡ unary_operator operator }
{
    match operator {
        Operator::Not => UnaryOperator::Not,
        _ => UnaryOperator::Negate,
    }
}

// An operator between its operands that needs both values: one of ten, or else `>=`.
fn binary_operator(operator: Operator) -> BinaryOperator
    ensures { result ≡ binary_operator operator }
{
    match operator {
        Operator::Add => BinaryOperator::Add,
        Operator::Sub => BinaryOperator::Sub,
        Operator::Mul => BinaryOperator::Mul,
        Operator::Div => BinaryOperator::Div,
        Operator::Rem => BinaryOperator::Rem,
        Operator::Equal => BinaryOperator::Equal,
        Operator::NotEqual => BinaryOperator::NotEqual,
        Operator::Less => BinaryOperator::Less,
        Operator::LessEqual => BinaryOperator::LessEqual,
        Operator::Greater => BinaryOperator::Greater,
        _ => BinaryOperator::GreaterEqual,
    }
}

/// An operator between two expressions: `&&` and `||` are logical ones.
#[tactic(auto, using(ob_table::specs::ExpressionsView::expression_views))]
pub fn resolved_between(
    operator: Operator,
    sign: Span,
    left: Boxed<ResolvedExpr>,
    right: Boxed<ResolvedExpr>,
    span: Span,
) -> ResolvedExpr
    ensures { expression_of result ≡ resolved_between operator sign (expression_of left) (expression_of right) span }
{
    match operator {
        Operator::And => ResolvedExpr::Logical {
            operator: LogicalOperator::And,
            sign,
            left,
            right,
            span,
        },
        Operator::Or => ResolvedExpr::Logical {
            operator: LogicalOperator::Or,
            sign,
            left,
            right,
            span,
        },
        _ => ResolvedExpr::Binary {
            operator: binary_operator(operator),
            sign,
            left,
            right,
            span,
        },
    }
}
