//! Which levels of operators stand on each side of an operator without parentheses.
ghost use Rattle.std.specs.Prelude.{◌≡◌};
ghost use Rattle.ob_tree.specs.Operators.{left_span, right_span};

use ob_base::Operator;
use ob_tree::level_of;

/// The loosest level that stands on the left of an operator without parentheses: its own. But
/// equality and order don't chain, so their left operand binds tighter too.
pub fn left_span(operator: Operator) -> u8
    ensures { result ≡ left_span operator }
{
    match operator {
        Operator::Equal | Operator::NotEqual => 4,
        Operator::Less | Operator::LessEqual | Operator::Greater | Operator::GreaterEqual => 5,
        _ => level_of(operator),
    }
}

/// The loosest level that stands on the right without parentheses: a tighter one than its own.
pub fn right_span(operator: Operator) -> u8
    ensures { result ≡ right_span operator }
{
    level_of(operator) + 1
}

/// The place of the operand of an operator that has one.
pub const OPERAND_PLACE: u8 = 7;
