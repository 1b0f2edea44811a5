//! Operators: their signs, and how tight they bind.
ghost use Rattle.std.specs.Prelude.{◌≡◌, ◌≤◌};
ghost use Rattle.ob_tree.specs.Operators.{sign_of_operator, level_of};

use ob_base::Operator;
use ob_lexer::Sign;

/// Every operator.
pub const OPERATORS: [Operator; 15] = [
    Operator::Add,
    Operator::Sub,
    Operator::Mul,
    Operator::Div,
    Operator::Rem,
    Operator::Equal,
    Operator::NotEqual,
    Operator::Less,
    Operator::LessEqual,
    Operator::Greater,
    Operator::GreaterEqual,
    Operator::And,
    Operator::Or,
    Operator::Not,
    Operator::Negate,
];

/// The sign that represents an operator.
pub fn sign_of_operator(operator: Operator) -> Sign
    ensures { result ≡ sign_of_operator operator }
{
    match operator {
        Operator::Add => Sign::Plus,
        Operator::Sub => Sign::Minus,
        Operator::Mul => Sign::Star,
        Operator::Div => Sign::Slash,
        Operator::Rem => Sign::Percent,
        Operator::Equal => Sign::DoubleEquals,
        Operator::NotEqual => Sign::NotEquals,
        Operator::Less => Sign::Less,
        Operator::LessEqual => Sign::LessEquals,
        Operator::Greater => Sign::Greater,
        Operator::GreaterEqual => Sign::GreaterEquals,
        Operator::And => Sign::DoubleAmpersand,
        Operator::Or => Sign::DoubleBar,
        Operator::Not => Sign::Not,
        Operator::Negate => Sign::Minus,
    }
}

/// How tight an operator binds, from the loosest: from 1 for `||` to 7 for operators of one operand.
pub fn level_of(operator: Operator) -> u8
    ensures level { result ≡ level_of operator }
    ensures bound { result ≤ 7 }
{
    match operator {
        Operator::Or => 1,
        Operator::And => 2,
        Operator::Equal | Operator::NotEqual => 3,
        Operator::Less | Operator::LessEqual | Operator::Greater | Operator::GreaterEqual => 4,
        Operator::Add | Operator::Sub => 5,
        Operator::Mul | Operator::Div | Operator::Rem => 6,
        Operator::Not | Operator::Negate => 7,
    }
}
