//! The operators of expressions, by their levels, each with a row of the grammar:
//!
//! ```text
//! expr  = and {"||" and}
//! and   = eq {"&&" eq}
//! eq    = rel [("==" | "!=") rel]
//! rel   = add [("<" | "<=" | ">" | ">=") add]
//! add   = mul {("+" | "-") mul}
//! mul   = unary {("*" | "/" | "%") unary}
//! unary = ("!" | "-") unary | primary
//! ```

ghost use Rattle.std.specs.Prelude.{◌≡◌, ◌<◌, ◌≤◌, IfOk, IfSome};
ghost use Rattle.ob_parser_spec.specs.Readers.{one_among, begin_with, read_token};
ghost use Rattle.ob_parser_spec.specs.Operators.{of_level, symbol_of_operator, operator_if, signs_of_level};
ghost use Rattle.ob_parser_spec.specs.ExprReaders.{unary_if, unary_signs};
ghost use Rattle.ob_parser_expressions.specs.Levels.{number_of_level, levels_from, tighter, repeats, operator_with_span};
ghost use Rattle.ob_parser_expressions.specs.Answering.{AnswersBoth, read_open};

use crate::halt::Halt;
use crate::tokens::{Symbol, is_symbol, refused};
use ob_base::{Operator, Span};
use ob_lexer::Token;
use ob_tree::{OPERATORS, level_of, sign_of_operator};

/// The levels of operators with two operands, from the loosest to the tightest.
#[derive(Clone, Copy)]
pub enum Level {
    /// `expr`
    Or,
    /// `and`
    And,
    /// `eq`
    Equality,
    /// `rel`
    Relation,
    /// `add`
    Sum,
    /// `mul`
    Product,
}

/// The level of the operands, unless their row is `unary`.
pub fn tighter(level: Level) -> Option<Level>
    ensures row { result ≡ tighter level }
    ensures fewer { IfSome result (λ next. levels_from next < levels_from level) }
{
    match level {
        Level::Or => Some(Level::And),
        Level::And => Some(Level::Equality),
        Level::Equality => Some(Level::Relation),
        Level::Relation => Some(Level::Sum),
        Level::Sum => Some(Level::Product),
        Level::Product => None,
    }
}

/// Whether a row of this level may have more than one operator.
pub fn repeats(level: Level) -> bool
    ensures { result ≡ repeats level }
{
    !matches!(level, Level::Equality | Level::Relation)
}

fn number_of_level(level: Level) -> u8
    ensures { result ≡ number_of_level level }
{
    match level {
        Level::Or => 1,
        Level::And => 2,
        Level::Equality => 3,
        Level::Relation => 4,
        Level::Sum => 5,
        Level::Product => 6,
    }
}

// ---- operators

// The operator among these that is of this level and that a token is.
fn operator_among(operators: &[Operator], level: u8, token: &Token) -> Option<Operator>
    ensures { result ≡ one_among symbol_of_operator (of_level level operators.now) token.now }
{
    for operator in operators {
        if level_of(*operator) == level
            && is_symbol(token, Symbol::Sign(sign_of_operator(*operator)))
        {
            return Some(*operator);
        }
    }
    None
}

fn starts_with_level(level: u8, tokens: &[Token]) -> bool
    ensures { result ≡ begin_with (signs_of_level level) tokens.now }
{
    match tokens {
        [token, ..] => operator_among(&OPERATORS, level, token).is_some(),
        [] => false,
    }
}

fn operator_token(level: u8, tokens: &[Token]) -> Result<(Operator, Span, &[Token]), Halt>
    ensures { AnswersBoth operator_with_span result (read_token (operator_if level) tokens.now) }
{
    match tokens {
        [token, rest @ ..] => match operator_among(&OPERATORS, level, token) {
            Some(operator) => Ok((operator, token.span, rest)),
            None => Err(refused(tokens)),
        },
        [] => Err(refused(tokens)),
    }
}

fn opens_level(level: u8, room: u8, tokens: &[Token]) -> Result<(Operator, Span, &[Token]), Halt>
    ensures read { AnswersBoth operator_with_span result (read_open (operator_if level) 1 room tokens.now) }
    ensures room { IfOk result (λ _. 1 ≤ room) }
{
    let (operator, sign, rest) = operator_token(level, tokens)?;
    if room == 0 {
        return Err(Halt::TooDeep { left: tokens.len() });
    }
    Ok((operator, sign, rest))
}

/// Whether the first token is an operator of this level.
pub fn starts_with_operator(level: Level, tokens: &[Token]) -> bool
    ensures { result ≡ begin_with (signs_of_level (number_of_level level)) tokens.now }
{
    starts_with_level(number_of_level(level), tokens)
}

/// An operator of this level. What stands after it has one less room.
pub fn opens_operator(
    level: Level,
    room: u8,
    tokens: &[Token],
) -> Result<(Operator, Span, &[Token]), Halt>
    ensures read { AnswersBoth operator_with_span result (read_open (operator_if (number_of_level level)) 1 room tokens.now) }
    ensures room { IfOk result (λ _. 1 ≤ room) }
{
    opens_level(number_of_level(level), room, tokens)
}

// Both operators with one operand are of one level.

/// Whether the first token is an operator with one operand.
pub fn starts_with_unary(tokens: &[Token]) -> bool
    ensures { result ≡ begin_with unary_signs tokens.now }
{
    starts_with_level(level_of(Operator::Not), tokens)
}

/// An operator with one operand. What stands after it has one less room.
pub fn opens_unary(room: u8, tokens: &[Token]) -> Result<(Operator, Span, &[Token]), Halt>
    ensures read { AnswersBoth operator_with_span result (read_open unary_if 1 room tokens.now) }
    ensures room { IfOk result (λ _. 1 ≤ room) }
{
    opens_level(level_of(Operator::Not), room, tokens)
}
