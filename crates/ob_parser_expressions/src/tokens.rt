//! The first token, or the first two.
ghost use Rattle.std.specs.Prelude.{◌≡◌, ◌≤◌, [], ◌∷◌, length, IfOk};
ghost use Rattle.ob_parser_spec.specs.Symbols.{number};
ghost use Rattle.ob_parser_spec.specs.Rows.{joined};
ghost use Rattle.ob_parser_spec.specs.Readers.{is_of, begin_with, begin_with_both, span_if, read_token, span_between};
ghost use Rattle.ob_parser_expressions.specs.Answering.{Answers, as_it_is, symbol_for, numbers, read_open};
ghost use Rattle.ob_parser_expressions.specs.declared.halt.Halt.TheVariants.{Expected};

use crate::halt::Halt;
use ob_base::Span;
use ob_lexer::{Sign, Token, TokenKind, Word};

/// What the grammar tells tokens apart by.
#[derive(Clone, Copy)]
pub enum Symbol {
    /// Any name that isn't a reserved word.
    Name,
    /// Any number.
    Number,
    /// Any string.
    Text,
    /// This reserved word.
    Word(Word),
    /// This sign.
    Sign(Sign),
}

/// The place of no token.
const NOWHERE: Span = Span {
    start: 0,
    end: 0,
    line: 0,
    column: 0,
};

/// From the start of one place to the end of another.
pub fn joined(first: Span, last: Span) -> Span
    ensures { result ≡ joined first last }
{
    Span {
        start: first.start,
        end: last.end,
        line: first.line,
        column: first.column,
    }
}

/// The place of the tokens before those that are left.
pub fn span_between(tokens: &[Token], rest: &[Token]) -> Span
    ensures { result ≡ span_between tokens.now rest.now }
{
    let count = tokens.len().saturating_sub(rest.len());
    match &tokens[..count] {
        [first, .., last] => joined(first.span, last.span),
        [token] => token.span,
        [] => NOWHERE,
    }
}

/// Why these tokens aren't read: nothing that was begun goes on with the first.
pub fn refused(tokens: &[Token]) -> Halt
    ensures { result ≡ Expected (length tokens.now) }
{
    Halt::Expected { left: tokens.len() }
}

/// Whether a token is of this symbol.
pub fn is_symbol(token: &Token, symbol: Symbol) -> bool
    ensures { result ≡ is_of (number (symbol_for symbol) ∷ []) token.now }
{
    match (&token.kind, symbol) {
        (TokenKind::Name(_), Symbol::Name) => true,
        (TokenKind::Number(_), Symbol::Number) => true,
        (TokenKind::Text(_), Symbol::Text) => true,
        (TokenKind::Word(word), Symbol::Word(wanted)) => *word == wanted,
        (TokenKind::Sign(sign), Symbol::Sign(wanted)) => *sign == wanted,
        _ => false,
    }
}

fn is_one_of(token: &Token, symbols: &[Symbol]) -> bool
    ensures { result ≡ is_of (numbers symbols.now) token.now }
{
    symbols.iter().any(|symbol| is_symbol(token, *symbol))
}

/// Whether the first token is this.
pub fn starts_with(tokens: &[Token], symbol: Symbol) -> bool
    ensures { result ≡ begin_with (number (symbol_for symbol) ∷ []) tokens.now }
{
    match tokens {
        [first, ..] => is_symbol(first, symbol),
        [] => false,
    }
}

/// Whether the first token is one of these.
pub fn starts_with_one_of(tokens: &[Token], symbols: &[Symbol]) -> bool
    ensures { result ≡ begin_with (numbers symbols.now) tokens.now }
{
    match tokens {
        [first, ..] => is_one_of(first, symbols),
        [] => false,
    }
}

/// Whether the first token is one of these, and the second one of those.
pub fn starts_with_both(tokens: &[Token], symbols: &[Symbol], others: &[Symbol]) -> bool
    ensures { result ≡ begin_with_both (numbers symbols.now) (numbers others.now) tokens.now }
{
    match tokens {
        [first, rest @ ..] => is_one_of(first, symbols) && starts_with_one_of(rest, others),
        [] => false,
    }
}

/// The place of a word or a sign, and what is after it.
pub fn fixed(symbol: Symbol, tokens: &[Token]) -> Result<(Span, &[Token]), Halt>
    ensures { Answers as_it_is result (read_token (span_if (symbol_for symbol)) tokens.now) }
{
    match tokens {
        [token, rest @ ..] if is_symbol(token, symbol) => Ok((token.span, rest)),
        _ => Err(refused(tokens)),
    }
}

/// The place of a word or a sign that opens a part, and what is after it. The part has one less room.
pub fn opens(room: u8, symbol: Symbol, tokens: &[Token]) -> Result<(Span, &[Token]), Halt>
    ensures read { Answers as_it_is result (read_open (span_if (symbol_for symbol)) 1 room tokens.now) }
    ensures room { IfOk result (λ _. 1 ≤ room) }
{
    let (span, rest) = fixed(symbol, tokens)?;
    if room == 0 {
        return Err(Halt::TooDeep { left: tokens.len() });
    }
    Ok((span, rest))
}
