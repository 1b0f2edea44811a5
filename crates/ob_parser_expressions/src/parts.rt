//! Parts of a row, one after the other: what has been read goes in, and comes back with what was read after it. So
//! no early return of a row has to drop a part.

ghost use Rattle.std.specs.Prelude.{◌≡◌, Ok, Err, IfOk, IfErr};
ghost use Rattle.ob_parser_spec.specs.Symbols.{a_sign};
ghost use Rattle.ob_parser_spec.specs.Readers.{done, read_token, span_if, span_between};
ghost use Rattle.ob_parser_expressions.specs.Answering.{symbol_for, Halts};
ghost use Rattle.ob_parser_expressions.specs.Places.{first_span};
ghost use Rattle.ob_lexer.specs.declared.token.Sign.TheVariants.{Semicolon};

use crate::halt::Halt;
use crate::tokens::{Symbol, fixed, span_between};
use ob_base::Span;
use ob_lexer::{Sign, Token};

/// A part, and the one after it.
pub fn with<A: Drop, B>(
    part: A,
    next: Result<(B, &[Token]), Halt>,
) -> Result<(A, B, &[Token]), Halt>
    ensures part { IfOk result (λ x. x.0 ≡ part) }
    ensures ok { IfOk result (λ x. next.entry ≡ Ok (x.1, x.2)) }
    ensures err { IfErr result (λ e. next.entry ≡ Err e) }
{
    match next {
        Ok((next, rest)) => Ok((part, next, rest)),
        Err(halt) => Err(halt),
    }
}

/// A part, and what is left after this word or sign.
pub fn before<A: Drop>(part: A, symbol: Symbol, tokens: &[Token]) -> Result<(A, &[Token]), Halt>
    ensures part { IfOk result (λ x. x.0 ≡ part) }
    ensures ok { IfOk result (λ x. read_token (span_if (symbol_for symbol)) tokens.now ≡ done (first_span tokens.now) x.1.now) }
    ensures err { IfErr result (λ e. Halts e (read_token (span_if (symbol_for symbol)) tokens.now)) }
{
    match fixed(symbol, tokens) {
        Ok((_, rest)) => Ok((part, rest)),
        Err(halt) => Err(halt),
    }
}

/// A part, the place from the first token to the `;` after it, and what is left.
pub fn ended<'t, A: Drop>(
    part: A,
    tokens: &[Token],
    rest: &'t [Token],
) -> Result<(A, Span, &'t [Token]), Halt>
    ensures part { IfOk result (λ x. x.0 ≡ part) }
    ensures place { IfOk result (λ x. x.1 ≡ span_between tokens.now x.2.now) }
    ensures ok { IfOk result (λ x. read_token (span_if (a_sign Semicolon)) rest.now ≡ done (first_span rest.now) x.2.now) }
    ensures err { IfErr result (λ e. Halts e (read_token (span_if (a_sign Semicolon)) rest.now)) }
{
    match fixed(Symbol::Sign(Sign::Semicolon), rest) {
        Ok((_, rest)) => Ok((part, span_between(tokens, rest), rest)),
        Err(halt) => Err(halt),
    }
}
