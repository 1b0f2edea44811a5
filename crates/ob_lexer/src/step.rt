//! What a text begins with.
ghost use Rattle.std.specs.Prelude.{◌≡◌, ◌<◌, ◌^◌, length, drop, slice_index, IfOk};
ghost use Rattle.ob_lexer.specs.Lexing.{number_of, word_step, number_step, slash_step, sign_step, first_step};
ghost use Rattle.ob_lexer.specs.Reading.{IsUtf8AfterQuote, IsStepAt};

use crate::bytes::{Class, class_of, close_of, digits_in, going_on, line_len, word_in};
use crate::signs::{pair_of, single_of};
use crate::strings::string_step;
use crate::words::word_of;
use crate::{Sign, TokenKind};
use ob_base::{BAD_CHARACTER, BIG_NUMBER, LONG_NAME, Memory, Name, NameError, OPEN_COMMENT};
use std::alloc::Global;

/// What a text begins with.
#[derive(Drop)]
pub enum Step {
    /// A blank or a comment.
    Gap {
        length: usize,
    },
    /// A token, and how many bytes it has.
    Token {
        kind: TokenKind,
        length: usize,
    },
    /// None of these: the fault's number, how many bytes stand before its position, and how many at it.
    Flaw {
        number: u16,
        before: usize,
        length: usize,
    },
}

/// A fault of so many bytes at the text's front.
pub fn flaw(number: u16, length: usize) -> Step
    ensures { result ≡ Step.Flaw number 0 length }
{
    Step::Flaw {
        number,
        before: 0,
        length,
    }
}

/// The number that digits represent, if it is below 2^63.
fn number_of(digits: &[u8]) -> Option<i64>
    ensures { result ≡ number_of digits.now }
{
    let mut value: u64 = 0;
    for digit in digits {
        // What passes 64 bits on the way is above 2^63 at the end.
        let units = u64::from(digit.saturating_sub(b'0'));
        value = value.checked_mul(10)?.checked_add(units)?;
    }
    i64::try_from(value).ok()
}

fn number_step(digits: &[u8]) -> Step
    ensures { result ≡ number_step digits.now }
{
    let length = digits.len();
    match number_of(digits) {
        Some(number) => Step::Token {
            kind: TokenKind::Number(number),
            length,
        },
        None => flaw(BIG_NUMBER, 1),
    }
}

fn word_step(alloc: Global, bytes: &[u8]) -> Result<Step, Memory>
    ensures { IfOk result (λ step. step ≡ word_step bytes.now) }
{
    let length = bytes.len();
    if let Some(word) = word_of(bytes) {
        let kind = TokenKind::Word(word);
        return Ok(Step::Token { kind, length });
    }
    match Name::of(alloc, bytes) {
        Ok(name) => Ok(Step::Token {
            kind: TokenKind::Name(name),
            length,
        }),
        Err(NameError::Bad) => Ok(flaw(LONG_NAME, 1)),
        Err(NameError::Memory) => Err(Memory),
    }
}

fn sign(sign: Sign, length: usize) -> Step
    ensures { result ≡ Step.Token (TokenKind.Sign sign) length }
{
    Step::Token {
        kind: TokenKind::Sign(sign),
        length,
    }
}

/// After a `/`: a comment, or the sign.
fn slash_step(rest: &[u8]) -> Step
    requires { length rest.now < 2 ^ 62 }
    ensures { result ≡ slash_step rest.now }
{
    match rest {
        [b'/', line @ ..] => Step::Gap {
            length: line_len(line) + 2,
        },
        [b'*', inside @ ..] => match close_of(inside) {
            Some(at) => Step::Gap { length: at + 4 },
            None => flaw(OPEN_COMMENT, 2),
        },
        _ => sign(Sign::Slash, 1),
    }
}

fn sign_step(first: u8, rest: &[u8]) -> Step
    requires { length rest.now < 2 ^ 62 }
    ensures { result ≡ sign_step first rest.now }
{
    if let [second, ..] = rest {
        if let Some(pair) = pair_of(first, *second) {
            return sign(pair, 2);
        }
    }
    match single_of(first) {
        Some(single) => sign(single, 1),
        None => flaw(BAD_CHARACTER, going_on(rest) + 1),
    }
}

fn step_of(alloc: Global, text: &[u8]) -> Result<Step, Memory>
    requires some { 0 < length text.now }
    requires room { length text.now < 2 ^ 62 }
    ensures { IfOk result (λ step. step ≡ first_step (slice_index text.now 0) (drop 1 text.now)) }
{
    let [first, rest @ ..] = text else {
        unreachable!()
    };
    match class_of(*first) {
        Class::Blank => Ok(Step::Gap { length: 1 }),
        Class::Letter => word_step(alloc, word_in(text)),
        Class::Digit => Ok(number_step(digits_in(text))),
        Class::Quote => string_step(alloc, rest),
        Class::Slash => Ok(slash_step(rest)),
        Class::Other => Ok(sign_step(*first, rest)),
    }
}

/// What the text begins with.
pub fn first_step(alloc: Global, text: &[u8]) -> Result<Step, Memory>
    requires some { 0 < length text.now }
    requires room { length text.now < 2 ^ 62 }
    requires utf8 { IsUtf8AfterQuote text.now }
    ensures { IfOk result (IsStepAt text.now) }
{
    step_of(alloc, text)
}
