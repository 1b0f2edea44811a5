//! The tokens of a text.
ghost use Rattle.std.specs.Prelude.{◌≡◌, ℕ, ◌+◌, ◌<◌, ◌≤◌, ◌^◌, List, length, take, drop, fold, IfOk, IfErr, MatchOption};
ghost use Rattle.std.specs.Str.{IsUtf8, IsValidUpTo};
ghost use Rattle.ob_base.specs.Limits.{longest_program};
ghost use Rattle.ob_base.specs.declared.fault.ProgramFault.{ProgramFault};
ghost use Rattle.ob_base.specs.TextErrors.{OnFault};
ghost use Rattle.ob_lexer.specs.declared.lexer.Lexed.{Lexed};
ghost use Rattle.ob_lexer.specs.Spelling.{IsSpelling};
ghost use Rattle.ob_lexer.specs.Lexis.{HasTokens};
ghost use Rattle.ob_lexer.specs.Flaws.{HasFault};
ghost use Rattle.ob_lexer.specs.Lexing.{larger, past};
ghost use Rattle.ob_lexer.specs.Reading.{IsUtf8AfterQuote, fault_after, TakesUp, BeginsWith};

use crate::bytes::is_blank;
use crate::position::Position;
use crate::step::{Step, first_step};
use crate::{Token, TokenKind};
use ob_base::{
    Duplicate, Items, LONG_PROGRAM, LONGEST_PROGRAM, Memory, NOT_UTF8, ProgramFault, Span,
    TextError, copy_items,
};
use std::alloc::Global;

/// What a text is made of, but for blanks and comments.
#[derive(Drop)]
pub struct Lexed {
    /// The tokens, in the order of the text.
    pub tokens: Items<Token>,
    /// The position just after the last character, which has no bytes.
    pub end: Span,
}

impl Duplicate for Lexed {
    fn copy(&self, alloc: Global) -> Result<Lexed, Memory> {
        Ok(Lexed {
            tokens: copy_items(alloc, &self.tokens)?,
            end: self.end,
        })
    }
}

/// Why a text has no tokens.
pub type LexError = TextError;

/// The largest of these bytes, or 0. A processor finds it for many bytes at a time.
fn largest(bytes: &[u8]) -> u8
    ensures { result ≡ fold larger 0 bytes.now }
{
    let mut most = 0;
    for byte in bytes {
        if most < *byte {
            most = *byte;
        }
    }
    most
}

/// How many bytes stand before the first one that begins no character, if the text is no UTF-8.
fn valid_len(text: &[u8]) -> Option<usize>
    ensures { MatchOption result (IsUtf8 text.now) (λ valid. IsValidUpTo text.now valid) }
{
    // Most texts are ASCII alone, which is UTF-8.
    if largest(text) < 128 {
        return None;
    }
    match str::from_utf8(text) {
        Ok(_) => None,
        Err(error) => Some(error.valid_up_to()),
    }
}

/// The fault of so many bytes, after others at a position.
fn fault_after(number: u16, position: Position, before: &[u8], count: usize) -> ProgramFault
    requires room { position.offset + length before.now + count < 2 ^ 31 }
    requires line { position.line ≤ position.offset + 1 }
    requires column { position.column ≤ position.offset + 1 }
    ensures { result ≡ fault_after number position before.now count }
{
    let span = position.after(before).span(count);
    ProgramFault { number, span }
}

/// What was taken up of a text.
#[derive(Clone, Copy)]
pub struct Taken {
    /// How many bytes it has.
    pub count: usize,
    /// The position after it.
    pub position: Position,
}

/// The position after a token at a position. Only a string has characters of more than one byte.
fn after_token(position: Position, kind: &TokenKind, bytes: &[u8]) -> Position
    requires spelled { IsSpelling kind.now bytes.now }
    requires room { position.offset + length bytes.now < 2 ^ 31 }
    requires line { position.line ≤ position.offset + 1 }
    requires column { position.column ≤ position.offset + 1 }
    ensures { result ≡ fold past position bytes.now }
{
    if let TokenKind::Text(_) = kind {
        return position.after(bytes);
    }
    position.along(bytes.len())
}

/// Takes up the piece of the text at this position: adds its token, if it is one.
fn take_up(
    alloc: Global,
    position: Position,
    text: &[u8],
    tokens: &mut Items<Token>,
) -> Result<Taken, LexError>
    requires some { 0 < length text.now }
    requires utf8 { IsUtf8AfterQuote text.now }
    requires room { position.offset + length text.now < 2 ^ 31 }
    requires line { position.line ≤ position.offset + 1 }
    requires column { position.column ≤ position.offset + 1 }
    ensures ok { IfOk result (λ taken. TakesUp position text.now tokens.old tokens.new taken.count) }
    ensures moved { IfOk result (λ taken. taken.position ≡ fold past position (take taken.count text.now)) }
    ensures err { IfErr result (λ e. OnFault e (BeginsWith position text.now)) }
{
    match first_step(alloc, text)? {
        Step::Gap { length } => {
            let position = position.after(&text[..length]);
            Ok(Taken {
                count: length,
                position,
            })
        }
        Step::Token { kind, length } => {
            let after = after_token(position, &kind, &text[..length]);
            let span = position.span(length);
            tokens.push(Token { kind, span })?;
            Ok(Taken {
                count: length,
                position: after,
            })
        }
        Step::Flaw {
            number,
            before,
            length,
        } => Err(LexError::Fault(fault_after(number, position, &text[..before], length))),
    }
}

/// Takes up the piece of the text at this position, most often a blank.
fn take_next(
    alloc: Global,
    position: Position,
    text: &[u8],
    tokens: &mut Items<Token>,
) -> Result<Taken, LexError>
    requires some { 0 < length text.now }
    requires utf8 { IsUtf8AfterQuote text.now }
    requires room { position.offset + length text.now < 2 ^ 31 }
    requires line { position.line ≤ position.offset + 1 }
    requires column { position.column ≤ position.offset + 1 }
    ensures ok { IfOk result (λ taken. TakesUp position text.now tokens.old tokens.new taken.count) }
    ensures moved { IfOk result (λ taken. taken.position ≡ fold past position (take taken.count text.now)) }
    ensures err { IfErr result (λ e. OnFault e (BeginsWith position text.now)) }
{
    let [first, ..] = text else { unreachable!() };
    if is_blank(*first) {
        let position = position.past(*first);
        return Ok(Taken { count: 1, position });
    }
    take_up(alloc, position, text, tokens)
}

/// The tokens of a text of UTF-8.
fn tokens_in(alloc: Global, text: &[u8]) -> Result<Lexed, LexError>
    requires short { length text.now ≤ longest_program }
    requires utf8 { IsUtf8 text.now }
    ensures tokens { IfOk result (λ lexed. HasTokens text.now lexed) }
    ensures fault { IfErr result (λ e. OnFault e (HasFault text.now)) }
{
    let mut tokens = Items::new(alloc);
    let mut rest = text;
    let mut position = Position::START;
    'pieces: while !rest.is_empty() {
        let taken = take_next(alloc, position, rest, &mut tokens)?;
        position = taken.position;
        rest = rest.split_at(taken.count).1;
    }
    let end = position.span(0);
    Ok(Lexed { tokens, end })
}

/// The tokens of a program's text, or the first fault in it.
pub fn lex(alloc: Global, text: &[u8]) -> Result<Lexed, LexError>
    ensures tokens { IfOk result (λ lexed. HasTokens text.now lexed) }
    ensures fault { IfErr result (λ e. OnFault e (HasFault text.now)) }
{
    if text.len() > LONGEST_PROGRAM {
        return Err(LexError::Fault(fault_after(LONG_PROGRAM, Position::START, &[], 0)));
    }
    if let Some(valid) = valid_len(text) {
        let fault = fault_after(NOT_UTF8, Position::START, &text[..valid], 1);
        return Err(LexError::Fault(fault));
    }
    tokens_in(alloc, text)
}

/// A text spells one list of tokens at most.
pub fn one_reading()
    ensures { (text : List ℕ) (a b : Lexed) → HasTokens text a → HasTokens text b → a ≡ b }
{}

/// A text has one fault at most.
pub fn one_fault()
    ensures { (text : List ℕ) (a b : ProgramFault) → HasFault text a → HasFault text b → a ≡ b }
{}

/// A text that spells tokens has no fault.
pub fn never_tokens_and_fault()
    ensures { (text : List ℕ) (lexed : Lexed) (fault : ProgramFault) → HasTokens text lexed → ¬ (HasFault text fault) }
{}
