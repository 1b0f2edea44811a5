//! Tokens that are tried at a place, and what of them could stand there.

use ob_base::{Duplicate, Items, Memory, Span, TextError};
use ob_lexer::{LexError, Lexed, Token, TokenKind, lex};
use ob_parser::parse;
use std::alloc::Global;

/// Each word and sign, and one token each of the kinds that have many.
pub const SPELLINGS: [&str; 61] = [
    "contract",
    "asset",
    "main",
    "interface",
    "implements",
    "state",
    "transaction",
    "private",
    "returns",
    "available",
    "in",
    "if",
    "else",
    "while",
    "return",
    "revert",
    "disown",
    "new",
    "this",
    "true",
    "false",
    "int",
    "bool",
    "string",
    "Owned",
    "Unowned",
    "Shared",
    "where",
    "is",
    "{",
    "}",
    "(",
    ")",
    "[",
    "]",
    ";",
    ",",
    ".",
    "@",
    "|",
    "::",
    "->",
    ">>",
    "=",
    "==",
    "!=",
    "<",
    "<=",
    ">",
    ">=",
    "+",
    "-",
    "*",
    "/",
    "%",
    "!",
    "&&",
    "||",
    "x",
    "1",
    "\"\"",
];

/// The place of the token that is tried, and of the end after it.
const TRIED: Span = Span {
    start: 0,
    end: 0,
    line: 0,
    column: 1,
};

const END: Span = Span {
    start: 0,
    end: 0,
    line: 0,
    column: 2,
};

// Whether tokens begin a program: nothing is wrong with them but that they may want more.
fn begin_program(alloc: Global, tokens: &[Token]) -> Result<bool, Memory> {
    match parse(alloc, tokens, END) {
        Ok(_) => Ok(true),
        Err(TextError::Fault(fault)) => Ok(fault.span.column == END.column && fault.span.line == 0),
        Err(TextError::Memory) => Err(Memory),
    }
}

/// Copies of the tokens of these numbers.
pub fn tokens_at(
    alloc: Global,
    tokens: &[Token],
    numbers: &[usize],
) -> Result<Items<Token>, Memory> {
    let mut copies = Items::new(alloc);
    for number in numbers {
        if let Some(token) = tokens.get(*number) {
            copies.push(token.copy(alloc)?)?;
        }
    }
    Ok(copies)
}

// Whether a token may follow these.
fn token_may_follow(
    alloc: Global,
    front: &mut Items<Token>,
    kind: TokenKind,
) -> Result<bool, Memory> {
    front.push(Token { kind, span: TRIED })?;
    let follows = begin_program(alloc, front.as_slice());
    front.pop();
    follows
}

// Whether the first token of what was read may.
fn first_may_follow(
    alloc: Global,
    front: &mut Items<Token>,
    mut lexed: Lexed,
) -> Result<bool, Memory> {
    match lexed.tokens.pop() {
        Some(token) => token_may_follow(alloc, front, token.kind),
        None => Ok(false),
    }
}

// Tries one spelling after these tokens.
fn may_follow(alloc: Global, front: &mut Items<Token>, spelling: &str) -> Result<bool, Memory> {
    match lex(alloc, spelling.as_bytes()) {
        Ok(lexed) => first_may_follow(alloc, front, lexed),
        Err(LexError::Fault(_)) => Ok(false),
        Err(LexError::Memory) => Err(Memory),
    }
}

/// The spellings of what may follow these tokens.
pub fn words_after(alloc: Global, front: &mut Items<Token>) -> Result<Vec<&'static str>, Memory> {
    let mut words = Vec::new(alloc);
    for spelling in &SPELLINGS {
        if may_follow(alloc, front, spelling)? {
            words.push(*spelling)?;
        }
    }
    Ok(words)
}

// The token of a number, or another one in its place.
fn token_or<'a>(
    tokens: &'a [Token],
    number: usize,
    other: &'a Token,
    takes_other: bool,
) -> Option<&'a Token> {
    if takes_other {
        Some(other)
    } else {
        tokens.get(number)
    }
}

// Copies of the tokens of these numbers, with another one in the place of that of one number, and of one that follows.
fn tokens_with(
    alloc: Global,
    tokens: &[Token],
    numbers: &[usize],
    replaced: usize,
    other: &Token,
    next: usize,
) -> Result<Items<Token>, Memory> {
    let mut copies = Items::new(alloc);
    for number in numbers {
        if let Some(token) = token_or(tokens, *number, other, *number == replaced) {
            copies.push(token.copy(alloc)?)?;
        }
    }
    if let Some(token) = tokens.get(next) {
        copies.push(token.copy(alloc)?)?;
    }
    Ok(copies)
}

// Whether they do with the first token of what was read in the place of one of them.
fn token_fits(
    alloc: Global,
    tokens: &[Token],
    numbers: &[usize],
    replaced: usize,
    lexed: &Lexed,
    next: usize,
) -> Result<bool, Memory> {
    let Some(other) = lexed.tokens.get(0) else {
        return Ok(false);
    };
    let front = tokens_with(alloc, tokens, numbers, replaced, other, next)?;
    begin_program(alloc, front.as_slice())
}

/// Whether the tokens of these numbers, and then the next one, begin a program with a word in the place of one of them.
pub fn word_fits(
    alloc: Global,
    tokens: &[Token],
    numbers: &[usize],
    replaced: usize,
    word: &str,
    next: usize,
) -> Result<bool, Memory> {
    match lex(alloc, word.as_bytes()) {
        Ok(lexed) => token_fits(alloc, tokens, numbers, replaced, &lexed, next),
        Err(LexError::Fault(_)) => Ok(false),
        Err(LexError::Memory) => Err(Memory),
    }
}
