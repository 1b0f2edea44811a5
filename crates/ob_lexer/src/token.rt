//! What a token is.
ghost use Rattle.std.specs.Prelude.{◌≡◌, IfOk};

use ob_base::{Duplicate, Memory, Name, Span, Text};
use std::alloc::Global;

/// A token of a program, with the position where it stands.
#[derive(Drop)]
pub struct Token {
    /// Which token it is, with the name, number or text that it represents, if any.
    pub kind: TokenKind,
    /// Where it stands in the text.
    pub span: Span,
}

/// The kinds of tokens (the Obsidian language documentation, "Lexical structure").
#[derive(Drop)]
pub enum TokenKind {
    /// A name that isn't a reserved word.
    Name(Name),
    /// A whole number from 0 to 2^63 - 1.
    Number(i64),
    /// A string, with its escapes read.
    Text(Text),
    /// A reserved word.
    Word(Word),
    /// A sign.
    Sign(Sign),
}

impl Duplicate for TokenKind {
    fn copy(&self, alloc: Global) -> Result<TokenKind, Memory> {
        match self {
            TokenKind::Name(name) => Ok(TokenKind::Name(name.copy(alloc)?)),
            TokenKind::Number(number) => Ok(TokenKind::Number(*number)),
            TokenKind::Text(text) => Ok(TokenKind::Text(text.copy(alloc)?)),
            TokenKind::Word(word) => Ok(TokenKind::Word(*word)),
            TokenKind::Sign(sign) => Ok(TokenKind::Sign(*sign)),
        }
    }
}

impl Duplicate for Token {
    fn copy(&self, alloc: Global) -> Result<Token, Memory> {
        Ok(Token {
            kind: self.kind.copy(alloc)?,
            span: self.span,
        })
    }
}

/// The reserved words, which are no names.
#[derive(Clone, Copy, PartialEq, Eq, Debug)]
pub enum Word {
    Contract,
    Asset,
    Main,
    Interface,
    Implements,
    State,
    Transaction,
    Private,
    Returns,
    Available,
    In,
    If,
    Else,
    While,
    Return,
    Revert,
    Disown,
    New,
    This,
    True,
    False,
    Int,
    Bool,
    String,
    Owned,
    Unowned,
    Shared,
    Where,
    Is,
}

/// The signs.
#[derive(Clone, Copy, PartialEq, Eq, Debug)]
pub enum Sign {
    /// `{`
    OpenBrace,
    /// `}`
    CloseBrace,
    /// `(`
    OpenParen,
    /// `)`
    CloseParen,
    /// `[`
    OpenBracket,
    /// `]`
    CloseBracket,
    /// `;`
    Semicolon,
    /// `,`
    Comma,
    /// `.`
    Dot,
    /// `@`
    At,
    /// `|`
    Bar,
    /// `::`
    DoubleColon,
    /// `->`
    Arrow,
    /// `>>`
    DoubleGreater,
    /// `=`
    Equals,
    /// `==`
    DoubleEquals,
    /// `!=`
    NotEquals,
    /// `<`
    Less,
    /// `<=`
    LessEquals,
    /// `>`
    Greater,
    /// `>=`
    GreaterEquals,
    /// `+`
    Plus,
    /// `-`
    Minus,
    /// `*`
    Star,
    /// `/`
    Slash,
    /// `%`
    Percent,
    /// `!`
    Not,
    /// `&&`
    DoubleAmpersand,
    /// `||`
    DoubleBar,
}
