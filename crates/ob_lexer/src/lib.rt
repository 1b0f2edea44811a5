//! The tokens of a program's text.
#![tactic(auto)]

mod bytes;
mod lexer;
mod position;
mod signs;
mod step;
mod strings;
mod token;
mod words;

pub use lexer::{LexError, Lexed, lex, never_tokens_and_fault, one_fault, one_reading};
pub use token::{Sign, Token, TokenKind, Word};
