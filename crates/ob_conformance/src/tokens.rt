//! The tokens of a text in words.
use crate::page::Page;
use ob_base::Span;
use ob_lexer::{Lexed, TokenKind};

fn put_span(span: Span, page: &mut Page) {
    page.place(span);
    page.number(u64::from(span.start));
    page.number(u64::from(span.end));
}

fn put_kind(kind: &TokenKind, page: &mut Page) {
    match kind {
        TokenKind::Name(name) => {
            page.word("Name");
            page.bytes(name.as_bytes());
        }
        TokenKind::Number(number) => {
            page.word("Number");
            page.show(number);
        }
        TokenKind::Text(text) => {
            page.word("Text");
            page.bytes(text.as_bytes());
        }
        TokenKind::Word(word) => {
            page.word("Word");
            page.name(word);
        }
        TokenKind::Sign(sign) => {
            page.word("Sign");
            page.name(sign);
        }
    }
}

/// Puts the place of each token, the stretch of the text that it is, and its kind; and then those of the end.
pub fn put_tokens(lexed: &Lexed, page: &mut Page) {
    for token in lexed.tokens.as_slice() {
        put_span(token.span, page);
        put_kind(&token.kind, page);
    }
    put_span(lexed.end, page);
}
