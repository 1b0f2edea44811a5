//! Signs of a text that an editor may show otherwise than the compiler reads them, so that a comment looks like code, or code like a comment.

use ob_base::{Memory, Span};
use ob_explain_page::Words;
use std::alloc::Global;

/// What is said of a carriage return.
const RETURN: &str =
    "a carriage return ({}) without a newline: an editor may begin a new line here, and the compiler doesn't";

/// What is said of another sign that may begin a new line.
const BREAK: &str =
    "a sign that ends no line ({}): an editor may begin a new line here, and the compiler doesn't";

/// What is said of a sign that turns the direction of what is read.
const DIRECTION: &str =
    "a bidirectional sign ({}): an editor may show the line in another order than the compiler reads it";

/// What is said of any other sign that steers a terminal.
const CONTROL: &str =
    "a control character ({}): an editor may show nothing here, or something else";

/// A sign that an editor may show otherwise.
#[derive(Clone, Copy)]
pub struct Hidden {
    /// Where it stands.
    pub span: Span,
    sign: char,
    said: &'static str,
}

impl Hidden {
    /// What is said of it.
    pub fn words(&self, alloc: Global) -> Result<String, Memory> {
        let number = u32::from(self.sign);
        let code = format!(in alloc; "U+{number:04X}")?;
        let mut words = Words::new(alloc);
        words.put_with(self.said, &[code.as_str()]);
        words.finish()
    }
}

// What is said of a sign before this byte; None where an editor shows it as the compiler reads it.
fn said_of(sign: char, next: Option<&u8>) -> Option<&'static str> {
    match sign {
        '\t' | '\n' => None,
        '\r' if next == Some(&b'\n') => None,
        '\r' => Some(RETURN),
        '\u{b}' | '\u{c}' | '\u{85}' | '\u{2028}' | '\u{2029}' => Some(BREAK),
        '\u{61c}' | '\u{200e}' | '\u{200f}' => Some(DIRECTION),
        '\u{202a}'..='\u{202e}' | '\u{2066}'..='\u{2069}' => Some(DIRECTION),
        '\u{0}'..='\u{1f}' | '\u{7f}'..='\u{9f}' => Some(CONTROL),
        _ => None,
    }
}

// The span of a sign at an offset, where a line and a column are those of its place.
fn span_of(sign: char, at: usize, line: u32, column: u32) -> Span {
    let start = u32::try_from(at).unwrap_or(u32::MAX);
    Span {
        start,
        end: start.saturating_add(sign.len_utf8() as u32),
        line,
        column,
    }
}

// The first of a text of characters.
fn first_of(text: &str) -> Option<Hidden> {
    let mut line: u32 = 1;
    let mut column: u32 = 1;
    for (at, sign) in text.char_indices() {
        let next = text.as_bytes().get(at.saturating_add(1));
        if let Some(said) = said_of(sign, next) {
            let span = span_of(sign, at, line, column);
            return Some(Hidden { span, sign, said });
        }
        if sign == '\n' {
            line = line.saturating_add(1);
            column = 1;
        } else {
            column = column.saturating_add(1);
        }
    }
    None
}

/// The first sign of a text that an editor may show otherwise than the compiler reads it; None where there is none, or it isn't UTF-8.
pub fn first_hidden(text: &[u8]) -> Option<Hidden> {
    match str::from_utf8(text) {
        Ok(text) => first_of(text),
        Err(_) => None,
    }
}
