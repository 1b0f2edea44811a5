//! The kinds of bytes in a text, and how far they go on.
ghost use Rattle.std.specs.Prelude.{◌≡◌, ◌+◌, ◌≤◌, length, IfSome};
ghost use Rattle.std.specs.List.{prefix_len, take_while};
ghost use Rattle.ob_base.specs.Names.{is_digit, is_letter_or_digit};
ghost use Rattle.ob_lexer.specs.Lexis.{is_blank};
ghost use Rattle.ob_lexer.specs.Spans.{begins_character};
ghost use Rattle.ob_lexer.specs.Lexing.{class_of, close_of, is_no_newline, goes_on};

use ob_base::{is_digit, is_letter, is_letter_or_digit};

/// What a byte begins, where it is the first.
#[derive(Clone, Copy)]
pub enum Class {
    /// A space, a tab, a carriage return or a newline.
    Blank,
    /// A reserved word or a name.
    Letter,
    /// A number.
    Digit,
    /// A string.
    Quote,
    /// A comment, or a sign.
    Slash,
    /// A sign, or nothing.
    Other,
}

pub fn is_blank(byte: u8) -> bool
    ensures { result ≡ is_blank byte }
{
    matches!(byte, b' ' | b'\t' | b'\r' | b'\n')
}

/// What this byte begins.
pub fn class_of(byte: u8) -> Class
    ensures { result ≡ class_of byte }
{
    if is_blank(byte) {
        return Class::Blank;
    }
    if is_letter(byte) {
        return Class::Letter;
    }
    if is_digit(byte) {
        return Class::Digit;
    }
    match byte {
        b'"' => Class::Quote,
        b'/' => Class::Slash,
        _ => Class::Other,
    }
}

/// Whether a character of UTF-8 begins with this byte.
pub fn begins_character(byte: u8) -> bool
    ensures { result ≡ begins_character byte }
{
    byte < 128 || byte >= 192
}

fn word_len(text: &[u8]) -> usize
    ensures count { result ≡ prefix_len is_letter_or_digit text.now }
    ensures bound { result ≤ length text.now }
{
    text.iter()
        .take_while(|byte| is_letter_or_digit(**byte))
        .count()
}

fn digits_len(text: &[u8]) -> usize
    ensures count { result ≡ prefix_len is_digit text.now }
    ensures bound { result ≤ length text.now }
{
    text.iter().take_while(|byte| is_digit(**byte)).count()
}

/// The letters and digits that the text begins with.
pub fn word_in(text: &[u8]) -> &[u8]
    ensures { result.now ≡ take_while is_letter_or_digit text.now }
{
    text.split_at(word_len(text)).0
}

/// The digits that the text begins with.
pub fn digits_in(text: &[u8]) -> &[u8]
    ensures { result.now ≡ take_while is_digit text.now }
{
    text.split_at(digits_len(text)).0
}

/// How many bytes there are before a newline or the end.
pub fn line_len(text: &[u8]) -> usize
    ensures count { result ≡ prefix_len is_no_newline text.now }
    ensures bound { result ≤ length text.now }
{
    text.iter().take_while(|byte| **byte != b'\n').count()
}

/// How many bytes go on with the character before them.
pub fn going_on(text: &[u8]) -> usize
    ensures count { result ≡ prefix_len goes_on text.now }
    ensures bound { result ≤ length text.now }
{
    text.iter()
        .take_while(|byte| !begins_character(**byte))
        .count()
}

/// Where the first `*/` stands.
pub fn close_of(text: &[u8]) -> Option<usize>
    ensures at { result ≡ close_of text.now }
    ensures within { IfSome result (λ at. at + 2 ≤ length text.now) }
{
    let mut at = 0;
    let mut rest = text;
    while let [first, after @ ..] = rest {
        if *first == b'*' && after.first() == Some(&b'/') {
            return Some(at);
        }
        at += 1;
        rest = after;
    }
    None
}
