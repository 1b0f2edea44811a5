//! Strings.
ghost use Rattle.std.specs.Prelude.{◌≡◌, ◌<◌, ◌^◌, length, [], false, IfOk};
ghost use Rattle.ob_lexer.specs.Spelling.{escaped};
ghost use Rattle.ob_lexer.specs.Lexing.{heard_of, text_step, string_from};

use crate::TokenKind;
use crate::step::{Step, flaw};
use ob_base::{BAD_ESCAPE, LONG_STRING, LONGEST_STRING, Memory, NameError, OPEN_STRING, Text};
use std::alloc::Global;

/// What a byte of a string is.
#[derive(Clone, Copy)]
pub enum Heard {
    /// It represents this byte.
    Value(u8),
    /// The next byte is the letter of an escape.
    Backslash,
    /// The string ends.
    Quote,
    /// The line ends.
    Newline,
    /// It stands after a backslash, and is no letter of an escape.
    NoEscape,
}

/// What a backslash and this letter represent.
fn escaped(letter: u8) -> Option<u8>
    ensures { result ≡ escaped letter }
{
    match letter {
        b'"' => Some(b'"'),
        b'\\' => Some(b'\\'),
        b'n' => Some(b'\n'),
        b't' => Some(b'\t'),
        _ => None,
    }
}

fn heard_of(backslash: bool, byte: u8) -> Heard
    ensures { result ≡ heard_of backslash byte }
{
    if backslash {
        return match escaped(byte) {
            Some(value) => Heard::Value(value),
            None => Heard::NoEscape,
        };
    }
    match byte {
        b'"' => Heard::Quote,
        b'\n' => Heard::Newline,
        b'\\' => Heard::Backslash,
        _ => Heard::Value(byte),
    }
}

fn text_step(alloc: Global, content: &[u8], length: usize) -> Result<Step, Memory>
    ensures { IfOk result (λ step. step ≡ text_step content.now length) }
{
    match Text::of(alloc, content) {
        Ok(text) => Ok(Step::Token {
            kind: TokenKind::Text(text),
            length,
        }),
        Err(NameError::Bad) => Ok(flaw(LONG_STRING, 1)),
        Err(NameError::Memory) => Err(Memory),
    }
}

/// The string after an opening quote.
pub fn string_step(alloc: Global, text: &[u8]) -> Result<Step, Memory>
    requires { length text.now < 2 ^ 62 }
    ensures { IfOk result (λ step. step ≡ string_from false [] 0 text.now) }
{
    let mut content = Vec::new(alloc);
    let mut backslash = false;
    for (taken, byte) in text.iter().enumerate() {
        match heard_of(backslash, *byte) {
            Heard::Value(value) => {
                if content.len() >= LONGEST_STRING {
                    return Ok(flaw(LONG_STRING, 1));
                }
                content.push(value)?;
                backslash = false;
            }
            Heard::Backslash => backslash = true,
            Heard::Quote => return text_step(alloc, &content, taken + 2),
            Heard::Newline => return Ok(flaw(OPEN_STRING, 1)),
            Heard::NoEscape => {
                return Ok(Step::Flaw {
                    number: BAD_ESCAPE,
                    before: taken,
                    length: 1,
                });
            }
        }
    }
    Ok(flaw(OPEN_STRING, 1))
}
