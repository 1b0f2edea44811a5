//! Places in a text.
ghost use Rattle.std.specs.Prelude.{◌≡◌, ◌+◌, ◌<◌, ◌≤◌, ◌^◌, length, fold};
ghost use Rattle.ob_lexer.specs.Lexing.{past, along};

use crate::bytes::begins_character;
use ob_base::Span;

/// A position between two characters of a text.
#[derive(Clone, Copy)]
pub struct Position {
    /// The number of bytes before it.
    pub offset: u32,
    /// Its line, from 1.
    pub line: u32,
    /// Its position on that line, in characters, from 1.
    pub column: u32,
}

impl Position {
    /// The start of a text.
    pub const START: Position = Position {
        offset: 0,
        line: 1,
        column: 1,
    };

    /// The position after one byte more.
    pub fn past(self, byte: u8) -> Position
        requires offset { self.offset + 1 < 2 ^ 31 }
        requires line { self.line ≤ self.offset + 1 }
        requires column { self.column ≤ self.offset + 1 }
        ensures position { result ≡ past self byte }
        ensures offset { result.offset ≡ self.offset + 1 }
        ensures line { result.line ≤ self.offset + 2 }
        ensures column { result.column ≤ self.offset + 2 }
    {
        let offset = self.offset + 1;
        let Position { line, column, .. } = self;
        if byte == b'\n' {
            return Position {
                offset,
                line: line + 1,
                column: 1,
            };
        }
        if begins_character(byte) {
            return Position {
                offset,
                line,
                column: column + 1,
            };
        }
        Position {
            offset,
            line,
            column,
        }
    }

    /// The position after these bytes.
    pub fn after(self, bytes: &[u8]) -> Position
        requires offset { self.offset + length bytes.now < 2 ^ 31 }
        requires line { self.line ≤ self.offset + 1 }
        requires column { self.column ≤ self.offset + 1 }
        ensures position { result ≡ fold past self bytes.now }
        ensures offset { result.offset ≡ self.offset + length bytes.now }
        ensures line { result.line ≤ result.offset + 1 }
        ensures column { result.column ≤ result.offset + 1 }
    {
        let mut position = self;
        for byte in bytes {
            position = position.past(*byte);
        }
        position
    }

    /// The position after so many characters of one byte each on the same line.
    pub fn along(self, count: usize) -> Position
        requires offset { self.offset + count < 2 ^ 31 }
        requires column { self.column ≤ self.offset + 1 }
        ensures { result ≡ along self count }
    {
        Position {
            offset: self.offset + count as u32,
            line: self.line,
            column: self.column + count as u32,
        }
    }

    /// So many bytes at this position.
    pub fn span(self, count: usize) -> Span
        requires { self.offset + count < 2 ^ 31 }
        ensures { result ≡ record {
          start = self.offset;
          end = self.offset + count;
          line = self.line;
          column = self.column;
        } }
    {
        Span {
            start: self.offset,
            end: self.offset + count as u32,
            line: self.line,
            column: self.column,
        }
    }
}
