//! The signs, by their spellings.
ghost use Rattle.std.specs.Prelude.{◌≡◌};
ghost use Rattle.ob_lexer.specs.Spelling.{spelling_of_sign};
ghost use Rattle.ob_lexer.specs.Lexing.{pair_of, single_of};

use crate::Sign;

impl Sign {
    /// How the sign is spelled in a program.
    pub fn spelling(self) -> &'static str
        ensures { result.now ≡ spelling_of_sign self }
    {
        match self {
            Sign::OpenBrace => "{",
            Sign::CloseBrace => "}",
            Sign::OpenParen => "(",
            Sign::CloseParen => ")",
            Sign::OpenBracket => "[",
            Sign::CloseBracket => "]",
            Sign::Semicolon => ";",
            Sign::Comma => ",",
            Sign::Dot => ".",
            Sign::At => "@",
            Sign::Bar => "|",
            Sign::DoubleColon => "::",
            Sign::Arrow => "->",
            Sign::DoubleGreater => ">>",
            Sign::Equals => "=",
            Sign::DoubleEquals => "==",
            Sign::NotEquals => "!=",
            Sign::Less => "<",
            Sign::LessEquals => "<=",
            Sign::Greater => ">",
            Sign::GreaterEquals => ">=",
            Sign::Plus => "+",
            Sign::Minus => "-",
            Sign::Star => "*",
            Sign::Slash => "/",
            Sign::Percent => "%",
            Sign::Not => "!",
            Sign::DoubleAmpersand => "&&",
            Sign::DoubleBar => "||",
        }
    }
}

/// The sign of these two bytes.
pub fn pair_of(first: u8, second: u8) -> Option<Sign>
    ensures { result ≡ pair_of first second }
{
    match (first, second) {
        (b':', b':') => Some(Sign::DoubleColon),
        (b'-', b'>') => Some(Sign::Arrow),
        (b'>', b'>') => Some(Sign::DoubleGreater),
        (b'=', b'=') => Some(Sign::DoubleEquals),
        (b'!', b'=') => Some(Sign::NotEquals),
        (b'<', b'=') => Some(Sign::LessEquals),
        (b'>', b'=') => Some(Sign::GreaterEquals),
        (b'&', b'&') => Some(Sign::DoubleAmpersand),
        (b'|', b'|') => Some(Sign::DoubleBar),
        _ => None,
    }
}

/// The sign of this one byte.
pub fn single_of(byte: u8) -> Option<Sign>
    ensures { result ≡ single_of byte }
{
    match byte {
        b'{' => Some(Sign::OpenBrace),
        b'}' => Some(Sign::CloseBrace),
        b'(' => Some(Sign::OpenParen),
        b')' => Some(Sign::CloseParen),
        b'[' => Some(Sign::OpenBracket),
        b']' => Some(Sign::CloseBracket),
        b';' => Some(Sign::Semicolon),
        b',' => Some(Sign::Comma),
        b'.' => Some(Sign::Dot),
        b'@' => Some(Sign::At),
        b'|' => Some(Sign::Bar),
        b'=' => Some(Sign::Equals),
        b'<' => Some(Sign::Less),
        b'>' => Some(Sign::Greater),
        b'+' => Some(Sign::Plus),
        b'-' => Some(Sign::Minus),
        b'*' => Some(Sign::Star),
        b'/' => Some(Sign::Slash),
        b'%' => Some(Sign::Percent),
        b'!' => Some(Sign::Not),
        _ => None,
    }
}
