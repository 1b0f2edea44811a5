//! The reserved words, by their spellings.
ghost use Rattle.std.specs.Prelude.{◌≡◌};
ghost use Rattle.ob_lexer.specs.Spelling.{spelling_of_word};
ghost use Rattle.ob_lexer.specs.Lexing.{word_of_two, word_of_three, word_of_four, word_of_five, word_of_six, word_of_seven, word_of_nine, candidate, word_of};

use crate::Word;

impl Word {
    /// How the word is spelled in a program.
    pub fn spelling(self) -> &'static str
        ensures { result.now ≡ spelling_of_word self }
    {
        match self {
            Word::Contract => "contract",
            Word::Asset => "asset",
            Word::Main => "main",
            Word::Interface => "interface",
            Word::Implements => "implements",
            Word::State => "state",
            Word::Transaction => "transaction",
            Word::Private => "private",
            Word::Returns => "returns",
            Word::Available => "available",
            Word::In => "in",
            Word::If => "if",
            Word::Else => "else",
            Word::While => "while",
            Word::Return => "return",
            Word::Revert => "revert",
            Word::Disown => "disown",
            Word::New => "new",
            Word::This => "this",
            Word::True => "true",
            Word::False => "false",
            Word::Int => "int",
            Word::Bool => "bool",
            Word::String => "string",
            Word::Owned => "Owned",
            Word::Unowned => "Unowned",
            Word::Shared => "Shared",
            Word::Where => "where",
            Word::Is => "is",
        }
    }
}

fn word_of_two(second: u8) -> Option<Word>
    ensures { result ≡ word_of_two second }
{
    match second {
        b'n' => Some(Word::In),
        b'f' => Some(Word::If),
        b's' => Some(Word::Is),
        _ => None,
    }
}

fn word_of_three(second: u8) -> Option<Word>
    ensures { result ≡ word_of_three second }
{
    match second {
        b'e' => Some(Word::New),
        b'n' => Some(Word::Int),
        _ => None,
    }
}

fn word_of_four(second: u8) -> Option<Word>
    ensures { result ≡ word_of_four second }
{
    match second {
        b'a' => Some(Word::Main),
        b'l' => Some(Word::Else),
        b'h' => Some(Word::This),
        b'r' => Some(Word::True),
        b'o' => Some(Word::Bool),
        _ => None,
    }
}

fn word_of_five(third: u8) -> Option<Word>
    ensures { result ≡ word_of_five third }
{
    match third {
        b's' => Some(Word::Asset),
        b'a' => Some(Word::State),
        b'i' => Some(Word::While),
        b'l' => Some(Word::False),
        b'n' => Some(Word::Owned),
        b'e' => Some(Word::Where),
        _ => None,
    }
}

fn word_of_six(third: u8) -> Option<Word>
    ensures { result ≡ word_of_six third }
{
    match third {
        b't' => Some(Word::Return),
        b'v' => Some(Word::Revert),
        b's' => Some(Word::Disown),
        b'r' => Some(Word::String),
        b'a' => Some(Word::Shared),
        _ => None,
    }
}

fn word_of_seven(third: u8) -> Option<Word>
    ensures { result ≡ word_of_seven third }
{
    match third {
        b'i' => Some(Word::Private),
        b't' => Some(Word::Returns),
        b'o' => Some(Word::Unowned),
        _ => None,
    }
}

fn word_of_nine(third: u8) -> Option<Word>
    ensures { result ≡ word_of_nine third }
{
    match third {
        b't' => Some(Word::Interface),
        b'a' => Some(Word::Available),
        _ => None,
    }
}

/// The only reserved word that these bytes may be, by how many they are and one letter of them.
fn candidate(bytes: &[u8]) -> Option<Word>
    ensures { result ≡ candidate bytes.now }
{
    match bytes.len() {
        2 => word_of_two(bytes[1]),
        3 => word_of_three(bytes[1]),
        4 => word_of_four(bytes[1]),
        5 => word_of_five(bytes[2]),
        6 => word_of_six(bytes[2]),
        7 => word_of_seven(bytes[2]),
        8 => Some(Word::Contract),
        9 => word_of_nine(bytes[2]),
        10 => Some(Word::Implements),
        11 => Some(Word::Transaction),
        _ => None,
    }
}

/// The reserved word that is spelled so.
pub fn word_of(bytes: &[u8]) -> Option<Word>
    ensures { result ≡ word_of bytes.now }
{
    let word = candidate(bytes)?;
    if word.spelling().as_bytes() == bytes {
        Some(word)
    } else {
        None
    }
}
