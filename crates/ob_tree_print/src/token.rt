//! Single tokens, each with what stands after it.
ghost use Rattle.std.specs.Prelude.{◌≡◌, ◌++◌, [], ◌∷◌, OnOk, string_bytes};
ghost use Rattle.std.specs.List.{flat_map};
ghost use Rattle.std.specs.Char.{encode_utf8};
ghost use Rattle.ob_tree_print.specs.Layout.{escape_of, quoted, gap_of_sign};
ghost use Rattle.ob_tree_print.specs.NameTokens.{word_if, sign_if, sign_unless, token_of_name, token_of_subject};
ghost use Rattle.ob_tree_print.specs.Written.{with_token, written};

use ob_base::{Memory, Text};
use ob_lexer::{Sign, TokenKind, Word};
use ob_tree::{NamePart, Subject};

fn gap_text(sign: Sign) -> &'static str
    ensures { result.now ≡ gap_of_sign sign ∷ [] }
{
    match sign {
        Sign::Semicolon | Sign::OpenBrace | Sign::CloseBrace => "\n",
        _ => " ",
    }
}

/// The text as a `str`.
fn text_of(text: &Text) -> &str
    ensures { result.now ≡ text.now }
{
    match str::from_utf8(text.as_bytes()) {
        Ok(text) => text,
        Err(_) => unreachable!(),
    }
}

/// A word, and a blank.
#[tactic(auto, unfolding(crate::specs::Written::with_token))]
pub fn put_word(out: &mut String, word: Word) -> Result<(), Memory>
    ensures { OnOk result (string_bytes out.new ≡ with_token (string_bytes out.old) (TokenKind.Word word)) }
{
    out.push_str(word.spelling())?;
    out.push_str(" ")?;
    Ok(())
}

/// A sign, and a blank; after `;`, `{` and `}` the end of the line.
#[tactic(auto, unfolding(crate::specs::Written::with_token))]
pub fn put_sign(out: &mut String, sign: Sign) -> Result<(), Memory>
    ensures { OnOk result (string_bytes out.new ≡ with_token (string_bytes out.old) (TokenKind.Sign sign)) }
{
    out.push_str(sign.spelling())?;
    out.push_str(gap_text(sign))?;
    Ok(())
}

/// A name, and a blank.
#[tactic(auto, unfolding(crate::specs::Written::with_token))]
pub fn put_name(out: &mut String, name: &Text) -> Result<(), Memory>
    ensures { OnOk result (string_bytes out.new ≡ with_token (string_bytes out.old) (TokenKind.Name name.now)) }
{
    out.push_str(text_of(name))?;
    out.push_str(" ")?;
    Ok(())
}

/// A number in decimal digits, and a blank.
#[tactic(auto, unfolding(crate::specs::Written::with_token))]
pub fn put_number(out: &mut String, number: i64) -> Result<(), Memory>
    ensures { OnOk result (string_bytes out.new ≡ with_token (string_bytes out.old) (TokenKind.Number number)) }
{
    write!(out, "{number} ")?;
    Ok(())
}

fn put_char(out: &mut String, ch: char) -> Result<(), Memory>
    ensures { OnOk result (string_bytes out.new ≡ string_bytes out.old ++ flat_map escape_of (encode_utf8 ch)) }
{
    match ch {
        '"' => out.push_str("\\\"")?,
        '\\' => out.push_str("\\\\")?,
        '\n' => out.push_str("\\n")?,
        '\t' => out.push_str("\\t")?,
        _ => out.push(ch)?,
    }
    Ok(())
}

fn put_chars(out: &mut String, text: &str) -> Result<(), Memory>
    ensures { OnOk result (string_bytes out.new ≡ string_bytes out.old ++ flat_map escape_of text.now) }
{
    for ch in text.chars() {
        put_char(out, ch)?;
    }
    Ok(())
}

/// A string in its quotes, with escapes where they are needed, and a blank.
#[tactic(auto, unfolding(crate::specs::Written::with_token))]
pub fn put_text(out: &mut String, text: &Text) -> Result<(), Memory>
    ensures { OnOk result (string_bytes out.new ≡ with_token (string_bytes out.old) (TokenKind.Text text.now)) }
{
    out.push_str("\"")?;
    put_chars(out, text_of(text))?;
    out.push_str("\" ")?;
    Ok(())
}

/// The word, if `holds`; else nothing.
#[tactic(auto, using(crate::specs::Written::writes))]
pub fn put_word_if(out: &mut String, holds: bool, word: Word) -> Result<(), Memory>
    ensures { OnOk result (string_bytes out.new ≡ written (string_bytes out.old) (word_if holds word)) }
{
    if holds { put_word(out, word) } else { Ok(()) }
}

/// The sign, if `holds`; else nothing.
#[tactic(auto, using(crate::specs::Written::writes))]
pub fn put_sign_if(out: &mut String, holds: bool, sign: Sign) -> Result<(), Memory>
    ensures { OnOk result (string_bytes out.new ≡ written (string_bytes out.old) (sign_if holds sign)) }
{
    if holds { put_sign(out, sign) } else { Ok(()) }
}

/// The sign, unless `first`: it stands before each part of a row but the first.
#[tactic(auto, using(crate::specs::Written::writes))]
pub fn put_sign_unless(out: &mut String, first: bool, sign: Sign) -> Result<(), Memory>
    ensures { OnOk result (string_bytes out.new ≡ written (string_bytes out.old) (sign_unless first sign)) }
{
    if first { Ok(()) } else { put_sign(out, sign) }
}

/// A name, without its place.
pub fn put_part(out: &mut String, part: &NamePart) -> Result<(), Memory>
    ensures { OnOk result (string_bytes out.new ≡ with_token (string_bytes out.old) (token_of_name part.now)) }
{
    put_name(out, &part.name)
}

/// The word `this`, or a name.
pub fn put_subject(out: &mut String, subject: &Subject) -> Result<(), Memory>
    ensures { OnOk result (string_bytes out.new ≡ with_token (string_bytes out.old) (token_of_subject subject.now)) }
{
    match subject {
        Subject::This(_) => put_word(out, Word::This),
        Subject::Name(part) => put_part(out, part),
    }
}
