//! Names in which a word of the language was meant.

use crate::expected::Expected;
use crate::spots::Spot;
use crate::trying::{SPELLINGS, word_fits};
use ob_base::{Memory, Span};
use ob_explain_page::{Explanation, Nearest, shown_at};
use ob_lexer::{Token, TokenKind};
use std::alloc::Global;

// Whether two words are the same but for the case of their letters.
fn is_same(a: &[u8], b: &[u8]) -> bool {
    a.len() == b.len()
        && a.iter()
            .zip(b.iter())
            .all(|pair| pair.0.eq_ignore_ascii_case(pair.1))
}

// Whether two words begin with the same letter.
fn begin_alike(a: &[u8], b: &[u8]) -> bool {
    match (a.first(), b.first()) {
        (Some(a), Some(b)) => *a == *b,
        _ => false,
    }
}

// Whether a word may be what a name is to be.
fn may_be_meant(name: &[u8], word: &[u8]) -> bool {
    word.len() > 2 && (begin_alike(name, word) || is_same(name, word))
}

// The word of some that is nearest to a name: it differs from it by a third of its letters at most.
fn near_word<'a>(words: &[&'static str], name: &'a str) -> Option<&'a str> {
    let mut nearest = Nearest::within(name.as_bytes(), name.len() / 3);
    for word in words {
        let spelled = *word;
        if may_be_meant(name.as_bytes(), spelled.as_bytes()) {
            nearest.see(spelled.as_bytes());
        }
    }
    nearest.found()
}

// Asks whether a word was meant.
fn ask(told: &mut Explanation, word: &str) {
    told.help.put_with("did you mean `{}`?", &[word]);
}

fn is_name(token: &Token) -> bool {
    matches!(token.kind, TokenKind::Name(_))
}

// Whether the token at the place is a name.
fn finds_name(spot: &Spot<'_>) -> bool {
    match spot.tokens.get(spot.before) {
        Some(token) => is_name(token),
        None => false,
    }
}

// Asks whether a word was meant that could stand at the place, and tells whether one is near.
fn tell_slip_there(told: &mut Explanation, spot: &Spot<'_>, expected: &Expected) -> bool {
    if !finds_name(spot) {
        return false;
    }
    match near_word(&expected.words, spot.found) {
        Some(word) => {
            ask(told, word);
            true
        }
        None => false,
    }
}

// Asks whether a word was meant where a name stands.
fn tell_word(told: &mut Explanation, name: &str, word: &str) {
    told.what
        .put_with("`{}` is no word of the language", &[name]);
    ask(told, word);
}

// The word that was meant by the name in a token, if it may be one.
fn meant_by<'a>(spot: &Spot<'a>, token: &Token) -> Option<&'a str> {
    let name = shown_at(spot.text, token.span);
    if !is_name(token) || spot.declares(name) {
        return None;
    }
    near_word(&SPELLINGS, name)
}

// Asks whether a word was meant by the token of a number, and tells where that token stands.
fn tell_slip_at(
    alloc: Global,
    told: &mut Explanation,
    spot: &Spot<'_>,
    open: &[usize],
    number: usize,
) -> Result<Option<Span>, Memory> {
    let Some(token) = spot.tokens.get(number) else {
        return Ok(None);
    };
    let Some(word) = meant_by(spot, token) else {
        return Ok(None);
    };
    if !word_fits(alloc, spot.tokens, open, number, word, spot.before)? {
        return Ok(None);
    }
    tell_word(told, shown_at(spot.text, token.span), word);
    Ok(Some(token.span))
}

// The same of the token so many before the place.
fn tell_slip_back(
    alloc: Global,
    told: &mut Explanation,
    spot: &Spot<'_>,
    open: &[usize],
    back: usize,
) -> Result<Option<Span>, Memory> {
    match spot.before.checked_sub(back) {
        Some(number) => tell_slip_at(alloc, told, spot, open, number),
        None => Ok(None),
    }
}

/// Asks whether a word of the language was meant by the name at the place, or by one of the two tokens before it, and tells where the
/// mark is put.
pub fn tell_slip(
    alloc: Global,
    told: &mut Explanation,
    spot: &Spot<'_>,
    expected: &Expected,
    open: &[usize],
) -> Result<Option<Span>, Memory> {
    if tell_slip_there(told, spot, expected) {
        return Ok(Some(spot.place));
    }
    match tell_slip_back(alloc, told, spot, open, 1)? {
        Some(mark) => Ok(Some(mark)),
        None => tell_slip_back(alloc, told, spot, open, 2),
    }
}
